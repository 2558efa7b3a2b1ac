// The nearest entry of a palette in LAB: the steps of color.rs's `nearest_index`.
#![tactic(auto)]

mod nearest;

pub use nearest::{dist2, nearer, nearest_in, search_in};

// The entry found so far, and how far it is.
#[derive(Clone, Copy)]
pub struct Near {
    pub entry: usize,
    pub distance: f64,
}

// A search so far: what it found, and the sum of the distances that it met. Where the sum is finite,
// so is every number of the entries, and nobody has to go through them again.
#[derive(Clone, Copy)]
pub struct Search {
    pub near: Near,
    pub total: f64,
}
