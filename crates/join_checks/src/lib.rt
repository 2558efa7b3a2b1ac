// What `join` has to know before it writes: document 02, E8. Which entries of the second sheet bring a colour, and the
// first check that applies, the length of the joined palette among them.
#![tactic(auto)]

mod judging;
mod news;

pub use judging::joinable;
pub use news::find;

// The number of the first check that applies, or 0, and how many entries of the second bring a colour.
#[derive(Clone, Copy)]
pub struct Brought {
    pub no: u8,
    pub n: usize,
}
