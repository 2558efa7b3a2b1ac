// How far a tool reaches inside a region: the rows that it can paint, and the steps of a line at which a brush touches.
#![tactic(auto)]

mod rows;
mod touch;

pub use rows::{line_rows, path_rows, rectangle_rows};
pub use touch::touched_steps;

// The least and the greatest row of some points.
#[derive(Clone, Copy)]
pub(crate) struct Reach {
    pub low: i32,
    pub high: i32,
}
