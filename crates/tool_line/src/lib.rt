// The points of a line: `bresenham` of tools.rs, the walk along them, and the place of any step without a walk.
//
// A line goes as many steps as its longer side is long. Each axis is walked by itself: at every step its
// side is added to what the closed form's division left, and where that makes a whole place, it moves.
#![tactic(auto)]

mod along;
mod line;
mod reach;

pub use along::{begin, longer, step};
pub use line::{bresenham, far_point};
pub use reach::{stand_at, steps_within};

// One axis of a walk: where it is, one place toward the end, the line's side here, and the rest of the
// division by twice the longer side.
#[derive(Clone, Copy)]
pub struct Axis {
    pub at: i32,
    pub step: i32,
    pub side: usize,
    pub rest: usize,
}

// A point of a line, with what it takes to go on; it is `steps` steps from the first point to the last.
#[derive(Clone, Copy)]
pub struct Walk {
    pub x: Axis,
    pub y: Axis,
    pub steps: usize,
}

// Steps of a line: those from `first` on and below `end`.
#[derive(Clone, Copy)]
pub struct Steps {
    pub first: usize,
    pub end: usize,
}
