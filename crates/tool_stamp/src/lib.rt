// Places of a picture laid out in scratch, and a brush's stamp among them: clipped to a selection, and painted. specs/ has
// the points of the drawing tools and where they stand.
#![tactic(auto)]

mod paint;
mod stamp;

pub use paint::{clip, paint_run};
pub use stamp::{clamp, paint_stamp, stamp_run};

// The places of one axis that are painted: count of them from start on.
#[derive(Clone, Copy)]
pub struct Run {
    pub start: usize,
    pub count: usize,
}

// The columns of a rectangle: all of them, the first, and the last where it is another.
#[derive(Clone, Copy)]
pub struct Columns {
    pub all: Run,
    pub left: Run,
    pub right: Run,
}
