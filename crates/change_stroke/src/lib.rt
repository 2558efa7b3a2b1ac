// The stroke of tools.rs that a drag makes of the lists of its events. Every tool returns a list of changes, which is
// pushed as one edit.
//
// A list of changes is lent as one number of 64 bits a change, and so is the scratch, whose contents are free
// before and after the call.
#![tactic(auto)]

mod strokes;

pub use strokes::{extend, extend_no};

// A drag: the tool that it is noted with, and how many changes its buffer holds so far, at the front. A maker may write
// any count: the calls that read the buffer check it.
#[derive(Clone, Copy)]
pub struct Stroke {
    pub tool: u8,
    pub count: usize,
}
