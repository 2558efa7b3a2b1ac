// Input of `panel` in chunks of any size, answered byte by byte.
//
// proofs/Printed.antt: input in chunks of any size gives what is printed for its lines.
#![tactic(auto)]

mod chunk;

pub use chunk::pour;
pub use panel_frames::HELD;
use panel_open::Core;

// The longest text of a line: 5 bytes and 4,096 indices in digits, and a newline.
const LONGEST: usize = 8_203;

// Bytes of text that are gathered before they are written.
pub const GATHERED: usize = 65_536;

// After a byte: the numbers, how much of a line is held, and where the text ends.
#[derive(Clone, Copy)]
pub struct Turn {
    pub core: Core,
    pub len: usize,
    pub at: usize,
}

// After a part of a chunk: the turn, and the next byte's place.
#[derive(Clone, Copy)]
pub struct Poured {
    pub turn: Turn,
    pub next: usize,
}
