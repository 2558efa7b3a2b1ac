// The lines of `panel`: hexadecimal digits to a frame, and a state to a line of digits.
//
// proofs/Trips.antt, here and in the crate panel_hex, has the laws between the two: what was written is read
// again.
#![tactic(auto)]

mod carry;
mod line;
mod reading;

use base::Rgb;
pub use carry::{take_changes, take_indices};
pub use line::{put_line, put_newline, put_number};
pub use reading::decode;

// Digits of the longest line that is read: 8,192 bytes.
pub const MAX_DIGITS: usize = 16_384;

// Digits of a line that are held: one more than are read, so that a longer line is known, however long.
pub const HELD: usize = MAX_DIGITS + 1;

// Bytes of the longest line that is read.
pub const MAX_BYTES: usize = MAX_DIGITS / 2;

// Sides of the sheets that an opening line holds.
pub const MAX_OPEN: usize = 64;

// What a line is read as. An opening's palette and indices, and the changes of a pixel frame, stay in the
// frame's bytes.
#[derive(Clone, Copy)]
pub enum Frame {
    Open { w: usize, h: usize, k: usize },
    Pixels { tool: u8, n: usize },
    Set { index: usize, rgb: Rgb },
    Add { rgb: Rgb },
    Merge { from: usize, into: usize },
    Undo,
    Redo,
    Mark,
    Malformed,
}
