// The state of `panel` in lent buffers, the text of a line, and the opening.
#![tactic(auto)]

mod open;
mod text;

use base::Handle;
pub use open::open_sheet;
pub use text::{number, whole};

// The numbers of the open sheet, and its history's. Its palette, LAB, indices and lock marks, and the journal, are in
// buffers; the indices are the first w × h places of theirs.
#[derive(Clone, Copy)]
pub struct Core {
    pub opened: bool,
    pub w: usize,
    pub h: usize,
    pub k: usize,
    pub handle: Handle,
}

// After a line: the numbers, and where the text ends.
#[derive(Clone, Copy)]
pub struct Stepped {
    pub core: Core,
    pub at: usize,
}
