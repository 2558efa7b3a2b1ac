// The list of an edit's record, written into the part of the journal that starts at the standing offset, and what
// stands around it. (The crate journal_frame writes that.)
//
// specs/Fit.antt says what a record can hold, specs/List.antt where its list stands; proofs/ReadAgain that what was
// written is read, from both ends.
#![tactic(auto)]

mod write;

pub use write::{
    mark_byte, put_change, put_kind, put_lab, put_list, put_rgb, write_add, write_lock, write_set,
};
