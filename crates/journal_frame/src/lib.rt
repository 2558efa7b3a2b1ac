// What stands around the list of an edit's record, written when the list stands in the journal already.
//
// specs/Frame.antt says what that is; proofs/Framing that the two together are the whole record.
#![tactic(auto)]

mod around;

pub use around::write_around;
