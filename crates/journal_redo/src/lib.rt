// An edit that lies in the journal, checked and redone from its bytes.
#![tactic(auto)]

mod redo;

pub use redo::{can_redo, redo_record};
