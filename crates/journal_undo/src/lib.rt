// An edit that lies in the journal, judged and undone from its bytes.
#![tactic(auto)]

mod undo;

pub use undo::{can_undo, undo_record};
