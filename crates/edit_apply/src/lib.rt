// The steps of op.rs as code, after an edit's checks and beside its list: its record filled in and the edit done. They
// ask their caller for what they need; the calls that answer every input stand in the crates above.
#![tactic(auto)]

mod redo;

pub use redo::{fill_edit, finish_edit};
