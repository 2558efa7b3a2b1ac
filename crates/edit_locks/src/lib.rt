// The lock marks of a palette's entries: read, and moved with their entries when an edit is done or undone. Document
// 02, E5. They ask their caller for what they need; where no entry moves, nothing is done.
#![tactic(auto)]

mod marks;
mod moving;

pub use marks::{bears, is_locked};
pub use moving::{redo_locks, undo_locks};
