// What a maker asks of a history without changing it: history.rs, `is_dirty`, `can_undo`, `can_redo`, `next_undo`,
// `next_redo` and `applied`. Each call answers every input and looks at no sheet.
#![tactic(auto)]

mod questions;
mod shown;

pub use questions::{can_redo, can_undo, is_dirty};
pub use shown::{applied, next_redo, next_undo};
