// The history's calls as makers hold them: the handle and the palette count are lent, and a list of changes is a
// slice of structs, read where it lies. The contract of each is the equation of the call of the same name that takes
// them by value: `undo`, `redo` and `mark_saved` are thin over that call; `push` and `replay` go through their list
// by themselves, with the steps before and after it beside.
#![tactic(auto)]

mod moving;

pub use moving::{mark_saved, redo, undo};
pub use struct_push::push;
pub use struct_replay::replay;
