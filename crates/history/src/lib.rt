// The history of a sheet: push, undo, redo and mark-saved over a lent journal. Each call answers every input.
//
// A sheet is lent as its size, its palette count and four slices, the lock marks of its entries the last; a list of
// changes as one number of 64 bits a change. The handle and the palette count go in and come back by value.
//
// The crate history_model's specs/Demand3.antt states what the calls do together, for every list of them: document 01's
// demand 3.
#![tactic(auto)]

mod mark;

pub use history_handle::fresh;
pub use history_push::push;
pub use history_redo::redo;
pub use history_replay::replay;
pub use history_undo::undo;
pub use mark::mark_saved;
