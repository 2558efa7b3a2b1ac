// The crate for C hosts (document 02, E12): push of every kind, undo, redo and mark over one flat byte sheet, a journal
// and a handle in bytes, with the sRGB curve, no colour list and document 01's form of the records. What a call returns
// is 0 for done, 255 for still, else the refusal's number. Each call answers every input.
//
// The crate c_model's specs say what each call does (Step.antt), and what a list of them does (FlatHistory.antt).
#![tactic(auto)]

mod marks;
mod pushes;
mod redoing;
mod settle;
mod undoing;

pub use marks::wh_mark;
pub use pushes::{wh_push_add, wh_push_lock, wh_push_pixels, wh_push_remove, wh_push_set};
pub use redoing::wh_redo;
pub use undoing::wh_undo;
