// One change of a removal's list, checked, and its place marked.
#![tactic(auto)]

mod remap;

pub use remap::{mark_inside, mark_move};
