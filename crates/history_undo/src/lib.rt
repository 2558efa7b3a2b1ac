// `undo`, which the crate history offers: the record before the standing offset, found, judged and undone.
#![tactic(auto)]

mod moving;

pub use moving::undo;
