// `redo`, which the crate history offers: the record after the standing offset, found, checked and redone.
#![tactic(auto)]

mod moving;

pub use moving::redo;
