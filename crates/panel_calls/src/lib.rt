// A line of `panel` that calls on the open sheet, and what document 01 says of every line.
#![tactic(auto)]

mod acting;

pub use acting::call;
