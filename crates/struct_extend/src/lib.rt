// `Stroke::extend` of tools.rs as makers hold it, which the crate struct_stroke offers: a list is a lent slice of
// structs, to read and to fill. The contract is the definition of `change_stroke::extend` at the numbers that the
// structs stand for.
//
// Three buffers of numbers are lent as scratch; what they hold after the call is free.
#![tactic(auto)]

mod strokes;

pub use strokes::extend;
