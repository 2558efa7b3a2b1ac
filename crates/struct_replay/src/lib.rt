// `replay` as makers hold it: the palette count is lent, and a list of changes is a slice of structs, read where it lies.
#![tactic(auto)]

mod op;

pub use op::replay;
