// `push` as makers hold it: the handle and the palette count are lent, and a list of changes is a slice of structs, read where it lies.
#![tactic(auto)]

mod recording;

pub use recording::push;
