// The calls on lists of changes of op.rs and tools.rs as makers hold them: a list is a lent slice of structs, to read
// and to fill. Each call is thin over the call of the same name in `change_op`, and its contract is that call's own
// definition at the numbers that the structs stand for.
//
// Two buffers of numbers are lent as scratch, three to `extend`; what they hold after a call is free.
#![tactic(auto)]

mod op;

pub use op::{normalize, pixels};
