// The olds of a record that lies in the journal, read where they lie, judged and painted. Nothing is copied out and
// there is no scratch: what is judged, the picture with all olds painted, is told by claims in the indices, which
// are taken off again.
#![tactic(auto)]

mod olds;

pub use olds::{olds_stray, paint_olds_in};
