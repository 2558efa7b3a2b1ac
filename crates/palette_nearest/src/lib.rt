// The entries of a palette but one, for `nearest_other` and `remove_entry`: the checks that each begins with, and the
// nearest of the others. The search asks its caller for what the checks tell.
#![tactic(auto)]

mod nearest;

pub use nearest::{nearest_but, other_no, removal_no};
