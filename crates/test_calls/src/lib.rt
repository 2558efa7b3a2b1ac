// The calls of `test_sample` that are given no sheet, and those of a history, each on its inputs, and what it answered and
// left, told by a number and a fingerprint. Calls of one shape are one function over the call's number. Of these functions
// it is proved that they are safe and end: what the calls answer stands in their own contracts.
#![tactic(auto)]

mod bare;
mod histories;

pub use bare::bare_answer;
pub use editor::fresh;
pub use histories::{change, damage, look, told_change, told_state};
