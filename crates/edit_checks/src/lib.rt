// The checks of an edit that do not see its list: those before the list, and the one after it.
#![tactic(auto)]

mod head;
mod marks;

pub use head::head_no;
pub use marks::{clear_marks, left_no};
