// The first steps of a mirror, up to its copies: classes, marks, and what lands where. They ask their caller for what they
// need.
#![tactic(auto)]

mod classes;
mod marks;

pub use classes::spread;
pub use edit::{NEW, PART};
pub use marks::{PENDING, land_all, mark_all, new_bits};
