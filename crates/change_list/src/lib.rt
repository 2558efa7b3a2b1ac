// Lists of changes: those between two pictures, which is what a drawing tool returns, and how a list leaves the
// scratch. The functions ask their caller for what they need; the calls that answer every input stand in the
// crates above.
#![tactic(auto)]

mod between;
mod copy;

pub use between::{differences, lay_rows, paint};
pub use copy::{copy_out, count_of, counted};
