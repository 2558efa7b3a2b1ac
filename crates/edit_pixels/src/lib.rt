// Changes of pixels as code: one change checked, painted or filled in, and the loops over a list of changes. They
// ask their caller for what they need; the calls that answer every input stand in the crates above.
//
// A list of changes is lent as one number of 64 bits a change.
#![tactic(auto)]

mod change;
mod checks;
mod listing;
mod paint;

pub use change::{bits_of, column, filled_in, index_of, is_outside, new_of, old_of, place_of, row};
pub use checks::{is_stray, pixel_no, pixels_no};
pub use listing::{change_of, count_on, list_row};
pub use paint::{paint_new, paint_news, paint_old};
