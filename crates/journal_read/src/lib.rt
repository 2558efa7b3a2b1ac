// The parts of a record that lies in the journal, read and checked where they lie: nothing is copied out. The
// caller knows the record's kind, where it starts and how many changes it has.
#![tactic(auto)]

mod change;
mod contents;
mod kind;
mod lab;
mod list;
mod rgb;

pub use change::{change_at, row_width};
pub use contents::edit_at;
pub use kind::{ADD, LOCK, PIXELS, SET, entry_at, mark_at};
pub use lab::{double_in, lab_in, unfit_lab_in};
pub use list::{any_outside_in, check_list_in, list_offset, paint_list_in};
pub use rgb::get_rgb;
