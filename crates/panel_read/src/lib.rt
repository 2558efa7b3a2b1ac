// Change request E10: a sheet read from its line, as `panel` reads an opening.
#![tactic(auto)]

mod line;
mod opening;

pub use line::{read_line, read_sheet};
