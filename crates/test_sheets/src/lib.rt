// The calls of `test_sample` over a sheet, each on its inputs; `test_calls` has the others, and says what is proved.
#![tactic(auto)]

mod curves;
mod drawn;
mod sheets;

pub use sheets::{open, over_sheet};
