// The sheet: checks 1 to 3, which every call on a sheet begins with, and `with_lab`, `new` and `get_at` of
// document.rs.
//
// A sheet is lent as its size, its palette count and three slices: palette storage, LAB storage and the
// indices in rows. A call that looks at the entries' lock marks or writes them is lent these, too: 255 of them.
#![tactic(auto)]

mod checks;
mod document;
mod labs;
mod locks;

pub use checks::{any_stray_below, check, check_marked, permitted_no};
pub use document::{get_at, new, with_lab};
pub use labs::fill_labs;
