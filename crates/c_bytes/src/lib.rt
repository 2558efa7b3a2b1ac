// The flat form: a sheet, a handle and a list of changes in byte buffers, read and written (document 02, E12). The
// crate c_form's specs/Flat.antt has the layout.
#![tactic(auto)]

mod fit;
mod handle;
mod number;
mod read;
mod write;

pub use fit::{handle_misfits, pair_at, sheet_misfits};
pub use handle::{put_handle, take_handle};
pub use read::{take_list, take_sheet};
pub use write::put_sheet;
