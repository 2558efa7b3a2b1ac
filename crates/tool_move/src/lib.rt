// `move_selection` of tools.rs: a rectangle of indices put at another place of the sheet.
//
// The rows of the selection and of its landing are laid out in the scratch, cleared and painted there, row by row and
// clipped to the sheet; the changes are then what lies between the two pictures in these rows. So a move makes no
// list of its own, however large it is, and what it cannot touch costs nothing but the checks.
#![tactic(auto)]

mod moving;

pub use moving::{move_selection, move_selection_in};
