// The drawing tools of tools.rs: `pencil`, `eraser`, `line`, `rectangle`. Each makes the list of changes that
// paints one index at its points, as far as the selection has them; no sheet is changed.
//
// The rows that the points can reach are laid out in the scratch and painted there, clipped to the selection first;
// then the places of these rows that differ are the changes. So the raw list of the Rust, which may be far longer
// than the sheet, is never made, and what a tool cannot touch costs nothing but the checks.
#![tactic(auto)]

mod calls;

pub use calls::{eraser, eraser_in, line, line_in, pencil, pencil_in, rectangle, rectangle_in};
use selection::Selection;

// What the checks leave: the region to draw in, or their number.
#[derive(Clone, Copy)]
pub(crate) enum Stage {
    Canvas(Selection),
    Refused(u8),
}
