// The palette's edits: palette.rs. An entry is recoloured, added, removed with its pixels moved to the
// nearest other entry, or merged into another. A call makes the edit, and with a removal the list of its
// changes; it changes no sheet.
//
// Permitted colours are lent as `limited` and their bytes, three a colour; not limited, the bytes are not
// looked at.
#![tactic(auto)]

mod colours;

pub use colours::{add_color, check_color, fixed_choices, set_color};
pub use palette_remove::{merge_entries, nearest_other, remove_entry};
