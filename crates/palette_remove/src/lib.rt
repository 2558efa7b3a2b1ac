// Entries that leave the palette: palette.rs. An entry is removed with its pixels moved to the nearest other
// entry, or merged into another. A call makes the edit and the list of its changes; it changes no sheet.
#![tactic(auto)]

mod nearest;
mod remap;

pub use nearest::nearest_other;
pub use remap::{merge_entries, remove_entry};
