// `remove_entry` and `merge_entries` of palette.rs as makers hold them, which the crate struct_fill offers: the list
// of changes is a lent slice of structs. The flat calls take no scratch; these do, a place a pixel, and a shorter one
// is 16 after all other checks.
#![tactic(auto)]

mod removing;

pub use removing::{merge_entries, remove_entry};
