// `flood_fill`, `replace_color` and `fill_global` of tools.rs as makers hold them: the list of changes is a lent
// slice of structs. The flat `replace_color` and `fill_global` take no scratch; these do, a place a pixel, and a
// shorter one is 16 after all other checks.
#![tactic(auto)]

mod flooding;
mod index;

pub use flooding::flood_fill;
pub use index::{fill_global, replace_color};
pub use struct_palette::{merge_entries, remove_entry};
