// Two palettes joined to one: document 02, E8. Entries stored one after the other, and where an index of the second
// goes.
//
// `join_model` has what the joined palette is, and what is proved of it.
#![tactic(auto)]

mod joining;
mod places;
mod storing;

pub use joining::put_entries;
pub use places::send_indices;
