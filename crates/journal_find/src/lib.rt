// A record found from either end, and the numbers of the two forms.
#![tactic(auto)]

mod find;
mod form;

pub use find::{find_back, find_forth};
pub use form::{list_bytes, pixels_kind, remove_kind};
