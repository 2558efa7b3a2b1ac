// The indices of a picture when an entry leaves the palette or comes back.
#![tactic(auto)]

mod indices;

pub use indices::{lower_above, raise_from};
