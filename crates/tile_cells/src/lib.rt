// Tiles: the flips of a tile, read where it lies, compared with another and numbered. The functions ask their caller for
// what they need.
#![tactic(auto)]

mod alike;
mod keys;
mod reading;

pub use alike::order_to;
pub use keys::{key, scale};
pub use reading::{copy_tile, corner_of, flips_h, flips_v, turn};
