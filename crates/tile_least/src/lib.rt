// Of a tile's four flips the least, and the indices of that reading as numbers: flips of each other, and they alone,
// have one least reading. The functions ask their caller for what they need.
#![tactic(auto)]

mod digits;
mod least;

pub use digits::digit;
pub use least::least_order;
