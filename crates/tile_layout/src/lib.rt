// The cells of a sheet numbered by their tiles, and the tiles and the map of `extract` written from there.
#![tactic(auto)]

mod laying;

pub use laying::{copy_tiles, number_tiles, put_map};
