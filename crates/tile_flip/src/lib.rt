// `flip` of tiles.rs, which the crate tile_extract offers: a tile flipped over the front of a buffer.
#![tactic(auto)]

mod flips;

pub use flips::flip;
