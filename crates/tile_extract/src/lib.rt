// Tiles: `flip` and `extract` of tiles.rs, the latter at tolerance 0.
#![tactic(auto)]

mod cutting;

pub use cutting::extract;
pub use tile_flip::flip;
