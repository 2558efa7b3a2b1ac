// `mirror_tiles` of tools.rs without its checks: the changes of a list, and the same change at the corresponding pixel
// of every other instance of each edited tile. The raw list of the Rust, up to 2^40 changes long, is never made.
//
// Two places are the same pixel of one tile where they have the same class: the place of that pixel in the first cell of
// the tile. One pass marks each class with its last change; one takes that change's new to every place of the class;
// then the caller's changes go over that, and one scan of the rows writes what is pending. All share the scratch.
// The functions ask their caller for what they need.
#![tactic(auto)]

mod mirror;
mod waiting;

pub use mirror::mirror_in;
pub use waiting::{emit, pend_all};
