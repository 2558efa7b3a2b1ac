// `snap_rgba` of tools.rs, which the crate tool_clip offers: an image becomes a clip.
//
// A clip is its size and its indices, row by row, at the front of a buffer that the caller lends.
#![tactic(auto)]

mod snap;

pub use snap::snap_rgba;
