// Clips, the rectangles of indices of tools.rs: `copy`, `clip_rgba`, `snap_rgba`; and `eyedropper`.
//
// A clip is its size and its indices, row by row, at the front of a buffer that the caller lends.
#![tactic(auto)]

mod copying;
mod rgba;

pub use copying::{copy, eyedropper};
pub use rgba::clip_rgba;
pub use tool_snap::snap_rgba;
