// The calls of selection.rs, op.rs, tools.rs and tiles.rs under plain C names, as `c_exports` has the others.
#![tactic(auto)]

mod drawn;
mod listed;
mod selections;
mod tiled;

pub use drawn::{
    call_clip_rgba, call_copy, call_draw, call_eyedropper, call_move_selection, call_paste,
    call_snap_rgba,
};
pub use listed::{
    call_bresenham, call_extend, call_is_empty, call_kind, call_normalize, call_pixels, call_stroke,
};
pub use selections::{
    call_all, call_contains, call_contains_i, call_from_corners, call_grown, call_positions,
    call_region, call_translated,
};
pub use tiled::{call_extract, call_flip, call_mirror_tiles};
