// The calls that makers have, under one name. A list of changes is lent as numbers here, one of 64 bits a change; the
// same calls over change structs, with palette count and handle lent, stand in `structs`.
//
// There is no code here: each call, its contract and its proof stand in the crate that it is handed on from. The types
// that calls take and give are declared in `base` and `selection`, a stroke in `change_stroke`.
#![tactic(auto)]

pub mod structs;

// color.rs
pub use color::{cbrt, dist2, linear, nearest_index, rgb8_to_lab};
// document.rs
pub use sheet::{check, get_at, new, with_lab};
pub use sheet_counts::counts;
pub use sheet_diff::diff_mask;
// selection.rs; its other calls are methods of `Selection`
pub use selection::region;
// palette.rs
pub use palette::{
    add_color, check_color, fixed_choices, merge_entries, nearest_other, remove_entry, set_color,
};
// op.rs, and tools.rs from a list to an edit; a stroke's other calls are methods of `Stroke`
pub use change_op::{is_empty, kind, normalize, normalize_in, pixels, pixels_in};
pub use change_stroke::extend;
// tools.rs
pub use tool_clip::{clip_rgba, copy, eyedropper, snap_rgba};
pub use tool_draw::{eraser, eraser_in, line, line_in, pencil, pencil_in, rectangle, rectangle_in};
pub use tool_flood_fill::{flood_fill, flood_fill_in};
pub use tool_line::bresenham;
pub use tool_move::{move_selection, move_selection_in};
pub use tool_paste::{paste, paste_in};
pub use tool_replace::{fill_global, replace_color};
// tiles.rs
pub use tile_extract::{extract, flip};
pub use tile_mirror::mirror_tiles;
// layers of one symbol: document 02, E1
pub use layer::{flatten, repaint};
// two sheets on one palette: document 02, E8
pub use join::join;
// change request E10: a sheet's line, `panel`'s opening frame
pub use panel_read::read_sheet;
pub use panel_spell::spell;
// change request E11: how much journal a session needs
pub use need::journal_need;
// history.rs
pub use history::{fresh, mark_saved, push, redo, replay, undo};
pub use history_queries::{applied, can_redo, can_undo, is_dirty, next_redo, next_undo};
// a maker's own curve: document 02, E6
pub use color_curve::rgb8_to_lab_by;
pub use history_curve::load_curve;
// a journal from one form to the other: document 02, E9
pub use history_convert::convert;
