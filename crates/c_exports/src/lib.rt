// The calls of color.rs, document.rs, palette.rs and history.rs under plain C names, for compare/ and bench/; `c_tools` has
// the others. A wrapper makes one call, or one of some of one shape, by a number: structs and enums come and go as numbers
// in small arrays, and what it returns is document 01's number: 0 where there is an answer, 255 for "still", nothing or
// outside, else the refusal's own. What the calls answer stands in their own contracts; of the wrappers it is proved that
// they are safe and end.
//
// `bench` has what bench/driver.rs times of the colours: loops over slices, as many calls as there are inputs.
#![tactic(auto)]

mod bench;
mod colours;
mod histories;
mod palettes;
mod sheets;

pub use bench::{bench_cbrt, bench_lab, bench_lab_lent, bench_nearest, bench_nearest_in};
pub use colours::{call_cbrt, call_dist2, call_linear, call_nearest_index, call_rgb8_to_lab};
pub use histories::{
    call_asked, call_fresh, call_mark_saved, call_next, call_push, call_redo, call_replay,
    call_undo,
};
pub use palettes::{
    call_add_color, call_check_color, call_fixed_choices, call_merge_entries, call_nearest_other,
    call_remove_entry, call_set_color,
};
pub use sheets::{
    call_any_stray_below, call_check, call_counts, call_diff_mask, call_get_at, call_new,
    call_permitted_no, call_with_lab,
};
