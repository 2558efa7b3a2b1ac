// The palette's entries as code: a colour looked up, permitted or not, and stored, and the gap that an entry leaves
// closed and opened again. They ask their caller for what they need.
#![tactic(auto)]

mod colours;
mod storage;

pub use colours::{check_color, has_rgb, is_listed, no_lab};
pub use storage::{close_lab_gap, close_palette_gap, open_lab_gap, open_palette_gap, store_rgb};
