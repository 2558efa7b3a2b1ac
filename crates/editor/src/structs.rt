// The calls over change structs: a list is `&[Change]`, and a history's palette count and handle are lent.
pub use struct_draw::{eraser, line, pencil, rectangle};
pub use struct_extend::extend;
pub use struct_fill::{fill_global, flood_fill, replace_color};
pub use struct_history::{mark_saved, push, redo, replay, undo};
pub use struct_mirror::mirror_tiles;
pub use struct_move::move_selection;
pub use struct_palette::{merge_entries, remove_entry};
pub use struct_paste::paste;
pub use struct_stroke::{normalize, pixels};
