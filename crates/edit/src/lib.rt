// What an edit checks, does and undoes: op.rs and palette.rs, as definitions, and the list of changes that an edit
// goes by.
#![tactic(auto)]

ghost use Rattle.std.specs.Prelude.{◌≡◌};
ghost use Rattle.edit.specs.List.{list_of, empty_pixels};

use base::Edit;

// A change as one number of 64 bits: its column from bit 0 on, its row from ROW, its old from OLD and its new from NEW,
// each of them below PART.
pub const PART: u64 = 65_536;

pub const ROW: u64 = 65_536;

pub const OLD: u64 = 4_294_967_296;

pub const NEW: u64 = 281_474_976_710_656;

// The list of changes that an edit goes by: none, one of pixels, or the remap of a removed entry.
#[derive(Clone, Copy)]
pub enum ListKind {
    NoList,
    PixelList,
    RemapList { index: usize },
}

// The list that an edit goes by.
pub fn list_of(edit: Edit) -> ListKind
    ensures { result ≡ list_of edit }
{
    match edit {
        Edit::Pixels { tool: _ } => ListKind::PixelList,
        Edit::PaletteSet {
            index: _,
            old: _,
            new: _,
            old_lab: _,
        } => ListKind::NoList,
        Edit::PaletteAdd { rgb: _ } => ListKind::NoList,
        Edit::PaletteRemove {
            index,
            rgb: _,
            lab: _,
        } => ListKind::RemapList { index },
        Edit::PaletteLock {
            index: _,
            old: _,
            new: _,
        } => ListKind::NoList,
    }
}

// Whether a list of n changes is an empty list of pixels.
pub fn is_empty(list: ListKind, n: usize) -> bool
    ensures { result ≡ empty_pixels list n }
{
    match list {
        ListKind::NoList => false,
        ListKind::PixelList => n == 0,
        ListKind::RemapList { index: _ } => false,
    }
}
