// What every crate stands on: the documents' limits and numbers, the types that calls take and give, entries
// of palette and LAB storage, tests on numbers, and laws on lists.
//
// specs/ says the same to the contracts: Limits and Numbers name the numbers, Checks takes the first check that applies,
// Answer gives document 01's number and values for each case of each enum that is an answer.
#![tactic(auto)]

mod ints;
mod lists;
mod storage;

ghost use Rattle.std.specs.Prelude.{◌≡◌};
ghost use Rattle.base.specs.Answer.{number_of, counted_number};

pub use ints::{from_zero, is_far, max_i32, max_usize, min_i32, min_usize, on_axis, same, up_to};
pub use lists::{both, either};
pub use storage::{lab_at, put_lab, rgb_at};

// The limits of document 01's "The sheet".

// Width and height of a sheet, and a clip's sides.
pub const MAX_SIDE: usize = 1024;

// Entries of a palette.
pub const MAX_ENTRIES: usize = 255;

// Bytes of palette storage, and doubles of LAB storage: three an entry.
pub const STORAGE: usize = 765;

// Permitted colours.
pub const MAX_PERMITTED: usize = 4096;

// Changes in a list, and points.
pub const MAX_CHANGES: usize = 1_048_576;

// A point's coordinate or a shift, either way, and a margin.
pub const MAX_DISTANCE: i32 = 65_536;

// Bytes of a journal.
pub const MAX_JOURNAL: usize = 2_147_483_647;

// Layers of a symbol: document 02, E1.
pub const MAX_LAYERS: usize = 8;

// The numbers of document 01's table, each by its word.
pub const BAD_SHEET: u8 = 1;

pub const STRAY_INDEX: u8 = 2;

pub const UNFIT_LAB: u8 = 3;

pub const JOURNAL_DAMAGED: u8 = 4;

pub const OFF_THE_SHEET: u8 = 5;

pub const NO_SUCH_INDEX: u8 = 6;

pub const NO_SUCH_ENTRY: u8 = 7;

pub const PALETTE_FULL: u8 = 8;

pub const LAST_ENTRY: u8 = 9;

pub const COLOUR_NOT_PERMITTED: u8 = 10;

pub const STALE: u8 = 11;

pub const BAD_REMAP: u8 = 12;

pub const STILL_USED: u8 = 13;

pub const JOURNAL_FULL: u8 = 14;

pub const TOO_FAR: u8 = 15;

pub const NO_SPACE: u8 = 16;

pub const BAD_CLIP: u8 = 17;

pub const BAD_MERGE: u8 = 18;

pub const SHORT_PIXELS: u8 = 19;

pub const ROOT_RANGE: u8 = 20;

pub const LIST_TOO_LONG: u8 = 21;

pub const UNREAD_FRAME: u8 = 22;

// Document 02, E1.
pub const LAYERS_DIFFER: u8 = 23;

// Document 02, E5.
pub const ENTRY_LOCKED: u8 = 24;

// Document 02, E6.
pub const UNFIT_CURVE: u8 = 25;

pub const JOURNAL_IN_USE: u8 = 26;

// Document 02, E8.
pub const JOINED_TOO_LONG: u8 = 27;

// Document 02, E12.
pub const FLAT_MISFIT: u8 = 28;

// A colour of the palette: three bytes of sRGB.
#[derive(Clone, Copy)]
pub struct Rgb {
    pub r: u8,
    pub g: u8,
    pub b: u8,
}

// One LAB triple: "three doubles that travel together".
#[derive(Clone, Copy)]
pub struct Lab {
    pub l: f64,
    pub a: f64,
    pub b: f64,
}

// What a call that returns no value answers.
#[derive(Clone, Copy)]
pub enum Answer {
    Done,
    Still,
    Refused(u8),
}

// What a call that fills a buffer answers: how many results it wrote.
#[derive(Clone, Copy)]
pub enum Counted {
    Count(usize),
    Refused(u8),
}

impl Answer {
    // The number as document 01 has it: 0 for done, 255 for still, else the refusal's own.
    pub fn number(self) -> u8
        ensures { result ≡ number_of self }
    {
        match self {
            Answer::Done => 0,
            Answer::Still => 255,
            Answer::Refused(n) => n,
        }
    }
}

impl Counted {
    // The same: 0 for a count, else the refusal's own.
    pub fn number(self) -> u8
        ensures { result ≡ counted_number self }
    {
        match self {
            Counted::Count(_) => 0,
            Counted::Refused(n) => n,
        }
    }
}

// An edit, beside its list of changes: `Op` of op.rs.
#[derive(Clone, Copy)]
pub enum Edit {
    // Pixels set to new indices; the tool is a note.
    Pixels {
        tool: u8,
    },
    // An entry recoloured.
    PaletteSet {
        index: usize,
        old: Rgb,
        new: Rgb,
        old_lab: Lab,
    },
    // An entry appended.
    PaletteAdd {
        rgb: Rgb,
    },
    // An entry removed; the list moves its pixels to others.
    PaletteRemove {
        index: usize,
        rgb: Rgb,
        lab: Lab,
    },
    // An entry locked or unlocked: document 02, E5.
    PaletteLock {
        index: usize,
        old: bool,
        new: bool,
    },
}

// "a list of changes, each with x, y, old and new".
#[derive(Clone, Copy)]
pub struct Change {
    pub x: u16,
    pub y: u16,
    pub old: i16,
    pub new: i16,
}

// How the records of a history hold a change: column, row, old and new in two bytes each; or, document 02, E9, its
// place in three, and old and new in two each. A history is in one form throughout.
#[derive(Clone, Copy)]
pub enum Form {
    Coordinates,
    Places,
}

// The saved position of a handle that has none.
pub const NOWHERE: usize = 18_446_744_073_709_551_615;

// Document 01's "handle": standing offset, end offset, standing position, count, saved position or NOWHERE.
#[derive(Clone, Copy)]
pub struct Handle {
    pub offset: usize,
    pub end: usize,
    pub position: usize,
    pub count: usize,
    pub saved: usize,
}

// What push, undo and redo answer: the palette count and the handle after the call.
#[derive(Clone, Copy)]
pub struct Moved {
    pub answer: Answer,
    pub k: usize,
    pub handle: Handle,
}

// What `mark_saved` answers, and the handle that it leaves.
#[derive(Clone, Copy)]
pub struct Marked {
    pub answer: Answer,
    pub handle: Handle,
}

// What `convert` answers, and the handle that it leaves.
#[derive(Clone, Copy)]
pub struct Converted {
    pub answer: Answer,
    pub handle: Handle,
}

// What `replay` answers, and the palette count after it.
#[derive(Clone, Copy)]
pub struct Replayed {
    pub answer: Answer,
    pub k: usize,
}

// What a question about a history answers.
#[derive(Clone, Copy)]
pub enum Truth {
    Is(bool),
    Refused(u8),
}

// What a look at a record answers: the edit, where its record starts and how long it is, and where its
// changes start, 8 bytes each in coordinates and 7 in places, and how many there are.
#[derive(Clone, Copy)]
pub enum Next {
    Record {
        edit: Edit,
        start: usize,
        length: usize,
        list: usize,
        count: usize,
    },
    Nothing,
    Refused(u8),
}

// What `get_at` answers.
#[derive(Clone, Copy)]
pub enum Got {
    Index(i16),
    Outside,
    Refused(u8),
}

// What `cbrt` answers.
#[derive(Clone, Copy)]
pub enum Root {
    Value(f64),
    Refused(u8),
}

// What the LAB of a colour under a curve answers.
#[derive(Clone, Copy)]
pub enum Triple {
    Value(Lab),
    Refused(u8),
}

// What a search for an entry answers: the entry, and its squared distance.
#[derive(Clone, Copy)]
pub enum Found {
    Entry { index: usize, distance: f64 },
    Refused(u8),
}

// What `fixed_choices` answers: how many colours there are to choose from, or that all are free.
#[derive(Clone, Copy)]
pub enum Choices {
    Free,
    Count(usize),
    Refused(u8),
}

// What `set_color` and `add_color` answer.
#[derive(Clone, Copy)]
pub enum MadeEdit {
    Edit(Edit),
    Refused(u8),
}

// What `remove_entry` answers: the edit, how many changes its list has, and the entry that its pixels move to with the
// squared distance of that entry, also where no pixel moves.
#[derive(Clone, Copy)]
pub enum Removed {
    Made {
        edit: Edit,
        count: usize,
        into: usize,
        distance: f64,
    },
    Refused(u8),
}

// What `merge_entries` answers: the edit, and how many changes its list has.
#[derive(Clone, Copy)]
pub enum Removal {
    Made { edit: Edit, count: usize },
    Refused(u8),
}

// What a call answers that makes an edit with a list of changes: the edit, and how many they are.
#[derive(Clone, Copy)]
pub enum MadeOp {
    Op { edit: Edit, count: usize },
    Refused(u8),
}

// What a call that makes a clip answers: the clip's size.
#[derive(Clone, Copy)]
pub enum Copied {
    Clip { w: usize, h: usize },
    Refused(u8),
}

// How many tiles and map entries `extract` made.
#[derive(Clone, Copy)]
pub enum Extraction {
    Made { tiles: usize, entries: usize },
    Refused(u8),
}

// What a call that reads a sheet from a line answers: its sides and its palette count.
#[derive(Clone, Copy)]
pub enum Opened {
    Sheet { w: usize, h: usize, k: usize },
    Refused(u8),
}

// What `join` answers: the count of the joined palette, and a fresh history for each of the two sheets.
#[derive(Clone, Copy)]
pub enum Joined {
    Palette {
        k: usize,
        first: Handle,
        second: Handle,
    },
    Refused(u8),
}

// What `journal_need` answers: the journal length that the calls need, and the palette count that they end with.
#[derive(Clone, Copy)]
pub enum Need {
    Bytes { need: usize, k: usize },
    Refused(u8),
}
