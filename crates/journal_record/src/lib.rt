// An edit's bytes in the journal: specs/Record.antt has the five kinds in their two forms, and their readings. No code: numbers
// are read and written by `journal_bytes`, a record is found by `journal_find`.
#![tactic(auto)]

// A double that was read, or that the bits are no number's.
#[derive(Clone, Copy)]
pub enum Real {
    Number(f64),
    NotANumber,
}

// Where a sound record lies in the journal, its kind, 1 to 5 in either form, and how many changes it holds.
#[derive(Clone, Copy)]
pub enum Found {
    Record {
        kind: u8,
        start: usize,
        length: usize,
        count: usize,
    },
    Unsound,
}
