// A record of a journal as a conversion takes it, document 02's E9: read and judged, and written in the other form.
//
// specs/Raw.antt says what both forms have alike; proofs/Readings that a record written in either form is read again.
#![tactic(auto)]

mod judge;
mod kinds;
mod rewrite;

pub use judge::measure_record;
pub use kinds::other;
pub use rewrite::write_record;

// A record measured, or written: its length, and its length in the other form.
#[derive(Clone, Copy)]
pub struct Written {
    pub length: usize,
    pub size: usize,
}
