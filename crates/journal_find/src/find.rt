// The record that ends at an offset of the journal, or starts there: whether its kind, count, marks and lengths
// agree, and where it lies.
ghost use Rattle.std.specs.Prelude.{◌≡◌, ℕ, ◌≤◌, ◌-◌, length, take, drop};
ghost use Rattle.journal_record.specs.Record.{is_mark, read_forth, read_back};
ghost use Rattle.journal_record.specs.Found.{found_at, found_before, closed_at, counted_at, locked_at, whole_only};

use crate::form::{list_bytes, pixels_kind, remove_kind};
use base::{Form, both};
use journal_bytes::get_u32;
use journal_record::Found;

// A record shorter than an add or a lock is none.
const LEAST: usize = 8;

// A record of `length` bytes from the front on, where these bytes hold it and its last four are its
// length.
#[tactic(auto, unfolding(journal_record::specs::Found::closed_at, journal_record::specs::Record::closed))]
fn closed(bytes: &[u8], start: usize, kind: u8, length: usize, count: usize) -> Found
    requires { 4 ≤ length }
    ensures { result ≡ closed_at bytes.now start kind length count }
{
    if bytes.len() < length {
        return Found::Unsound;
    }
    if get_u32(bytes, length - 4) as usize != length {
        return Found::Unsound;
    }
    Found::Record {
        kind,
        start,
        length,
        count,
    }
}

// The same of a kind with a list: `fixed` bytes and those of the changes, of which there are at least `least`. The
// count stands 8 bytes before the end of the fixed ones.
#[tactic(auto, unfolding(journal_record::specs::Found::counted_at))]
fn counted(form: Form, bytes: &[u8], start: usize, kind: u8, fixed: usize, least: usize) -> Found
    requires { (8 ≤ fixed) × (fixed ≤ 37) }
    ensures { result ≡ counted_at form bytes.now start kind fixed least }
{
    if bytes.len() < fixed {
        return Found::Unsound;
    }
    let count = get_u32(bytes, fixed - 8) as usize;
    if count < least {
        return Found::Unsound;
    }
    closed(bytes, start, kind, fixed + list_bytes(form, count), count)
}

// Whether a byte is a lock mark.
fn is_mark(b: u8) -> bool
    ensures { result ≡ is_mark b }
{
    b <= 1
}

// The same of a lock, whose old and new mark are marks: "a recorded mark other than 0 or 1 gets 4".
#[tactic(auto, unfolding(journal_record::specs::Found::locked_at))]
fn locked(bytes: &[u8], start: usize) -> Found
    requires { 4 ≤ length bytes.now }
    ensures { result ≡ locked_at bytes.now start }
{
    if both(is_mark(bytes[2]), is_mark(bytes[3])) {
        return closed(bytes, start, 5, 8, 0);
    }
    Found::Unsound
}

// The record that starts these bytes, which stand in the journal from `start` on. What its changes say depends on the
// sheet's width, and is not looked at.
fn find_in(form: Form, bytes: &[u8], start: usize) -> Found
    ensures { (w : ℕ) → result ≡ found_at start (read_forth form w bytes.now) }
{
    if bytes.len() < LEAST {
        return Found::Unsound;
    }
    let kind = bytes[0];
    if kind == pixels_kind(form) {
        return counted(form, bytes, start, 1, 10, 1);
    }
    if kind == 2 {
        return closed(bytes, start, 2, 36, 0);
    }
    if kind == 3 {
        return closed(bytes, start, 3, 8, 0);
    }
    if kind == remove_kind(form) {
        return counted(form, bytes, start, 4, 37, 0);
    }
    if kind == 5 {
        return locked(bytes, start);
    }
    Found::Unsound
}

// The record that starts at the offset, inside the used part.
pub fn find_forth(form: Form, journal: &[u8], offset: usize, end: usize) -> Found
    requires { (offset ≤ end) × (end ≤ length journal.now) }
    ensures { (w : ℕ) → result ≡ found_at offset (read_forth form w (take (end - offset) (drop offset journal.now))) }
{
    find_in(form, &journal[offset..end], offset)
}

// The record where it has n bytes.
#[tactic(auto, unfolding(journal_record::specs::Found::whole_only))]
fn whole_only(found: Found, n: usize) -> Found
    ensures { result ≡ whole_only n found }
{
    match found {
        Found::Record {
            kind: _,
            start: _,
            length,
            count: _,
        } => { if length == n { found } else { Found::Unsound } }
        Found::Unsound => Found::Unsound,
    }
}

// The record that ends at the offset: the four bytes before the offset are its length.
pub fn find_back(form: Form, journal: &[u8], offset: usize) -> Found
    requires { offset ≤ length journal.now }
    ensures { (w : ℕ) → result ≡ found_before offset (read_back form w (take offset journal.now)) }
{
    if offset < LEAST {
        return Found::Unsound;
    }
    let n = get_u32(journal, offset - 4) as usize;
    if offset < n {
        return Found::Unsound;
    }
    let start = offset - n;
    whole_only(find_in(form, &journal[start..offset], start), n)
}
