// The kind of a record, the entry that it names, and the marks of a lock.
ghost use Rattle.std.specs.Prelude.{◌≡◌, ◌+◌, ◌≤◌, ◌<◌, length, get_or};
ghost use Rattle.journal_record.specs.Record.{mark_in};

// The kinds of records but for a removal's, which is the one left.
pub const PIXELS: u8 = 1;

pub const SET: u8 = 2;

pub const ADD: u8 = 3;

pub const LOCK: u8 = 5;

// The entry that a set, a removal or a lock names.
pub fn entry_at(journal: &[u8], start: usize) -> usize
    requires { start + 2 ≤ length journal.now }
    ensures { (result ≡ get_or journal.now (start + 1) 0) × (result ≤ 255) }
{
    usize::from(journal[start + 1])
}

// The mark that stands at a place of a lock's record, where it is 0 or 1.
pub fn mark_at(journal: &[u8], at: usize) -> bool
    requires { at < length journal.now }
    ensures { result ≡ mark_in journal.now at }
{
    journal[at] == 1
}
