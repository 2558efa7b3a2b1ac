// The records of a history, looked at: the one that undo would revert, the one that redo would apply, and
// the applied ones, oldest first. What is read is the edit and where its changes lie; the changes stay in
// the journal. proofs/NextTold says that they are the ones that undo and redo read.
ghost use Rattle.std.specs.Prelude.{◌≡◌, ◌+◌, ◌-◌, ◌*◌, ◌≤◌, length};
ghost use Rattle.journal_record.specs.Record.{stride};
ghost use Rattle.journal_read.specs.Lies.{edit_at, Lies};
ghost use Rattle.base.specs.Answer.{next_told};
ghost use Rattle.history_queries.specs.Looks.{shows, next_undo_of, next_redo_of, shown_after, rewound, applied_of};

use base::{Form, Handle, JOURNAL_DAMAGED, Next};
use history_handle::{sound, stepped_back, stepped_forth};
use history_model::handle_no;
use journal_find::{find_back, find_forth, list_bytes};
use journal_read::edit_at;
use journal_record::Found;

// What is shown of a record of n bytes that lies in the journal.
fn record_at(form: Form, journal: &[u8], kind: u8, start: usize, n: usize, count: usize) -> Next
    requires { Lies form journal.now kind start count × (start + n ≤ length journal.now) × (4 + stride form * count ≤ n) }
    ensures { next_told result ≡ shows (edit_at journal.now kind start) start n (start + n - 4 - stride form * count) count }
{
    let edit = edit_at(journal, kind, start);
    let list = start + n - 4 - list_bytes(form, count);
    Next::Record {
        edit,
        start,
        length: n,
        list,
        count,
    }
}

// The record that undo would revert: the one that ends at the standing offset.
pub fn next_undo(form: Form, journal: &[u8], handle: Handle) -> Next
    ensures { next_told result ≡ next_undo_of form journal.now handle }
{
    let size = journal.len();
    let no = handle_no(size, handle);
    if no != 0 {
        return Next::Refused(no);
    }
    if handle.position == 0 {
        return Next::Nothing;
    }
    match find_back(form, journal, handle.offset) {
        Found::Record {
            kind,
            start,
            length,
            count,
        } => {
            if !sound(stepped_back(handle, length), size) {
                return Next::Refused(JOURNAL_DAMAGED);
            }
            record_at(form, journal, kind, start, length, count)
        }
        Found::Unsound => Next::Refused(JOURNAL_DAMAGED),
    }
}

// The record that redo would apply: the one that starts at the standing offset, inside the used part.
pub fn next_redo(form: Form, journal: &[u8], handle: Handle) -> Next
    ensures { next_told result ≡ next_redo_of form journal.now handle }
{
    let size = journal.len();
    let no = handle_no(size, handle);
    if no != 0 {
        return Next::Refused(no);
    }
    if handle.position == handle.count {
        return Next::Nothing;
    }
    match find_forth(form, journal, handle.offset, handle.end) {
        Found::Record {
            kind,
            start,
            length,
            count,
        } => {
            if !sound(stepped_forth(handle, length), size) {
                return Next::Refused(JOURNAL_DAMAGED);
            }
            record_at(form, journal, kind, start, length, count)
        }
        Found::Unsound => Next::Refused(JOURNAL_DAMAGED),
    }
}

// What `next_redo` shows after n steps forth, each over the record that it shows.
fn shown_after(form: Form, journal: &[u8], handle: Handle, n: usize) -> Next
    ensures { next_told result ≡ shown_after form journal.now n handle }
{
    let mut cursor = handle;
    for _ in 0..n {
        match next_redo(form, journal, cursor) {
            Next::Record {
                edit: _,
                start: _,
                length,
                list: _,
                count: _,
            } => cursor = stepped_forth(cursor, length),
            Next::Nothing => return Next::Nothing,
            Next::Refused(no) => return Next::Refused(no),
        }
    }
    next_redo(form, journal, cursor)
}

// The applied records as a history of their own, none of them redone.
fn rewound(handle: Handle) -> Handle
    ensures { result ≡ rewound handle }
{
    Handle {
        offset: 0,
        end: handle.offset,
        position: 0,
        count: handle.position,
        saved: 0,
    }
}

// An applied record by its number, 0 for the oldest. The journal is read from its first byte, record by record: what
// lies inside a record is never taken for one, and where one on the way is unsound the answer is 4.
pub fn applied(form: Form, journal: &[u8], handle: Handle, number: usize) -> Next
    ensures { next_told result ≡ applied_of form journal.now handle number }
{
    let no = handle_no(journal.len(), handle);
    if no != 0 {
        return Next::Refused(no);
    }
    if handle.position <= number {
        return Next::Nothing;
    }
    shown_after(form, journal, rewound(handle), number)
}
