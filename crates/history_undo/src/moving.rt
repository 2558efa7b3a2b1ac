// `undo`: one step over the record before the standing offset. It does not write the journal.
ghost use Rattle.std.specs.Prelude.{◌≡◌, ◌<◌, leb, take};
ghost use Rattle.color_curve.specs.Curve.{srgb};
ghost use Rattle.journal_record.specs.declared.Found.TheVariants.{Record};
ghost use Rattle.journal_record.specs.Record.{read_back};
ghost use Rattle.journal_record.specs.Found.{found_before};
ghost use Rattle.history_ledger.specs.Handle.{stepped_back};
ghost use Rattle.history_ledger.specs.Journal.{stepOver, undoOf};
ghost use Rattle.history_model.specs.Document.{document_of};
ghost use Rattle.history_model.specs.Editing.{undone_by, editing, editing_by};
ghost use Rattle.history_model.specs.Calls.{state_of, leaves, Standing};

use base::{Answer, Form, Handle, JOURNAL_DAMAGED, Moved};
use history_handle::{sound, stepped_back};
use history_model::{move_no, refused, still};
use journal_find::find_back;
use journal_record::Found;
use journal_undo::{can_undo, undo_record};

// One step back over a record of n bytes that was found: where `can_revert` refuses it, the sheet would not be
// well-formed after it, or the handle not sound, the journal is damaged.
fn undo_at(
    w: usize,
    h: usize,
    k: usize,
    palette: &mut [u8],
    lab: &mut [f64],
    indices: &mut [i16],
    locks: &mut [bool],
    form: Form,
    journal: &[u8],
    handle: Handle,
    kind: u8,
    start: usize,
    n: usize,
    count: usize,
) -> Moved
    requires standing { Standing (state_of (document_of w h k palette.old lab.old indices.old locks.old) journal.now handle) }
    requires position_nonzero { 0 < handle.position }
    requires journal_value { found_before handle.offset (read_back form w (take handle.offset journal.now)) ≡ Record kind start n count }
    ensures { let document =
        document_of w h k palette.old lab.old indices.old locks.old in
        leaves result w h palette.new lab.new indices.new locks.new
        journal.now
        ≡ stepOver editing (state_of document journal.now handle)
        (undone_by document (read_back form w (take handle.offset journal.now))) (λ m. leb m handle.offset)
        stepped_back }
{
    let next = stepped_back(handle, n);
    if !sound(next, journal.len()) {
        return refused(JOURNAL_DAMAGED, k, handle);
    }
    if !can_undo(
        w, h, k, palette, lab, indices, locks, form, journal, kind, start, count,
    ) {
        return refused(JOURNAL_DAMAGED, k, handle);
    }
    let k = undo_record(
        w, h, k, palette, lab, indices, locks, form, journal, kind, start, count,
    );
    Moved {
        answer: Answer::Done,
        k,
        handle: next,
    }
}

// One step back over what the search answered.
fn undo_found(
    w: usize,
    h: usize,
    k: usize,
    palette: &mut [u8],
    lab: &mut [f64],
    indices: &mut [i16],
    locks: &mut [bool],
    form: Form,
    journal: &[u8],
    handle: Handle,
    found: Found,
) -> Moved
    requires standing { Standing (state_of (document_of w h k palette.old lab.old indices.old locks.old) journal.now handle) }
    requires position_nonzero { 0 < handle.position }
    requires found_value { found ≡ found_before handle.offset (read_back form w (take handle.offset journal.now)) }
    ensures { let document =
        document_of w h k palette.old lab.old indices.old locks.old in
        leaves result w h palette.new lab.new indices.new locks.new
        journal.now
        ≡ stepOver editing (state_of document journal.now handle)
        (undone_by document (read_back form w (take handle.offset journal.now))) (λ m. leb m handle.offset)
        stepped_back }
{
    match found {
        Found::Record {
            kind,
            start,
            length,
            count,
        } => undo_at(
            w, h, k, palette, lab, indices, locks, form, journal, handle, kind, start, length,
            count,
        ),
        Found::Unsound => refused(JOURNAL_DAMAGED, k, handle),
    }
}

// Takes back the edit whose record ends at the standing offset. At position 0 "still"; 4 where the record is not
// sound. It does not look at locks, save that the entry of a lock bears its new mark. LAB comes back from the record,
// bit for bit; an entry that comes back is not locked.
pub fn undo(
    w: usize,
    h: usize,
    k: usize,
    palette: &mut [u8],
    lab: &mut [f64],
    indices: &mut [i16],
    locks: &mut [bool],
    form: Form,
    journal: &[u8],
    handle: Handle,
) -> Moved
    ensures { let document =
        document_of w h k palette.old lab.old indices.old locks.old in
        leaves result w h palette.new lab.new indices.new locks.new
        journal.now
        ≡ undoOf (editing_by form srgb) (state_of document journal.now handle) }
{
    let no = move_no(w, h, k, palette, lab, indices, locks, journal, handle);
    if no != 0 {
        return refused(no, k, handle);
    }
    if handle.position == 0 {
        return still(k, handle);
    }
    let found = find_back(form, journal, handle.offset);
    undo_found(
        w, h, k, palette, lab, indices, locks, form, journal, handle, found,
    )
}
