// `redo`: one step over the record after the standing offset. It does not write the journal.
ghost use Rattle.std.specs.Prelude.{◌≡◌, ◌+◌, ◌-◌, ◌≤◌, ◌<◌, leb, length, take, drop};
ghost use Rattle.color_curve.specs.Curve.{curve_of, lab_by, CurveFits};
ghost use Rattle.journal_record.specs.declared.Found.TheVariants.{Record};
ghost use Rattle.journal_record.specs.Record.{read_forth};
ghost use Rattle.journal_record.specs.Found.{found_at};
ghost use Rattle.history_ledger.specs.Handle.{stepped_forth};
ghost use Rattle.history_ledger.specs.Journal.{stepOver, redoOf};
ghost use Rattle.history_model.specs.Document.{document_of};
ghost use Rattle.history_model.specs.Editing.{redone_by, editing, editing_by};
ghost use Rattle.history_model.specs.Calls.{state_of, leaves, Standing};

use base::{Answer, Form, Handle, JOURNAL_DAMAGED, Moved, NO_SPACE};
use color_curve::curve_no;
use history_handle::{sound, stepped_forth};
use history_model::{move_no, refused, still};
use journal_find::find_forth;
use journal_record::Found;
use journal_redo::{can_redo, redo_record};

// One step forth over a record of n bytes that was found: where push's checks refuse it, or the handle would be unsound
// after it, the journal is damaged.
fn redo_at(
    w: usize,
    h: usize,
    k: usize,
    palette: &mut [u8],
    lab: &mut [f64],
    indices: &mut [i16],
    locks: &mut [bool],
    loaded: bool,
    curve: &[f64],
    form: Form,
    journal: &[u8],
    handle: Handle,
    kind: u8,
    start: usize,
    n: usize,
    count: usize,
    scratch: &mut [u8],
) -> Moved
    requires standing { Standing (state_of (document_of w h k palette.old lab.old indices.old locks.old) journal.now handle) }
    requires position_lt_count { (handle.position < handle.count) × (length indices.old ≤ length scratch.old) × CurveFits (curve_of loaded curve.now) }
    requires journal_value { found_at handle.offset (read_forth form w (take (handle.end - handle.offset) (drop handle.offset journal.now)))
        ≡ Record kind start n count }
    ensures { let document =
        document_of w h k palette.old lab.old indices.old locks.old in
        leaves result w h palette.new lab.new indices.new locks.new
        journal.now
        ≡ stepOver editing (state_of document journal.now handle) (redone_by (lab_by (curve_of loaded curve.now)) document
        (read_forth form w (take (handle.end - handle.offset) (drop handle.offset journal.now))))
        (λ m. leb (handle.offset + m) handle.end) stepped_forth }
{
    let next = stepped_forth(handle, n);
    if !sound(next, journal.len()) {
        return refused(JOURNAL_DAMAGED, k, handle);
    }
    if !can_redo(
        w, h, k, palette, indices, locks, form, journal, kind, start, count, scratch,
    ) {
        return refused(JOURNAL_DAMAGED, k, handle);
    }
    let k = redo_record(
        w, k, palette, lab, indices, locks, loaded, curve, form, journal, kind, start, count,
    );
    Moved {
        answer: Answer::Done,
        k,
        handle: next,
    }
}

// One step forth over what the search answered.
fn redo_found(
    w: usize,
    h: usize,
    k: usize,
    palette: &mut [u8],
    lab: &mut [f64],
    indices: &mut [i16],
    locks: &mut [bool],
    loaded: bool,
    curve: &[f64],
    form: Form,
    journal: &[u8],
    handle: Handle,
    found: Found,
    scratch: &mut [u8],
) -> Moved
    requires standing { Standing (state_of (document_of w h k palette.old lab.old indices.old locks.old) journal.now handle) }
    requires position_lt_count { (handle.position < handle.count) × (length indices.old ≤ length scratch.old) × CurveFits (curve_of loaded curve.now) }
    requires found_value { found
        ≡ found_at handle.offset
        (read_forth form w (take (handle.end - handle.offset) (drop handle.offset journal.now))) }
    ensures { let document =
        document_of w h k palette.old lab.old indices.old locks.old in
        leaves result w h palette.new lab.new indices.new locks.new
        journal.now
        ≡ stepOver editing (state_of document journal.now handle) (redone_by (lab_by (curve_of loaded curve.now)) document
        (read_forth form w (take (handle.end - handle.offset) (drop handle.offset journal.now))))
        (λ m. leb (handle.offset + m) handle.end) stepped_forth }
{
    match found {
        Found::Record {
            kind,
            start,
            length,
            count,
        } => redo_at(
            w, h, k, palette, lab, indices, locks, loaded, curve, form, journal, handle, kind,
            start, length, count, scratch,
        ),
        Found::Unsound => refused(JOURNAL_DAMAGED, k, handle),
    }
}

// Redoes the edit that the last undo took back, a colour with its LAB by the session's curve. 25 where that is none; at
// the last "still"; 16 where the scratch has fewer places than the sheet; 4 where the record is not sound, a set or a
// removal of a locked entry among these. What the scratch holds after the call is free.
pub fn redo(
    w: usize,
    h: usize,
    k: usize,
    palette: &mut [u8],
    lab: &mut [f64],
    indices: &mut [i16],
    locks: &mut [bool],
    loaded: bool,
    curve: &[f64],
    form: Form,
    journal: &[u8],
    handle: Handle,
    scratch: &mut [u8],
) -> Moved
    ensures journal_after { let document =
        document_of w h k palette.old lab.old indices.old locks.old in
        leaves result w h palette.new lab.new indices.new locks.new
        journal.now
        ≡ redoOf (editing_by form (curve_of loaded curve.now)) (length scratch.old) (state_of document journal.now handle) }
    ensures scratch_len_unchanged { length scratch.new ≡ length scratch.old }
{
    let no = move_no(w, h, k, palette, lab, indices, locks, journal, handle);
    if no != 0 {
        return refused(no, k, handle);
    }
    let unfit = curve_no(loaded, curve);
    if unfit != 0 {
        return refused(unfit, k, handle);
    }
    if handle.position == handle.count {
        return still(k, handle);
    }
    if scratch.len() < indices.len() {
        return refused(NO_SPACE, k, handle);
    }
    let found = find_forth(form, journal, handle.offset, handle.end);
    redo_found(
        w, h, k, palette, lab, indices, locks, loaded, curve, form, journal, handle, found, scratch,
    )
}
