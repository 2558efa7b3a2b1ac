// `push`: an edit checked, recorded and done. `finish` does not see the list, so that each form of the call writes and
// paints its own before it.
ghost use Rattle.std.specs.Prelude.{◌≡◌, Bool, false, List, map, ℕ, length};
ghost use Rattle.color_curve.specs.Curve.{curve_of, lab_by, CurveFits};
ghost use Rattle.edit.specs.Change.{unpacked};
ghost use Rattle.edit.specs.List.{list_of, empty_pixels};
ghost use Rattle.history_ledger.specs.Journal.{pushOf, pushed};
ghost use Rattle.history_model.specs.Document.{document_of};
ghost use Rattle.history_model.specs.Editing.{editing_by, given_of};
ghost use Rattle.history_model.specs.Calls.{state_of, leaves, Standing, Acceptable};
ghost use Rattle.history_push_checks.specs.Steps.{is_still, pushed_or};
ghost use Rattle.history_push.specs.Finish.{finished, Finishes};

use base::{Answer, Edit, Form, Handle, Moved};
use edit::{is_empty, list_of};
use edit_apply::{fill_edit, finish_edit};
use edit_list::paint_list;
use edit_locks::redo_locks;
use history_handle::after_push;
use history_model::{record_length, refused, still};
use history_push_checks::push_no;
use journal_frame::write_around;
use journal_write::put_list;

// What a push does beside its list, where it was not refused: the record is written around the changes into the
// part of the journal that starts at the standing offset, the marks are moved with their entries, the edit is done, and
// the handle moved.
pub fn finish(
    no: u8,
    k: usize,
    palette: &mut [u8],
    lab: &mut [f64],
    indices: &mut [i16],
    locks: &mut [bool],
    loaded: bool,
    curve: &[f64],
    edit: Edit,
    n: usize,
    form: Form,
    journal: &mut [u8],
    handle: Handle,
) -> Moved
    requires { (no ≡ 0 → empty_pixels (list_of edit) n ≡ false
        → Finishes form k palette.old lab.old locks.old journal.old handle edit n)
        × (no ≡ 0 → CurveFits (curve_of loaded curve.now)) }
    ensures { (w h : ℕ) → leaves result w h palette.new lab.new indices.new locks.new journal.new
        ≡ pushed_or no (empty_pixels (list_of edit) n)
        (state_of (document_of w h k palette.old lab.old indices.old locks.old)
        journal.old handle) (finished form (lab_by (curve_of loaded curve.now))
        (state_of (document_of w h k palette.old lab.old indices.old locks.old)
        journal.old handle) edit n) }
{
    if no != 0 {
        return refused(no, k, handle);
    }
    if is_empty(list_of(edit), n) {
        return still(k, handle);
    }
    let offset = handle.offset;
    let filled = fill_edit(palette, lab, locks, edit);
    write_around(form, &mut journal[offset..], filled, n);
    redo_locks(k, locks, edit);
    let after = finish_edit(k, palette, lab, indices, loaded, curve, edit);
    Moved {
        answer: Answer::Done,
        k: after,
        handle: after_push(handle, record_length(form, edit, n)),
    }
}

// An edit that no check refuses, recorded and done: its list is written into the part of the journal that starts at
// the standing offset and painted, then comes the rest.
fn carry_out(
    w: usize,
    h: usize,
    k: usize,
    palette: &mut [u8],
    lab: &mut [f64],
    indices: &mut [i16],
    locks: &mut [bool],
    loaded: bool,
    curve: &[f64],
    edit: Edit,
    list: &[u64],
    form: Form,
    journal: &mut [u8],
    handle: Handle,
) -> Moved
    requires standing { Standing (state_of (document_of w h k palette.old lab.old indices.old locks.old) journal.old handle) }
    requires acceptable { empty_pixels (list_of edit) (length (map unpacked list.now)) ≡ false
        → Acceptable form (state_of (document_of w h k palette.old lab.old indices.old locks.old) journal.old handle) edit
        (map unpacked list.now) }
    requires curve_fits { CurveFits (curve_of loaded curve.now) }
    ensures { (limited : Bool) (permitted : List ℕ)
        → leaves result w h palette.new lab.new indices.new locks.new journal.new
        ≡ pushed_or 0 (is_still (given_of limited permitted edit list.now))
        (state_of (document_of w h k palette.old lab.old indices.old locks.old)
        journal.old handle) (pushed (editing_by form (curve_of loaded curve.now))
        (state_of (document_of w h k palette.old lab.old indices.old locks.old)
        journal.old handle) (given_of limited permitted edit list.now)) }
{
    let kind = list_of(edit);
    let start = handle.offset;
    put_list(kind, form, &mut journal[start..], indices, w, list);
    paint_list(kind, indices, w, list);
    finish(
        0,
        k,
        palette,
        lab,
        indices,
        locks,
        loaded,
        curve,
        edit,
        list.len(),
        form,
        journal,
        handle,
    )
}

// Checks an edit, records it and does it. A removal repaints its list, lowers the indices above the entry and
// closes the gap, in the marks too; the olds, LAB and the old mark go from the sheet into the record. A new colour gets
// its LAB by the session's curve. The list is only read. What the scratch holds after the call is free.
pub fn push(
    w: usize,
    h: usize,
    k: usize,
    palette: &mut [u8],
    lab: &mut [f64],
    indices: &mut [i16],
    locks: &mut [bool],
    limited: bool,
    permitted: &[u8],
    loaded: bool,
    curve: &[f64],
    edit: Edit,
    list: &[u64],
    form: Form,
    journal: &mut [u8],
    handle: Handle,
    scratch: &mut [u8],
) -> Moved
    ensures journal_after { let document = document_of w h k palette.old lab.old indices.old locks.old in
        leaves result w h palette.new lab.new indices.new locks.new journal.new
        ≡ pushOf (editing_by form (curve_of loaded curve.now)) (length scratch.old) (state_of document journal.old handle)
        (given_of limited permitted.now edit list.now) }
    ensures scratch_len_unchanged { length scratch.new ≡ length scratch.old }
{
    let no = push_no(
        w, h, k, palette, lab, indices, locks, limited, permitted, loaded, curve, edit, list, form,
        journal, handle, scratch,
    );
    if no != 0 {
        return refused(no, k, handle);
    }
    carry_out(
        w, h, k, palette, lab, indices, locks, loaded, curve, edit, list, form, journal, handle,
    )
}
