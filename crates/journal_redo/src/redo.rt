// An edit that lies in the journal, checked and redone from its bytes: what stands before its list, the list, and the
// rest.
ghost use Rattle.std.specs.Prelude.{◌≡◌, List, ℕ, ◌*◌, ◌≤◌, Float, length};
ghost use Rattle.color_curve.specs.Curve.{curve_of, lab_by, CurveFits};
ghost use Rattle.sheet.specs.Sheet.{sheet_of};
ghost use Rattle.edit.specs.Apply.{redone};
ghost use Rattle.edit.specs.Locks.{locks_done};
ghost use Rattle.edit_apply.specs.Redoable.{Redoable};
ghost use Rattle.journal_read.specs.Sound.{redoable};
ghost use Rattle.journal_read.specs.Lies.{edit_at, changes_at, Lies};

use base::{Form, MAX_CHANGES};
use edit::list_of;
use edit_apply::finish_edit;
use edit_checks::{clear_marks, head_no, left_no};
use edit_locks::redo_locks;
use journal_read::{check_list_in, edit_at, list_offset, paint_list_in};

// Whether redo takes the record: 21, then push's checks with every colour permitted, 24 among them. The marks are
// scratch, at least a byte a pixel.
pub fn can_redo(
    w: usize,
    h: usize,
    k: usize,
    palette: &[u8],
    indices: &[i16],
    locks: &[bool],
    form: Form,
    journal: &[u8],
    kind: u8,
    start: usize,
    count: usize,
    marks: &mut [u8],
) -> bool
    requires lies { Lies form journal.now kind start count }
    requires k_bound { (k ≤ 255) × (length palette.now ≡ 765) × (length locks.now ≡ 255) }
    requires indices_len { (length indices.now ≡ w * h) × (w * h ≤ length marks.old) }
    ensures { (lab : List Float) → result
        ≡ redoable (sheet_of w h k palette.now lab indices.now)
        locks.now (edit_at journal.now kind start)
        (changes_at form w journal.now kind start count) }
{
    if MAX_CHANGES < count {
        return false;
    }
    let edit = edit_at(journal, kind, start);
    if head_no(k, palette, locks, false, &[], edit, false) != 0 {
        return false;
    }
    let list = list_of(edit);
    let at = start + list_offset(list);
    clear_marks(list, indices.len(), marks);
    if check_list_in(list, w, h, k, indices, form, journal, at, count, marks) != 0 {
        return false;
    }
    left_no(list, w, h, indices, marks) == 0
}

// Redoes the record on a sheet of any height, with LAB by the session's curve, moves the lock marks with their entries,
// and answers the palette count after it.
pub fn redo_record(
    w: usize,
    k: usize,
    palette: &mut [u8],
    lab: &mut [f64],
    indices: &mut [i16],
    locks: &mut [bool],
    loaded: bool,
    curve: &[f64],
    form: Form,
    journal: &[u8],
    kind: u8,
    start: usize,
    count: usize,
) -> usize
    requires lies { Lies form journal.now kind start count }
    requires redoable { Redoable w k palette.old lab.old indices.old (edit_at journal.now kind start)
        (changes_at form w journal.now kind start count) }
    requires locks_len { (length locks.old ≡ 255) × CurveFits (curve_of loaded curve.now) }
    ensures by_index { (h : ℕ) → sheet_of w h result palette.new lab.new indices.new
        ≡ redone (lab_by (curve_of loaded curve.now))
        (sheet_of w h k palette.old lab.old indices.old)
        (edit_at journal.now kind start) (changes_at form w journal.now kind start count) }
    ensures locks_after { locks.new ≡ locks_done k locks.old (edit_at journal.now kind start) }
{
    let edit = edit_at(journal, kind, start);
    let list = list_of(edit);
    let at = start + list_offset(list);
    paint_list_in(list, indices, w, form, journal, at, count);
    redo_locks(k, locks, edit);
    finish_edit(k, palette, lab, indices, loaded, curve, edit)
}
