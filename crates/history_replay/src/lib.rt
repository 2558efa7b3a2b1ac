// `replay` of op.rs: an edit done to a sheet apart from any history, where the sheet is as the edit says that it was.
// The steps before the list, and after it, do not see the list, so that each form of the call goes through its own
// between them.
#![tactic(auto)]

ghost use Rattle.std.specs.Prelude.{◌≡◌, List, map, ℕ, ◌*◌, length};
ghost use Rattle.base.specs.Checks.{or_else, first_of};
ghost use Rattle.color_curve.specs.Curve.{curve_of, lab_by, CurveFits};
ghost use Rattle.edit.specs.Change.{Change, unpacked};
ghost use Rattle.edit.specs.List.{list_of};
ghost use Rattle.edit.specs.Checks.{permitted_of, left_checks};
ghost use Rattle.edit_pixels.specs.Inside.{bare};
ghost use Rattle.edit_checks.specs.Marks.{MarksFor, Checkable};
ghost use Rattle.edit_locks.specs.Movable.{Redoable};
ghost use Rattle.edit_apply.specs.Redoable.{Finishable};
ghost use Rattle.history_model.specs.Document.{document_of, document_rest};
ghost use Rattle.history_model.specs.Replay.{replay_checks, replayed, replay_of};
ghost use Rattle.history_replay.specs.Steps.{ReplayBegun, done_or};

use base::{Answer, Edit, LIST_TOO_LONG, MAX_CHANGES, NO_SPACE, Replayed};
use color_curve::curve_no;
use edit::list_of;
use edit_apply::finish_edit;
use edit_checks::{clear_marks, head_no, left_no};
use edit_list::{check_list, paint_list};
use edit_locks::redo_locks;
use sheet::{check_marked, permitted_no};

// Before the list: the number of the first check that applies, or 0. A removal's marks are cleared.
pub fn open_replay(
    w: usize,
    h: usize,
    k: usize,
    palette: &[u8],
    lab: &[f64],
    indices: &[i16],
    locks: &[bool],
    limited: bool,
    permitted: &[u8],
    loaded: bool,
    curve: &[f64],
    edit: Edit,
    n: usize,
    marks: &mut [u8],
) -> u8
    ensures { (cs : List Change) → length cs ≡ n → ReplayBegun (curve_of loaded curve.now) (length marks.old)
        (document_of w h k palette.now lab.now indices.now locks.now)
        (permitted_of limited permitted.now) edit cs result marks.new }
{
    let given = permitted_no(limited, permitted);
    if given != 0 {
        return given;
    }
    let no = check_marked(w, h, k, palette, lab, indices, locks);
    if no != 0 {
        return no;
    }
    let unfit = curve_no(loaded, curve);
    if unfit != 0 {
        return unfit;
    }
    if MAX_CHANGES < n {
        return LIST_TOO_LONG;
    }
    let size = indices.len();
    if marks.len() < size {
        return NO_SPACE;
    }
    let head = head_no(k, palette, locks, limited, permitted, edit, true);
    if head != 0 {
        return head;
    }
    clear_marks(list_of(edit), size, marks);
    0
}

// After the list: the number so far or, where that is 0, 13 of a removal that leaves a pixel of its entry, or 0.
pub fn left_after(no: u8, edit: Edit, w: usize, h: usize, indices: &[i16], marks: &[u8]) -> u8
    requires { no ≡ 0 → Checkable (list_of edit) w h (length indices.now) (length marks.now) }
    ensures { (cs : List Change) → (no ≡ 0 → MarksFor (list_of edit) w (w * h) cs marks.now)
        → result ≡ or_else no (first_of (left_checks (bare w h 0 indices.now) (list_of edit) cs)) }
{
    if no != 0 {
        return no;
    }
    left_no(list_of(edit), w, h, indices, marks)
}

// What an edit does beside its list, where it was not refused. The marks are moved with their entries.
pub fn finish_replay(
    no: u8,
    k: usize,
    palette: &mut [u8],
    lab: &mut [f64],
    indices: &mut [i16],
    locks: &mut [bool],
    loaded: bool,
    curve: &[f64],
    edit: Edit,
) -> Replayed
    requires { no ≡ 0 → Finishable k (length palette.old) (length lab.old) edit × Redoable k (length locks.old) edit
        × CurveFits (curve_of loaded curve.now) }
    ensures { (w h : ℕ)
        → replayed result.answer (document_of w h result.k palette.new lab.new indices.new locks.new)
        ≡ done_or no (document_of w h k palette.old lab.old indices.old locks.old)
        (document_rest (lab_by (curve_of loaded curve.now))
        (document_of w h k palette.old lab.old indices.old locks.old) edit) }
{
    if no != 0 {
        return Replayed {
            answer: Answer::Refused(no),
            k,
        };
    }
    redo_locks(k, locks, edit);
    let after = finish_edit(k, palette, lab, indices, loaded, curve, edit);
    Replayed {
        answer: Answer::Done,
        k: after,
    }
}

// The number of the first check that applies, or 0.
fn replay_no(
    w: usize,
    h: usize,
    k: usize,
    palette: &[u8],
    lab: &[f64],
    indices: &[i16],
    locks: &[bool],
    limited: bool,
    permitted: &[u8],
    loaded: bool,
    curve: &[f64],
    edit: Edit,
    list: &[u64],
    scratch: &mut [u8],
) -> u8
    ensures { let document = document_of w h k palette.now lab.now indices.now locks.now in
        result
        ≡ first_of
        (replay_checks (curve_of loaded curve.now) (length scratch.old) document (permitted_of limited permitted.now) edit
        (map unpacked list.now)) }
{
    let n = list.len();
    let opened = open_replay(
        w, h, k, palette, lab, indices, locks, limited, permitted, loaded, curve, edit, n, scratch,
    );
    if opened != 0 {
        return opened;
    }
    let checked = check_list(list_of(edit), true, w, h, k, indices, scratch, list);
    left_after(checked, edit, w, h, indices, scratch)
}

// Does an edit whose old values are the sheet's, and answers the palette count after it. LAB is worked out
// from the colour by the session's curve; 25, where that is none, comes after 3. The scratch has at least w × h bytes; what they are afterwards is free.
pub fn replay(
    w: usize,
    h: usize,
    k: usize,
    palette: &mut [u8],
    lab: &mut [f64],
    indices: &mut [i16],
    locks: &mut [bool],
    limited: bool,
    permitted: &[u8],
    loaded: bool,
    curve: &[f64],
    edit: Edit,
    list: &[u64],
    scratch: &mut [u8],
) -> Replayed
    ensures locks_after { let document = document_of w h k palette.old lab.old indices.old locks.old in
        replayed result.answer (document_of w h result.k palette.new lab.new indices.new locks.new)
        ≡ replay_of (curve_of loaded curve.now) (length scratch.old) document (permitted_of limited permitted.now) edit
        (map unpacked list.now) }
    ensures scratch_len_unchanged { length scratch.new ≡ length scratch.old }
{
    let no = replay_no(
        w, h, k, palette, lab, indices, locks, limited, permitted, loaded, curve, edit, list,
        scratch,
    );
    if no != 0 {
        return Replayed {
            answer: Answer::Refused(no),
            k,
        };
    }
    paint_list(list_of(edit), indices, w, list);
    finish_replay(no, k, palette, lab, indices, locks, loaded, curve, edit)
}
