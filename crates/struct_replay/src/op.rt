// `replay` over a list of change structs, which is read where it lies.
ghost use Rattle.std.specs.Prelude.{◌≡◌, ℕ, length};
ghost use Rattle.base.specs.Checks.{first_of};
ghost use Rattle.color_curve.specs.Curve.{curve_of, lab_by, CurveFits};
ghost use Rattle.edit.specs.Checks.{permitted_of};
ghost use Rattle.edit.specs.List.{list_of};
ghost use Rattle.edit_locks.specs.Movable.{Redoable};
ghost use Rattle.edit_list.specs.Paintable.{Paintable};
ghost use Rattle.edit_apply.specs.Redoable.{Finishable};
ghost use Rattle.struct_edit.specs.Walk.{flat_all};
ghost use Rattle.history_model.specs.Document.{document_of, document_done};
ghost use Rattle.history_model.specs.Replay.{replay_checks, replayed, replay_of};
ghost use Rattle.history_replay.specs.Steps.{done_or};

use base::{Answer, Change, Edit, Replayed};
use edit::list_of;
use history_replay::{finish_replay, left_after, open_replay};
use struct_edit::{check_list, paint_list, walked};

// The number of the first check that applies, or 0.
fn replay_no(
    w: usize,
    h: usize,
    k: usize,
    palette: &[u8],
    lab: &[f64],
    indices: &[i16],
    locks: &[bool],
    limited: bool,
    permitted: &[u8],
    loaded: bool,
    curve: &[f64],
    edit: Edit,
    list: &[Change],
    marks: &mut [u8],
) -> u8
    ensures { let document =
        document_of w h k palette.now lab.now indices.now locks.now in
        result
        ≡ first_of (replay_checks (curve_of loaded curve.now) (length marks.old) document (permitted_of limited permitted.now) edit
        (flat_all list.now)) }
{
    let n = list.len();
    let kind = list_of(edit);
    let opened = open_replay(
        w, h, k, palette, lab, indices, locks, limited, permitted, loaded, curve, edit, n, marks,
    );
    let checked = check_list(opened, kind, true, w, h, k, indices, marks, list, n);
    left_after(checked, edit, w, h, indices, marks)
}

// Does an edit that was not refused; the list of one that was is not gone through.
fn redo_list(
    no: u8,
    w: usize,
    k: usize,
    palette: &mut [u8],
    lab: &mut [f64],
    indices: &mut [i16],
    locks: &mut [bool],
    loaded: bool,
    curve: &[f64],
    edit: Edit,
    list: &[Change],
) -> Replayed
    requires { (no ≡ 0 → Paintable (list_of edit) w (length indices.old) (flat_all list.now))
        × (no ≡ 0 → Finishable k (length palette.old) (length lab.old) edit × Redoable k (length locks.old) edit
        × CurveFits (curve_of loaded curve.now)) }
    ensures { (h : ℕ)
        → replayed result.answer
        (document_of w h result.k palette.new lab.new indices.new locks.new)
        ≡ done_or no (document_of w h k palette.old lab.old indices.old locks.old)
        (document_done (lab_by (curve_of loaded curve.now))
        (document_of w h k palette.old lab.old indices.old locks.old) edit
        (flat_all list.now)) }
{
    let n = list.len();
    let kind = list_of(edit);
    let m = walked(no, n);
    paint_list(kind, indices, w, list, m);
    finish_replay(no, k, palette, lab, indices, locks, loaded, curve, edit)
}

// `history::replay`, with the palette count lent and the list as structs. The list is read where it lies; the
// scratch has at least w × h bytes, and what they are afterwards is free.
pub fn replay(
    w: usize,
    h: usize,
    k: &mut usize,
    palette: &mut [u8],
    lab: &mut [f64],
    indices: &mut [i16],
    locks: &mut [bool],
    limited: bool,
    permitted: &[u8],
    loaded: bool,
    curve: &[f64],
    edit: Edit,
    list: &[Change],
    scratch: &mut [u8],
) -> Answer
    ensures { let document =
        document_of w h k.old palette.old lab.old indices.old
        locks.old in
        (replayed result
        (document_of w h k.new palette.new lab.new indices.new locks.new)
        ≡ replay_of (curve_of loaded curve.now) (length scratch.old) document (permitted_of limited permitted.now) edit
        (flat_all list.now)) × (length scratch.new ≡ length scratch.old) }
{
    let count = *k;
    let no = replay_no(
        w, h, count, palette, lab, indices, locks, limited, permitted, loaded, curve, edit, list,
        scratch,
    );
    let s = redo_list(
        no, w, count, palette, lab, indices, locks, loaded, curve, edit, list,
    );
    *k = s.k;
    s.answer
}
