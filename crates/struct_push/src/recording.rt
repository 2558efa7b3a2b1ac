// `push` over a list of change structs, which is read where it lies: checked, then written into the record and
// painted, change by change.
ghost use Rattle.std.specs.Prelude.{◌≡◌, Bool, false, List, ℕ, length};
ghost use Rattle.struct_edit.specs.Walk.{packed_all, flat_all};
ghost use Rattle.history_ledger.specs.Journal.{pushOf, pushed};
ghost use Rattle.history_model.specs.Document.{document_of};
ghost use Rattle.history_model.specs.Editing.{editing_by, given_of};
ghost use Rattle.history_model.specs.Calls.{state_of, leaves, Standing, Acceptable};
ghost use Rattle.history_push_checks.specs.Steps.{is_still, pushed_or};
ghost use Rattle.color_curve.specs.Curve.{curve_of, CurveFits};
ghost use Rattle.edit.specs.List.{list_of, empty_pixels};
ghost use Rattle.struct_push.specs.Lent.{leaves_lent};

use base::{Answer, Change, Edit, Form, Handle, Moved};
use edit::list_of;
use history_push::finish;
use struct_edit::{paint_list, put_list, walked};
use struct_push_checks::push_no;

// Records and does an edit that was not refused; the list of one that was is not gone through.
fn carry_out(
    no: u8,
    w: usize,
    h: usize,
    k: usize,
    palette: &mut [u8],
    lab: &mut [f64],
    indices: &mut [i16],
    locks: &mut [bool],
    loaded: bool,
    curve: &[f64],
    edit: Edit,
    list: &[Change],
    form: Form,
    journal: &mut [u8],
    handle: Handle,
) -> Moved
    requires { (no ≡ 0 → Standing (state_of (document_of w h k palette.old lab.old indices.old locks.old) journal.old handle))
        × (no ≡ 0 → empty_pixels (list_of edit) (length (flat_all list.now)) ≡ false
        → Acceptable form (state_of (document_of w h k palette.old lab.old indices.old locks.old) journal.old handle) edit
        (flat_all list.now))
        × (no ≡ 0 → CurveFits (curve_of loaded curve.now)) }
    ensures { (limited : Bool) (permitted : List ℕ)
        → leaves result w h palette.new lab.new indices.new locks.new journal.new
        ≡ pushed_or no (is_still (given_of limited permitted edit (packed_all list.now)))
        (state_of (document_of w h k palette.old lab.old indices.old locks.old)
        journal.old handle) (pushed (editing_by form (curve_of loaded curve.now))
        (state_of (document_of w h k palette.old lab.old indices.old locks.old)
        journal.old handle) (given_of limited permitted edit (packed_all list.now))) }
{
    let n = list.len();
    let offset = handle.offset;
    let kind = list_of(edit);
    let m = walked(no, n);
    put_list(kind, form, journal, offset, indices, w, list, m);
    paint_list(kind, indices, w, list, m);
    finish(
        no, k, palette, lab, indices, locks, loaded, curve, edit, n, form, journal, handle,
    )
}

// `history::push`, with palette count and handle lent and the list as structs. The list is read where it lies;
// the scratch has at least w × h bytes, and what they are afterwards is free.
pub fn push(
    w: usize,
    h: usize,
    k: &mut usize,
    palette: &mut [u8],
    lab: &mut [f64],
    indices: &mut [i16],
    locks: &mut [bool],
    limited: bool,
    permitted: &[u8],
    loaded: bool,
    curve: &[f64],
    edit: Edit,
    list: &[Change],
    form: Form,
    journal: &mut [u8],
    handle: &mut Handle,
    scratch: &mut [u8],
) -> Answer
    ensures { let document =
        document_of w h k.old palette.old lab.old indices.old
        locks.old in
        (leaves_lent result w h k.new palette.new lab.new indices.new
        locks.new journal.new handle.new
        ≡ pushOf (editing_by form (curve_of loaded curve.now)) (length scratch.old) (state_of document journal.old handle.old)
        (given_of limited permitted.now edit (packed_all list.now)))
        × (length scratch.new ≡ length scratch.old) }
{
    let count = *k;
    let held = *handle;
    let no = push_no(
        w, h, count, palette, lab, indices, locks, limited, permitted, loaded, curve, edit, list,
        form, journal, held, scratch,
    );
    let s = carry_out(
        no, w, h, count, palette, lab, indices, locks, loaded, curve, edit, list, form, journal,
        held,
    );
    *k = s.k;
    *handle = s.handle;
    s.answer
}
