// The checks of `push` over a list of change structs, which is read where it lies: the number of the first that
// applies.
#![tactic(auto)]

ghost use Rattle.std.specs.Prelude.{length};
ghost use Rattle.struct_edit.specs.Walk.{packed_all};
ghost use Rattle.color_curve.specs.Curve.{curve_of};
ghost use Rattle.history_model.specs.Document.{document_of};
ghost use Rattle.history_model.specs.Editing.{given_of};
ghost use Rattle.history_model.specs.Calls.{state_of};
ghost use Rattle.history_push_checks.specs.Steps.{PushNumbered};

use base::{Change, Edit, Form, Handle};
use edit::list_of;
use history_push_checks::{begin, settle};
use struct_edit::check_list;

// The number of the first check that applies, or 0, which a push that is still has too.
pub fn push_no(
    w: usize,
    h: usize,
    k: usize,
    palette: &[u8],
    lab: &[f64],
    indices: &[i16],
    locks: &[bool],
    limited: bool,
    permitted: &[u8],
    loaded: bool,
    curve: &[f64],
    edit: Edit,
    list: &[Change],
    form: Form,
    journal: &[u8],
    handle: Handle,
    marks: &mut [u8],
) -> u8
    ensures { let document =
        document_of w h k palette.now lab.now indices.now locks.now in
        PushNumbered form (curve_of loaded curve.now) (length marks.old) (state_of document journal.now handle)
        (given_of limited permitted.now edit (packed_all list.now)) result }
{
    let n = list.len();
    let size = journal.len();
    let offset = handle.offset;
    let kind = list_of(edit);
    let begun = begin(
        w, h, k, palette, lab, indices, locks, limited, permitted, loaded, curve, edit, n, journal,
        handle, marks,
    );
    let checked = check_list(begun, kind, false, w, h, k, indices, marks, list, n);
    settle(checked, edit, n, w, h, indices, marks, form, size, offset)
}
