// The checks of `push`: those before its list, those of its changes, and those after the list. `begin` and `settle` do
// not see the list, so that each form of the call goes through its own between them.
#![tactic(auto)]

ghost use Rattle.std.specs.Prelude.{◌≡◌, List, ℕ, ◌*◌, ◌≤◌, length};
ghost use Rattle.base.specs.Limits.{max_changes, max_journal};
ghost use Rattle.base.specs.declared.Form.{Form};
ghost use Rattle.base.specs.Checks.{or_else, first_of};
ghost use Rattle.color_curve.specs.Curve.{curve_of};
ghost use Rattle.edit.specs.Change.{Change};
ghost use Rattle.edit.specs.List.{list_of};
ghost use Rattle.edit.specs.Checks.{left_checks};
ghost use Rattle.edit_pixels.specs.Inside.{bare};
ghost use Rattle.edit_checks.specs.Marks.{MarksFor, Checkable};
ghost use Rattle.history_model.specs.Document.{document_of};
ghost use Rattle.history_model.specs.Editing.{given_of};
ghost use Rattle.history_model.specs.Calls.{state_of};
ghost use Rattle.history_push_checks.specs.Steps.{Begun, PushNumbered, full_number};

use base::{Edit, Form, Handle, JOURNAL_FULL, LIST_TOO_LONG, MAX_CHANGES, NO_SPACE};
use edit::{is_empty, list_of};
use edit_checks::{clear_marks, head_no, left_no};
use edit_list::check_list;
use history_model::{entry_no, record_length};

// Before the list: the number of the first check that applies, or 0. A removal's marks are cleared.
pub fn begin(
    w: usize,
    h: usize,
    k: usize,
    palette: &[u8],
    lab: &[f64],
    indices: &[i16],
    locks: &[bool],
    limited: bool,
    permitted: &[u8],
    loaded: bool,
    curve: &[f64],
    edit: Edit,
    n: usize,
    journal: &[u8],
    handle: Handle,
    marks: &mut [u8],
) -> u8
    ensures { (f : Form) (list : List ℕ) → length list ≡ n → Begun f (curve_of loaded curve.now) (length marks.old)
        (state_of (document_of w h k palette.now lab.now indices.now locks.now) journal.now
        handle) (given_of limited permitted.now edit list) result marks.new }
{
    let no = entry_no(
        w, h, k, palette, lab, indices, locks, limited, permitted, loaded, curve, journal, handle,
    );
    if no != 0 {
        return no;
    }
    let kind = list_of(edit);
    if is_empty(kind, n) {
        return 0;
    }
    if MAX_CHANGES < n {
        return LIST_TOO_LONG;
    }
    let size = indices.len();
    if marks.len() < size {
        return NO_SPACE;
    }
    let head = head_no(k, palette, locks, limited, permitted, edit, false);
    if head != 0 {
        return head;
    }
    clear_marks(kind, size, marks);
    0
}

// After the list: the number so far or, where that is 0, 13 of a removal, then 14, or 0.
pub fn settle(
    no: u8,
    edit: Edit,
    n: usize,
    w: usize,
    h: usize,
    indices: &[i16],
    marks: &[u8],
    form: Form,
    size: usize,
    offset: usize,
) -> u8
    requires { (no ≡ 0 → Checkable (list_of edit) w h (length indices.now) (length marks.now))
        × (no ≡ 0 → (n ≤ max_changes) × (offset ≤ max_journal)) }
    ensures { (cs : List Change) → (no ≡ 0 → MarksFor (list_of edit) w (w * h) cs marks.now) → result
        ≡ or_else (or_else no (first_of (left_checks (bare w h 0 indices.now) (list_of edit) cs)))
        (full_number form offset edit n size) }
{
    if no != 0 {
        return no;
    }
    let kind = list_of(edit);
    let left = left_no(kind, w, h, indices, marks);
    if left != 0 {
        return left;
    }
    if is_empty(kind, n) {
        return 0;
    }
    if size < offset + record_length(form, edit, n) {
        return JOURNAL_FULL;
    }
    0
}

// The number of the first check that applies, or 0, which a push that is still has too.
pub fn push_no(
    w: usize,
    h: usize,
    k: usize,
    palette: &[u8],
    lab: &[f64],
    indices: &[i16],
    locks: &[bool],
    limited: bool,
    permitted: &[u8],
    loaded: bool,
    curve: &[f64],
    edit: Edit,
    list: &[u64],
    form: Form,
    journal: &[u8],
    handle: Handle,
    marks: &mut [u8],
) -> u8
    ensures { let document = document_of w h k palette.now lab.now indices.now locks.now in
        PushNumbered form (curve_of loaded curve.now) (length marks.old) (state_of document journal.now handle)
        (given_of limited permitted.now edit list.now) result }
{
    let n = list.len();
    let begun = begin(
        w, h, k, palette, lab, indices, locks, limited, permitted, loaded, curve, edit, n, journal,
        handle, marks,
    );
    if begun != 0 {
        return begun;
    }
    let checked = check_list(list_of(edit), false, w, h, k, indices, marks, list);
    settle(
        checked,
        edit,
        n,
        w,
        h,
        indices,
        marks,
        form,
        journal.len(),
        handle.offset,
    )
}
