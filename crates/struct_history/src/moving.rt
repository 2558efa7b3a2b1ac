// `undo`, `redo` and `mark_saved` with the handle lent.
ghost use Rattle.std.specs.Prelude.{◌≡◌, length};
ghost use Rattle.color_curve.specs.Curve.{curve_of, srgb};
ghost use Rattle.history_ledger.specs.Journal.{undoOf, redoOf, mark_of};
ghost use Rattle.history_model.specs.Document.{document_of};
ghost use Rattle.history_model.specs.Editing.{editing_by};
ghost use Rattle.history_model.specs.Calls.{state_of};
ghost use Rattle.history_model.specs.Calls.{outcome_of};
ghost use Rattle.struct_push.specs.Lent.{leaves_lent};

use base::{Answer, Form, Handle};

// `history::undo`, with palette count and handle lent.
pub fn undo(
    w: usize,
    h: usize,
    k: &mut usize,
    palette: &mut [u8],
    lab: &mut [f64],
    indices: &mut [i16],
    locks: &mut [bool],
    form: Form,
    journal: &[u8],
    handle: &mut Handle,
) -> Answer
    ensures { let document =
        document_of w h k.old palette.old lab.old indices.old
        locks.old in
        leaves_lent result w h k.new palette.new lab.new indices.new
        locks.new journal.now handle.new
        ≡ undoOf (editing_by form srgb) (state_of document journal.now handle.old) }
{
    let undone = history::undo(
        w, h, *k, palette, lab, indices, locks, form, journal, *handle,
    );
    *k = undone.k;
    *handle = undone.handle;
    undone.answer
}

// `history::redo`, with palette count and handle lent.
pub fn redo(
    w: usize,
    h: usize,
    k: &mut usize,
    palette: &mut [u8],
    lab: &mut [f64],
    indices: &mut [i16],
    locks: &mut [bool],
    loaded: bool,
    curve: &[f64],
    form: Form,
    journal: &[u8],
    handle: &mut Handle,
    scratch: &mut [u8],
) -> Answer
    ensures { let document =
        document_of w h k.old palette.old lab.old indices.old
        locks.old in
        (leaves_lent result w h k.new palette.new lab.new indices.new
        locks.new journal.now handle.new
        ≡ redoOf (editing_by form (curve_of loaded curve.now)) (length scratch.old) (state_of document journal.now handle.old))
        × (length scratch.new ≡ length scratch.old) }
{
    let redone = history::redo(
        w, h, *k, palette, lab, indices, locks, loaded, curve, form, journal, *handle, scratch,
    );
    *k = redone.k;
    *handle = redone.handle;
    redone.answer
}

// `history::mark_saved`, with the handle lent.
pub fn mark_saved(form: Form, journal: &[u8], handle: &mut Handle) -> Answer
    ensures { outcome_of result handle.new ≡ mark_of (length journal.now) handle.old }
{
    let marked = history::mark_saved(form, journal, *handle);
    *handle = marked.handle;
    marked.answer
}
