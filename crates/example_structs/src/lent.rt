// The calls over structs, as a maker makes them: the list of changes is a local array of structs, palette count and
// handle are locals, and all three are lent.
ghost use Rattle.std.specs.Prelude.{◌≡◌, false, pos, length, replicate};
ghost use Rattle.color_curve.specs.Curve.{curve_of, srgb};
ghost use Rattle.sheet.specs.Sheet.{sheet_of};
ghost use Rattle.change_list.specs.Listed.{count_of};
ghost use Rattle.tool_draw.specs.Calls.{pencil_call};
ghost use Rattle.struct_edit.specs.Walk.{packed_all};
ghost use Rattle.history_ledger.specs.Journal.{pushOf, undoOf, redoOf, mark_of};
ghost use Rattle.history_model.specs.Document.{document_of};
ghost use Rattle.history_model.specs.Editing.{editing_by, given_of};
ghost use Rattle.history_model.specs.Calls.{state_of, leaves};
ghost use Rattle.example_structs.specs.Lent.{moved_of, blanks, changes_of, no_change};

use base::{Answer, Change, Counted, Edit, Form, Handle, Moved};
use editor::structs::{mark_saved, pencil, push, redo, undo};
use selection::Area;

// Room for a list of changes, a place a pixel.
fn blank() -> [Change; 24]
    ensures { result ≡ replicate 24 no_change }
{
    let none = Change {
        x: 0,
        y: 0,
        old: 0,
        new: 0,
    };
    [none; 24]
}

// How many changes a tool drew, none where it refused.
fn count(drawn: Counted) -> usize
    ensures { result ≡ count_of drawn }
{
    match drawn {
        Counted::Count(n) => n,
        Counted::Refused(_) => 0,
    }
}

// What a step leaves, as one value.
fn moved(answer: Answer, k: usize, handle: Handle) -> Moved
    ensures { result ≡ moved_of answer k handle }
{
    Moved { answer, k, handle }
}

// A list of changes made a step of the history.
fn recorded(
    k: usize,
    palette: &mut [u8],
    lab: &mut [f64],
    indices: &mut [i16],
    locks: &mut [bool],
    permitted: &[u8],
    curve: &[f64],
    edit: Edit,
    list: &[Change],
    form: Form,
    journal: &mut [u8],
    handle: Handle,
    marks: &mut [u8],
) -> Moved
    ensures { let document =
        document_of 6 4 k palette.old lab.old indices.old locks.old in
        leaves result 6 4 palette.new lab.new indices.new locks.new
        journal.new
        ≡ pushOf (editing_by form (curve_of false curve.now)) (length marks.old) (state_of document journal.old handle)
        (given_of false permitted.now edit (packed_all list.now)) }
{
    let mut colors = k;
    let mut held = handle;
    let answer = push(
        6,
        4,
        &mut colors,
        palette,
        lab,
        indices,
        locks,
        false,
        permitted,
        false,
        curve,
        edit,
        list,
        form,
        journal,
        &mut held,
        marks,
    );
    moved(answer, colors, held)
}

// A drag along points, with a brush of one pixel and entry 1, made a step of the history.
pub(crate) fn stroke(
    k: usize,
    palette: &mut [u8],
    lab: &mut [f64],
    indices: &mut [i16],
    locks: &mut [bool],
    area: Area,
    points: &[i32],
    scratch: &mut [u64],
    permitted: &[u8],
    curve: &[f64],
    edit: Edit,
    form: Form,
    journal: &mut [u8],
    handle: Handle,
    marks: &mut [u8],
) -> Moved
    ensures { let sheet = sheet_of 6 4 k palette.old lab.old indices.old in
        let document =
        document_of 6 4 k palette.old lab.old indices.old locks.old in
        let drawn = pencil_call sheet area points.now 1 (pos 1) (length scratch.old) blanks in
        leaves result 6 4 palette.new lab.new indices.new locks.new
        journal.new
        ≡ pushOf (editing_by form (curve_of false curve.now)) (length marks.old) (state_of document journal.old handle)
        (given_of false permitted.now edit (changes_of drawn)) }
{
    let mut list = blank();
    let drawn = pencil(
        6, 4, k, palette, lab, indices, area, points, 1, 1, scratch, &mut list,
    );
    let n = count(drawn);
    recorded(
        k,
        palette,
        lab,
        indices,
        locks,
        permitted,
        curve,
        edit,
        &list[..n],
        form,
        journal,
        handle,
        marks,
    )
}

// The last step taken back.
pub(crate) fn undone(
    k: usize,
    palette: &mut [u8],
    lab: &mut [f64],
    indices: &mut [i16],
    locks: &mut [bool],
    form: Form,
    journal: &[u8],
    handle: Handle,
) -> Moved
    ensures { let document =
        document_of 6 4 k palette.old lab.old indices.old locks.old in
        leaves result 6 4 palette.new lab.new indices.new locks.new
        journal.now
        ≡ undoOf (editing_by form srgb) (state_of document journal.now handle) }
{
    let mut colors = k;
    let mut held = handle;
    let answer = undo(
        6,
        4,
        &mut colors,
        palette,
        lab,
        indices,
        locks,
        form,
        journal,
        &mut held,
    );
    moved(answer, colors, held)
}

// The step that was taken back, done again.
pub(crate) fn redone(
    k: usize,
    palette: &mut [u8],
    lab: &mut [f64],
    indices: &mut [i16],
    locks: &mut [bool],
    curve: &[f64],
    form: Form,
    journal: &[u8],
    handle: Handle,
    marks: &mut [u8],
) -> Moved
    ensures { let document =
        document_of 6 4 k palette.old lab.old indices.old locks.old in
        leaves result 6 4 palette.new lab.new indices.new locks.new
        journal.now
        ≡ redoOf (editing_by form (curve_of false curve.now)) (length marks.old) (state_of document journal.now handle) }
{
    let mut colors = k;
    let mut held = handle;
    let answer = redo(
        6,
        4,
        &mut colors,
        palette,
        lab,
        indices,
        locks,
        false,
        curve,
        form,
        journal,
        &mut held,
        marks,
    );
    moved(answer, colors, held)
}

// The handle once the sheet as it is now is the one that was saved.
pub(crate) fn saved(form: Form, journal: &[u8], handle: Handle) -> Handle
    ensures { result ≡ (mark_of (length journal.now) handle).leaves }
{
    let mut held = handle;
    let answer = mark_saved(form, journal, &mut held);
    held
}
