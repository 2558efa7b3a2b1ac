// Checks 1 to 4 and 25, which the calls on a history begin with.
ghost use Rattle.std.specs.Prelude.{◌≡◌, List, ℕ};
ghost use Rattle.base.specs.Checks.{first_of};
ghost use Rattle.base.specs.declared.Edit.{Edit};
ghost use Rattle.color_curve.specs.Curve.{curve_of};
ghost use Rattle.history_model.specs.Document.{document_of};
ghost use Rattle.history_model.specs.Editing.{given_of};
ghost use Rattle.history_model.specs.Calls.{state_of, handle_checks, Moves, Enters};

use base::{BAD_SHEET, Handle, JOURNAL_DAMAGED, MAX_JOURNAL};
use color_curve::curve_no;
use history_handle::sound;
use sheet::{check_marked, permitted_no};

// The number of the first of 1 and 4 that applies to a handle in a journal of so many bytes, or 0.
pub fn handle_no(size: usize, handle: Handle) -> u8
    ensures { result ≡ first_of (handle_checks size handle) }
{
    if MAX_JOURNAL < size {
        return BAD_SHEET;
    }
    if !sound(handle, size) {
        return JOURNAL_DAMAGED;
    }
    0
}

// The number of the first of 1 to 4 that applies to a sheet with its marks, a journal and a handle, or 0.
pub fn move_no(
    w: usize,
    h: usize,
    k: usize,
    palette: &[u8],
    lab: &[f64],
    indices: &[i16],
    locks: &[bool],
    journal: &[u8],
    handle: Handle,
) -> u8
    ensures { let document = document_of w h k palette.now lab.now indices.now locks.now in
        Moves (state_of document journal.now handle) result }
{
    if MAX_JOURNAL < journal.len() {
        return BAD_SHEET;
    }
    let no = check_marked(w, h, k, palette, lab, indices, locks);
    if no != 0 {
        return no;
    }
    if !sound(handle, journal.len()) {
        return JOURNAL_DAMAGED;
    }
    0
}

// The same of a push, with its permitted colours, of which a list that is too long is number 1, too, and the session's
// curve, whose 25 comes after 4.
pub fn entry_no(
    w: usize,
    h: usize,
    k: usize,
    palette: &[u8],
    lab: &[f64],
    indices: &[i16],
    locks: &[bool],
    limited: bool,
    permitted: &[u8],
    loaded: bool,
    curve: &[f64],
    journal: &[u8],
    handle: Handle,
) -> u8
    ensures { (e : Edit) (l : List ℕ) → Enters (curve_of loaded curve.now)
        (state_of (document_of w h k palette.now lab.now indices.now locks.now) journal.now
        handle) (given_of limited permitted.now e l) result }
{
    let no = permitted_no(limited, permitted);
    if no != 0 {
        return no;
    }
    let moved = move_no(w, h, k, palette, lab, indices, locks, journal, handle);
    if moved != 0 {
        return moved;
    }
    curve_no(loaded, curve)
}
