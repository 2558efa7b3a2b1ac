// Undo.
ghost use Rattle.std.specs.Prelude.{◌≡◌, false, length};
ghost use Rattle.history_ledger.specs.Calls.{Call as call};
ghost use Rattle.history_ledger.specs.Journal.{undoOf};
ghost use Rattle.history_model.specs.Calls.{state_of};
ghost use Rattle.history_model.specs.Editing.{editing};
ghost use Rattle.c_model.specs.Asked.{flat_editing};
ghost use Rattle.c_model.specs.Step.{flat_of, sheet_in, state_in, flattened, misfits, flat_step, FlatLeaves};
ghost use Rattle.c_panel.specs.Lent.{Sized, Settles, flat_moved};

use crate::settle::{settle_handle, settle_sheet};
use base::{Answer, BAD_SHEET, FLAT_MISFIT, Form, Handle, Moved};
use c_bytes::{handle_misfits, pair_at, sheet_misfits, take_handle, take_sheet};
use history::undo;

// The sheet taken apart, the core's undo, and what it leaves of the sheet put back; `indices` has a place for each
// pixel.
fn undo_sized(
    w: usize,
    h: usize,
    k: usize,
    indices: &mut [i16],
    sheet: &mut [u8],
    journal: &[u8],
    before: Handle,
) -> Moved
    requires { Sized w h k (length indices.old) sheet.old }
    ensures { Settles result sheet.old sheet.new journal.now
        (undoOf editing (state_of (sheet_in sheet.old) journal.now before)) }
{
    let mut palette = [0u8; 765];
    let mut lab = [0.0f64; 765];
    let mut locks = [false; 255];
    take_sheet(sheet, &mut palette, &mut lab, indices, &mut locks);
    let moved = undo(
        w,
        h,
        k,
        &mut palette,
        &mut lab,
        indices,
        &mut locks,
        Form::Coordinates,
        journal,
        before,
    );
    let answer = moved.answer;
    settle_sheet(answer, moved.k, &palette, &lab, indices, &locks, sheet);
    moved
}

// The same on a flat sheet and a handle that 28 does not refuse; 1 for a side over 64.
fn undo_fit(sheet: &mut [u8], journal: &[u8], handle: &mut [u8]) -> Answer
    requires { misfits (flat_of sheet.old journal.now handle.old) ≡ false }
    ensures { let lent = flat_of sheet.old journal.now handle.old in
        flat_moved result sheet.new journal.now handle.new ≡ flattened lent (undoOf flat_editing (state_in lent)) }
{
    let w = pair_at(sheet, 0);
    let h = pair_at(sheet, 2);
    let k = pair_at(sheet, 4);
    if 64 < w {
        return Answer::Refused(BAD_SHEET);
    }
    if 64 < h {
        return Answer::Refused(BAD_SHEET);
    }
    let n = w * h;
    let mut indices = [0i16; 4096];
    let before = take_handle(handle);
    let moved = undo_sized(w, h, k, &mut indices[..n], sheet, journal, before);
    let answer = moved.answer;
    let after = moved.handle;
    settle_handle(answer, after, handle);
    answer
}

// Takes back the edit whose record ends at the standing offset.
#[unsafe(no_mangle)]
pub extern "C" fn wh_undo(sheet: &mut [u8], journal: &[u8], handle: &mut [u8]) -> u8
    ensures { FlatLeaves result sheet.new journal.now handle.new
        (flat_step (flat_of sheet.old journal.now handle.old) call.undo) }
{
    if sheet_misfits(sheet) {
        return FLAT_MISFIT;
    }
    if handle_misfits(handle) {
        return FLAT_MISFIT;
    }
    let answer = undo_fit(sheet, journal, handle);
    answer.number()
}
