// The saved mark.
ghost use Rattle.std.specs.Prelude.{◌≡◌};
ghost use Rattle.history_ledger.specs.Calls.{Call as call};
ghost use Rattle.c_model.specs.Step.{flat_of, flat_step, FlatLeaves};

use crate::settle::settle_handle;
use base::{FLAT_MISFIT, Form};
use c_bytes::{handle_misfits, sheet_misfits, take_handle};
use history::mark_saved;

// Saves the standing position. It looks at the sheet for 28 alone.
#[unsafe(no_mangle)]
pub extern "C" fn wh_mark(sheet: &[u8], journal: &[u8], handle: &mut [u8]) -> u8
    ensures { FlatLeaves result sheet.now journal.now handle.new
        (flat_step (flat_of sheet.now journal.now handle.old) call.mark) }
{
    if sheet_misfits(sheet) {
        return FLAT_MISFIT;
    }
    if handle_misfits(handle) {
        return FLAT_MISFIT;
    }
    let marked = mark_saved(Form::Coordinates, journal, take_handle(handle));
    let answer = marked.answer;
    let after = marked.handle;
    settle_handle(answer, after, handle);
    answer.number()
}
