// What a maker asks of a handle. Each call looks at the journal's length and the handle, at no sheet; it is told the form
// as every call on a journal is (document 02, E9).
ghost use Rattle.std.specs.Prelude.{◌≡◌, length};
ghost use Rattle.base.specs.Answer.{truth_told};
ghost use Rattle.history_ledger.specs.Handle.{dirty};
ghost use Rattle.history_queries.specs.Looks.{asked, undo_left, redo_left};

use base::{Form, Handle, Truth};
use history_model::handle_no;

// What a question about a sound handle answers, or the number of the first of 1 and 4 that applies.
fn ask(size: usize, handle: Handle, truth: bool) -> Truth
    ensures { truth_told result ≡ asked size handle truth }
{
    let no = handle_no(size, handle);
    if no != 0 {
        return Truth::Refused(no);
    }
    Truth::Is(truth)
}

// Whether the sheet differs from its last saved state, as far as the history tells.
pub fn is_dirty(_form: Form, journal: &[u8], handle: Handle) -> Truth
    ensures { truth_told result ≡ asked (length journal.now) handle (dirty handle) }
{
    ask(journal.len(), handle, history_handle::is_dirty(handle))
}

// Whether there is a record to undo.
pub fn can_undo(_form: Form, journal: &[u8], handle: Handle) -> Truth
    ensures { truth_told result ≡ asked (length journal.now) handle (undo_left handle) }
{
    ask(journal.len(), handle, handle.position != 0)
}

// Whether there is a record to redo.
pub fn can_redo(_form: Form, journal: &[u8], handle: Handle) -> Truth
    ensures { truth_told result ≡ asked (length journal.now) handle (redo_left handle) }
{
    ask(journal.len(), handle, handle.position != handle.count)
}
