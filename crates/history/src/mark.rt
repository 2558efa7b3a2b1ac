// The saved mark. It looks at no sheet; it is told the form as every call on a journal is (document 02, E9).
ghost use Rattle.std.specs.Prelude.{◌≡◌, length};
ghost use Rattle.history_ledger.specs.Journal.{mark_of};
ghost use Rattle.history_model.specs.Calls.{outcome_of};

use base::{Answer, Form, Handle, Marked};
use history_handle::marked;
use history_model::handle_no;

// Saves the standing position.
pub fn mark_saved(_form: Form, journal: &[u8], handle: Handle) -> Marked
    ensures { outcome_of result.answer result.handle ≡ mark_of (length journal.now) handle }
{
    let no = handle_no(journal.len(), handle);
    if no != 0 {
        return Marked {
            answer: Answer::Refused(no),
            handle,
        };
    }
    Marked {
        answer: Answer::Done,
        handle: marked(handle),
    }
}
