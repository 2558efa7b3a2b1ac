// What a call of the core leaves, in flat form.
ghost use Rattle.std.specs.Prelude.{◌≡◌, ℕ, length};
ghost use Rattle.base.specs.Answer.{answer_told};
ghost use Rattle.history_ledger.specs.Tally.{is_done};
ghost use Rattle.history_model.specs.Document.{document_of};
ghost use Rattle.c_form.specs.Flat.{flat_length};
ghost use Rattle.c_model.specs.Step.{handle_left};
ghost use Rattle.c_panel.specs.Lent.{Apart, sheet_left};

use base::{Answer, Handle};
use c_bytes::{put_handle, put_sheet};

// Whether the answer is "done".
fn is_done(answer: Answer) -> bool
    ensures { result ≡ is_done (answer_told answer) }
{
    matches!(answer, Answer::Done)
}

// Where the answer is "done", the handle is written over its bytes; else they keep.
#[tactic(auto, unfolding(c_model::specs::Step::handle_left))]
pub(crate) fn settle_handle(answer: Answer, after: Handle, handle: &mut [u8])
    requires { length handle.old ≡ 40 }
    ensures { handle.new ≡ handle_left handle.old (answer_told answer) after }
{
    if is_done(answer) {
        put_handle(handle, after);
    }
}

// The same of a sheet.
#[tactic(auto, unfolding(crate::specs::Lent::sheet_left))]
pub(crate) fn settle_sheet(
    answer: Answer,
    k: usize,
    palette: &[u8],
    lab: &[f64],
    indices: &[i16],
    locks: &[bool],
    sheet: &mut [u8],
)
    requires { Apart (length palette.now) (length lab.now) (length locks.now)
        × (length sheet.old ≡ flat_length (length indices.now)) }
    ensures { (w h : ℕ) → sheet.new ≡ sheet_left sheet.old (answer_told answer)
        (document_of w h k palette.now lab.now indices.now locks.now) }
{
    if is_done(answer) {
        put_sheet(sheet, k, palette, lab, indices, locks);
    }
}
