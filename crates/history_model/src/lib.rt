// The history's edits as demand 3 has them: the algebra of document 01's sheet, edits and records, the laws that the
// ledger's theorem asks of it, and the steps that every call on a history begins with.
//
// specs/Demand3.antt states what the calls do together, for every list of them: document 01's demand 3.
#![tactic(auto)]

mod entering;
mod measure;

ghost use Rattle.std.specs.Prelude.{◌≡◌};
ghost use Rattle.base.specs.declared.Answer.TheVariants.{Still, Refused};

use base::{Answer, Handle, Moved};
pub use entering::{entry_no, handle_no, move_no};
pub use measure::record_length;

// "A refusal returns its number alone; lent memory and handle keep their bits."
pub fn refused(no: u8, k: usize, handle: Handle) -> Moved
    ensures { (result.answer ≡ Refused no) × (result.k ≡ k) × (result.handle ≡ handle) }
{
    Moved {
        answer: Answer::Refused(no),
        k,
        handle,
    }
}

pub fn still(k: usize, handle: Handle) -> Moved
    ensures { (result.answer ≡ Still) × (result.k ≡ k) × (result.handle ≡ handle) }
{
    Moved {
        answer: Answer::Still,
        k,
        handle,
    }
}
