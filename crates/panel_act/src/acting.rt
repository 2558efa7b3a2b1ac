// What a frame asks of a history, done.
ghost use Rattle.std.specs.Prelude.{◌≡◌, map, length};
ghost use Rattle.base.specs.declared.Answer.TheVariants.{Refused};
ghost use Rattle.edit.specs.Change.{unpacked};
ghost use Rattle.history_ledger.specs.Journal as ledgers;
ghost use Rattle.history_model.specs.Document.{document_of};
ghost use Rattle.history_model.specs.Calls.{state_of, leaves, outcome_of};
ghost use Rattle.panel_model.specs.Acts.{Roomy, actBy};

use crate::asking::asked;
use base::{Answer, Form, Handle, Moved};
use history::{mark_saved, push, redo, undo};
use panel_frames::Frame;
use panel_model::Asked;

fn refused(no: u8, k: usize, handle: Handle) -> Moved
    ensures { (result.answer ≡ Refused no) × (result.k ≡ k) × (result.handle ≡ handle) }
{
    Moved {
        answer: Answer::Refused(no),
        k,
        handle,
    }
}

fn mark(k: usize, form: Form, journal: &[u8], handle: Handle) -> Moved
    ensures { (outcome_of result.answer result.handle ≡ ledgers.mark_of (length journal.now) handle) × (result.k ≡ k) }
{
    let m = mark_saved(form, journal, handle);
    let answer = m.answer;
    let next = m.handle;
    Moved {
        answer,
        k,
        handle: next,
    }
}

// What a frame asks of a history, in its form: a pixel frame's changes stand at the front of the list, and a merge's are
// written there. No colour list, sRGB's curve. An opening and a malformed frame are 22.
pub fn act(
    w: usize,
    h: usize,
    k: usize,
    palette: &mut [u8],
    lab: &mut [f64],
    indices: &mut [i16],
    locks: &mut [bool],
    form: Form,
    journal: &mut [u8],
    handle: Handle,
    frame: Frame,
    list: &mut [u64],
    scratch: &mut [u8],
) -> Moved
    requires { Roomy frame (length indices.old) (length list.old) }
    ensures { let document = document_of w h k palette.old lab.old indices.old locks.old in
        leaves result w h palette.new lab.new indices.new locks.new journal.new
        ≡ actBy form (length scratch.old) (state_of document journal.old handle) frame
        (map unpacked list.old) }
{
    let a = asked(w, h, k, palette, lab, indices, locks, frame, list);
    match a {
        Asked::Push { edit, n } => push(
            w,
            h,
            k,
            palette,
            lab,
            indices,
            locks,
            false,
            b"",
            false,
            &[],
            edit,
            &list[..n],
            form,
            journal,
            handle,
            scratch,
        ),
        Asked::Undo => undo(w, h, k, palette, lab, indices, locks, form, journal, handle),
        Asked::Redo => redo(
            w,
            h,
            k,
            palette,
            lab,
            indices,
            locks,
            false,
            &[],
            form,
            journal,
            handle,
            scratch,
        ),
        Asked::Mark => mark(k, form, journal, handle),
        Asked::Refused(no) => refused(no, k, handle),
    }
}
