// The lines of a text played one after the other.
ghost use Rattle.std.specs.Prelude.{◌≡◌, length};
ghost use Rattle.base.specs.Answer.{answer_told};
ghost use Rattle.history_ledger.specs.Demand.{is_full};
ghost use Rattle.history_model.specs.Document.{shown, document_of};
ghost use Rattle.need_play.specs.Session.{Counted, Playable};

use crate::line::play_line;
use base::{Answer, Form, JOURNAL_FULL};
use history_handle::fresh;
use need_lines::{line_end, next_line};

// What a session came to: whether a push was answered "journal full", which ends it, the palette count, and the farthest
// that the end offset got.
#[derive(Clone, Copy)]
pub struct Played {
    pub full: bool,
    pub k: usize,
    pub need: usize,
}

// Whether an answer is "journal full".
fn is_full(a: Answer) -> bool
    ensures { result ≡ is_full (answer_told a) }
{
    match a {
        Answer::Done => false,
        Answer::Still => false,
        Answer::Refused(n) => n == JOURNAL_FULL,
    }
}

// Plays the lines of a text from a fresh history, to the end or to the first push that is answered "journal full". The
// journal, the list and the scratch are free after it, and so is the sheet past its entries.
pub fn play_all(
    w: usize,
    h: usize,
    k: usize,
    palette: &mut [u8],
    lab: &mut [f64],
    indices: &mut [i16],
    locks: &mut [bool],
    form: Form,
    journal: &mut [u8],
    text: &[u8],
    list: &mut [u64],
    scratch: &mut [u8],
) -> Played
    requires { let document = document_of w h k palette.old lab.old indices.old locks.old in
        Playable document (length journal.old) (length list.old) (length scratch.old) }
    ensures { let document = document_of w h k palette.old lab.old indices.old locks.old in
        let after =
        document_of w h result.k palette.new lab.new indices.new locks.new in
        Counted form document text.now (length journal.old) result.full result.need (shown after) }
{
    let mut at = 0;
    let mut count = k;
    let mut handle = fresh();
    let mut need: usize = 0;
    while at < text.len() {
        let end = line_end(text, at);
        let m = play_line(
            w,
            h,
            count,
            palette,
            lab,
            indices,
            locks,
            form,
            journal,
            handle,
            &text[at..end],
            list,
            scratch,
        );
        if is_full(m.answer) {
            return Played {
                full: true,
                k: count,
                need,
            };
        }
        count = m.k;
        handle = m.handle;
        need = need.max(handle.end);
        at = next_line(text, end);
    }
    Played {
        full: false,
        k: count,
        need,
    }
}
