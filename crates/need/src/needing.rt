// `journal_need`.
ghost use Rattle.std.specs.Prelude.{◌≡◌, length};
ghost use Rattle.history_model.specs.Document.{shown, document_of};
ghost use Rattle.sheet_lent.specs.Lent.{lent_of};
ghost use Rattle.need_model.specs.Need.{need_call};
ghost use Rattle.need_model.specs.Judged.{need_told};

use crate::checks::need_no;
use base::{Form, JOURNAL_FULL, Need};
use need_play::play_all;

// Plays a session, a text of lines as `panel` reads them, from a fresh history on a working sheet of the opening sheet's
// size, under sRGB's curve and with no colour list, and answers the journal length that it needs, and the palette count
// of the working sheet, which then shows what the session leads to. A journal of that length is enough, and no shorter
// one is. The numbers: 1 to 3 of the opening sheet and 1 of a journal over the limit, 1 of a working sheet of another
// size, 22 where a line is malformed or an opening, 16 where list or scratch has fewer places than the sheet, and 14
// where the lent journal is shorter than the need. What a push is refused inside the session is no refusal. Journal, list
// and scratch are free after the call, and so is the working sheet past its entries and, on a refusal, wholly.
pub fn journal_need(
    w: usize,
    h: usize,
    k: usize,
    palette: &[u8],
    lab: &[f64],
    indices: &[i16],
    locks: &[bool],
    text: &[u8],
    work_w: usize,
    work_h: usize,
    work_palette: &mut [u8],
    work_lab: &mut [f64],
    work_indices: &mut [i16],
    work_locks: &mut [bool],
    form: Form,
    journal: &mut [u8],
    list: &mut [u64],
    scratch: &mut [u8],
) -> Need
    ensures { let document = document_of w h k palette.now lab.now indices.now locks.now in
        let working =
        lent_of work_w work_h work_palette.old work_lab.old work_indices.old
        work_locks.old in
        need_told result
        (λ n. shown (document_of w h n work_palette.new work_lab.new work_indices.new
        work_locks.new))
        ≡ need_call form document text.now working (length journal.old) (length list.old)
        (length scratch.old) }
{
    let no = need_no(
        w,
        h,
        k,
        palette,
        lab,
        indices,
        locks,
        text,
        work_w,
        work_h,
        work_palette,
        work_lab,
        work_indices,
        work_locks,
        journal.len(),
        list.len(),
        scratch.len(),
    );
    if no != 0 {
        return Need::Refused(no);
    }
    work_palette.copy_from_slice(palette);
    work_lab.copy_from_slice(lab);
    work_indices.copy_from_slice(indices);
    work_locks.copy_from_slice(locks);
    let p = play_all(
        w,
        h,
        k,
        work_palette,
        work_lab,
        work_indices,
        work_locks,
        form,
        journal,
        text,
        list,
        scratch,
    );
    if p.full {
        return Need::Refused(JOURNAL_FULL);
    }
    Need::Bytes {
        need: p.need,
        k: p.k,
    }
}
