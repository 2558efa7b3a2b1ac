// The checks before the play.
ghost use Rattle.history_model.specs.Document.{document_of};
ghost use Rattle.sheet_lent.specs.Lent.{lent_of};
ghost use Rattle.need_model.specs.Judged.{NeedJudged};

use base::{BAD_SHEET, MAX_JOURNAL, NO_SPACE, UNREAD_FRAME};
use need_lines::any_unread;
use sheet::check_marked;
use sheet_lent::lent_no;

// The number of the first check before the play that applies, or 0: 1 to 3 of the opening sheet, 1 of the working sheet, 22
// of the text, 16 of the list and of the scratch.
pub(crate) fn need_no(
    w: usize,
    h: usize,
    k: usize,
    palette: &[u8],
    lab: &[f64],
    indices: &[i16],
    locks: &[bool],
    text: &[u8],
    work_w: usize,
    work_h: usize,
    work_palette: &[u8],
    work_lab: &[f64],
    work_indices: &[i16],
    work_locks: &[bool],
    journal: usize,
    list: usize,
    scratch: usize,
) -> u8
    ensures { NeedJudged (document_of w h k palette.now lab.now indices.now locks.now)
        text.now
        (lent_of work_w work_h work_palette.now work_lab.now work_indices.now
        work_locks.now) journal list scratch result }
{
    if MAX_JOURNAL < journal {
        return BAD_SHEET;
    }
    let no = check_marked(w, h, k, palette, lab, indices, locks);
    if no != 0 {
        return no;
    }
    let lent = lent_no(
        w,
        h,
        work_w,
        work_h,
        work_palette,
        work_lab,
        work_indices,
        work_locks,
    );
    if lent != 0 {
        return lent;
    }
    if any_unread(text) {
        return UNREAD_FRAME;
    }
    let n = indices.len();
    if list < n {
        return NO_SPACE;
    }
    if scratch < n {
        return NO_SPACE;
    }
    0
}
