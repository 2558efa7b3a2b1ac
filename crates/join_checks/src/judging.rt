// The checks of `join`, before a lent byte is written.
ghost use Rattle.std.specs.Prelude.{◌≡◌, length};
ghost use Rattle.sheet.specs.Sheet.{sheet_of};
ghost use Rattle.sheet_lent.specs.Lent.{lent_of};
ghost use Rattle.join_model.specs.Judged.{JoinJudged};

use crate::Brought;
use crate::news::find_news;
use base::{JOINED_TOO_LONG, MAX_ENTRIES};
use sheet::check_marked;
use sheet_lent::lent_no;

// The first check that applies: 1 to 3 of the first sheet, of the second, 1 of the lent ones, 27. Lists the entries of
// the second that bring a colour, where no check before 27 applies; what the list has past them keeps.
pub fn joinable(
    w: usize,
    h: usize,
    k: usize,
    palette: &[u8],
    lab: &[f64],
    indices: &[i16],
    locks: &[bool],
    w2: usize,
    h2: usize,
    k2: usize,
    palette2: &[u8],
    lab2: &[f64],
    indices2: &[i16],
    locks2: &[bool],
    to_w: usize,
    to_h: usize,
    to_palette: &[u8],
    to_lab: &[f64],
    to_indices: &[i16],
    to_locks: &[bool],
    to_w2: usize,
    to_h2: usize,
    to_palette2: &[u8],
    to_lab2: &[f64],
    to_indices2: &[i16],
    to_locks2: &[bool],
    news: &mut [usize; 255],
) -> Brought
    requires { length news.old ≡ 255 }
    ensures { let a = sheet_of w h k palette.now lab.now indices.now in
        let b = sheet_of w2 h2 k2 palette2.now lab2.now indices2.now in
        let x =
        lent_of to_w to_h to_palette.now to_lab.now to_indices.now
        to_locks.now in
        let y =
        lent_of to_w2 to_h2 to_palette2.now to_lab2.now to_indices2.now
        to_locks2.now in
        JoinJudged a locks.now b locks2.now x y news.old news.new result.no result.n }
{
    let no = check_marked(w, h, k, palette, lab, indices, locks);
    if no != 0 {
        return Brought { no, n: 0 };
    }
    let no2 = check_marked(w2, h2, k2, palette2, lab2, indices2, locks2);
    if no2 != 0 {
        return Brought { no: no2, n: 0 };
    }
    let lent = lent_no(w, h, to_w, to_h, to_palette, to_lab, to_indices, to_locks);
    if lent != 0 {
        return Brought { no: lent, n: 0 };
    }
    let lent2 = lent_no(
        w2,
        h2,
        to_w2,
        to_h2,
        to_palette2,
        to_lab2,
        to_indices2,
        to_locks2,
    );
    if lent2 != 0 {
        return Brought { no: lent2, n: 0 };
    }
    let own = 3 * k;
    let n = find_news(&palette[..own], k, palette2, k2, news);
    if MAX_ENTRIES < k + n {
        return Brought {
            no: JOINED_TOO_LONG,
            n,
        };
    }
    Brought { no: 0, n }
}
