// `join`.
ghost use Rattle.std.specs.Prelude.{◌≡◌};
ghost use Rattle.sheet.specs.Sheet.{sheet_of};
ghost use Rattle.sheet_lent.specs.Lent.{buffers_of, lent_of};
ghost use Rattle.base.specs.Answer.{joined_told};
ghost use Rattle.join_model.specs.Join.{left_as, join_of};

use base::Joined;
use history_handle::fresh;
use join_checks::joinable;
use join_palette::{put_entries, send_indices};
use sheet_lent::copy;

// Joins two sheets: the first's entries in order, then each colour of the second that is not yet there, in its order.
// An entry has LAB and lock mark of the sheet that brought it. Both outcomes are written, each to a lent sheet of its
// own, whose storage past the joined entries keeps: the first's indices as they are, each of the second's as the first
// joined entry of its colour. Answers the joined count, and a fresh handle for each. The numbers: 1 to 3 of the first,
// of the second, 1 of the lent sheets where one has another size or other storage, 27 for more than 255 entries. What
// the lent sheets held is not judged. Journals are not touched.
pub fn join(
    w: usize,
    h: usize,
    k: usize,
    palette: &[u8],
    lab: &[f64],
    indices: &[i16],
    locks: &[bool],
    w2: usize,
    h2: usize,
    k2: usize,
    palette2: &[u8],
    lab2: &[f64],
    indices2: &[i16],
    locks2: &[bool],
    to_w: usize,
    to_h: usize,
    to_palette: &mut [u8],
    to_lab: &mut [f64],
    to_indices: &mut [i16],
    to_locks: &mut [bool],
    to_w2: usize,
    to_h2: usize,
    to_palette2: &mut [u8],
    to_lab2: &mut [f64],
    to_indices2: &mut [i16],
    to_locks2: &mut [bool],
) -> Joined
    ensures { let a = sheet_of w h k palette.now lab.now indices.now in
        let b = sheet_of w2 h2 k2 palette2.now lab2.now indices2.now in
        let x =
        lent_of to_w to_h to_palette.old to_lab.old to_indices.old
        to_locks.old in
        let y =
        lent_of to_w2 to_h2 to_palette2.old to_lab2.old to_indices2.old
        to_locks2.old in
        left_as (joined_told result)
        (buffers_of to_palette.new to_lab.new to_indices.new
        to_locks.new)
        (buffers_of to_palette2.new to_lab2.new to_indices2.new
        to_locks2.new)
        ≡ join_of a locks.now b locks2.now x y }
{
    let mut news: [usize; 255] = [0; 255];
    let found = joinable(
        w,
        h,
        k,
        palette,
        lab,
        indices,
        locks,
        w2,
        h2,
        k2,
        palette2,
        lab2,
        indices2,
        locks2,
        to_w,
        to_h,
        to_palette,
        to_lab,
        to_indices,
        to_locks,
        to_w2,
        to_h2,
        to_palette2,
        to_lab2,
        to_indices2,
        to_locks2,
        &mut news,
    );
    let no = found.no;
    let n = found.n;
    if no != 0 {
        return Joined::Refused(no);
    }
    put_entries(
        k, palette, lab, locks, palette2, lab2, locks2, &news, n, to_palette, to_lab, to_locks,
    );
    put_entries(
        k,
        palette,
        lab,
        locks,
        palette2,
        lab2,
        locks2,
        &news,
        n,
        to_palette2,
        to_lab2,
        to_locks2,
    );
    copy(indices, to_indices);
    let all = k + n;
    let end = 3 * all;
    send_indices(
        &to_palette2[..end],
        all,
        palette2,
        k2,
        indices2,
        to_indices2,
    );
    Joined::Palette {
        k: all,
        first: fresh(),
        second: fresh(),
    }
}
