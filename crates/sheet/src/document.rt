// `with_lab`, `new` and `get_at` of document.rs.
ghost use Rattle.std.specs.Prelude.{◌≡◌, ◌*◌, ◌≤◌, length};
ghost use Rattle.base.specs.Answer.{got_told};
ghost use Rattle.base.specs.Answer.Told.{result as told};
ghost use Rattle.sheet.specs.Sheet.{sheet_of};
ghost use Rattle.sheet.specs.Document.{opened, with_lab_of, new_made, new_of, index_at, get_at_of};

use crate::checks::{any_stray, check, check_marked, limits_no};
use crate::labs::fill_labs;
use crate::locks::clear_locks;
use base::{Answer, BAD_SHEET, Got, MAX_ENTRIES, STRAY_INDEX, TOO_FAR, is_far, on_axis};

// Opens a sheet with LAB numbers given: checks 1 to 3, then the lock marks of the k entries are made false. Marks past
// them keep.
pub fn with_lab(
    w: usize,
    h: usize,
    k: usize,
    palette: &[u8],
    lab: &[f64],
    indices: &[i16],
    locks: &mut [bool],
) -> Answer
    ensures { (
        let sheet = sheet_of w h k palette.now lab.now indices.now in
        opened result locks.new ≡ with_lab_of sheet locks.old
        ) }
{
    let no = check_marked(w, h, k, palette, lab, indices, locks);
    if no != 0 {
        return Answer::Refused(no);
    }
    clear_locks(locks, k);
    Answer::Done
}

// A sheet from its colours: checks 1 and 2, then the LAB of the k entries is written and their lock marks are made
// false. LAB storage and marks past them keep their bits.
pub fn new(
    w: usize,
    h: usize,
    k: usize,
    palette: &[u8],
    lab: &mut [f64],
    indices: &[i16],
    locks: &mut [bool],
) -> Answer
    ensures { (
        let sheet = sheet_of w h k palette.now lab.old indices.now in
        new_made result lab.new locks.new ≡ new_of sheet locks.old
        ) }
{
    let no = limits_no(w, h, k, palette, lab, indices);
    if no != 0 {
        return Answer::Refused(no);
    }
    if locks.len() != MAX_ENTRIES {
        return Answer::Refused(BAD_SHEET);
    }
    if any_stray(indices, k) {
        return Answer::Refused(STRAY_INDEX);
    }
    fill_labs(palette, lab, k, false, &[]);
    clear_locks(locks, k);
    Answer::Done
}

// The index at a position, or that it is outside the image.
fn index_at(w: usize, h: usize, indices: &[i16], x: i32, y: i32) -> Got
    requires { (length indices.now ≡ w * h) × (w * h ≤ 1048576) }
    ensures { got_told result ≡ told (index_at w h indices.now x y) }
{
    let column = on_axis(x, w);
    let row = on_axis(y, h);
    if column < w {
        if row < h {
            return Got::Index(indices[row * w + column]);
        }
    }
    Got::Outside
}

// The index at a pointer position, or that it is outside the image.
pub fn get_at(
    w: usize,
    h: usize,
    k: usize,
    palette: &[u8],
    lab: &[f64],
    indices: &[i16],
    x: i32,
    y: i32,
) -> Got
    ensures { (
        let sheet = sheet_of w h k palette.now lab.now indices.now in
        got_told result ≡ get_at_of sheet x y
        ) }
{
    let no = check(w, h, k, palette, lab, indices);
    if no != 0 {
        return Got::Refused(no);
    }
    if is_far(x) {
        return Got::Refused(TOO_FAR);
    }
    if is_far(y) {
        return Got::Refused(TOO_FAR);
    }
    index_at(w, h, indices, x, y)
}
