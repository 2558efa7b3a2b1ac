// A change as it lies in the journal, read as one number of 64 bits, and what is asked of it. A place is handed out as
// column and row in rows of 65,536, and is not divided by the sheet's width: what paints, marks or checks by places is
// told that width.
ghost use Rattle.std.specs.Prelude.{◌≡◌, false, List, ℕ, ◌+◌, ◌*◌, ◌^◌, ◌<◌, ◌≤◌, ℤ, length, set};
ghost use Rattle.base.specs.Checks.{first_of};
ghost use Rattle.base.specs.declared.Form.TheVariants.{Places};
ghost use Rattle.edit.specs.Change.{place, outside};
ghost use Rattle.edit.specs.Checks.{pixel_checks, remap_checks};
ghost use Rattle.edit_pixels.specs.Inside.{bare};
ghost use Rattle.edit_remap.specs.Marked.{when_none};
ghost use Rattle.journal_record.specs.Record.{stride, change_in};
ghost use Rattle.journal_read.specs.Number.{change_of, row_width};

use base::{Form, NO_SUCH_INDEX, OFF_THE_SHEET};
use edit::{NEW, OLD};
use edit_pixels::{is_outside, is_stray, new_of, place_of};
use edit_remap::mark_inside;
use journal_bytes::{get_u16, get_u24, get_u64};
use journal_find::list_bytes;

// The width of the rows of places.
const ROW: usize = edit::ROW as usize;

// The change in the 7 bytes from `at` on: "place y × w + x in three bytes, then old and new in two each".
fn placed_at(journal: &[u8], at: usize) -> u64
    requires { at + 7 ≤ length journal.now }
    ensures { (w : ℕ) → change_of Places w result ≡ change_in Places w journal.now at }
{
    let p = u64::from(get_u24(journal, at));
    let old = u64::from(get_u16(journal, at + 3));
    let new = u64::from(get_u16(journal, at + 5));
    p + OLD * old + NEW * new
}

// Change i of the list from `at` on.
pub fn change_at(form: Form, journal: &[u8], at: usize, i: usize) -> u64
    requires { at + stride form * i + stride form ≤ length journal.now }
    ensures { (w : ℕ) → change_of form w result ≡ change_in form w journal.now (at + stride form * i) }
{
    let from = at + list_bytes(form, i);
    match form {
        Form::Coordinates => get_u64(journal, from),
        Form::Places => placed_at(journal, from),
    }
}

// The width of the rows in which a change's column and row tell its place on a sheet of width w.
pub fn row_width(form: Form, w: usize) -> usize
    ensures { result ≡ row_width form w }
{
    match form {
        Form::Coordinates => w,
        Form::Places => ROW,
    }
}

// Number 5 of a change: whether it is off a sheet of w by h.
pub fn is_off(form: Form, w: usize, h: usize, c: u64) -> bool
    requires { w * h < 2 ^ 64 }
    ensures { result ≡ outside w h (change_of form w c) }
{
    match form {
        Form::Coordinates => is_outside(w, h, c),
        Form::Places => w * h <= place_of(ROW, c),
    }
}

// The number of the first of 5 and 6 that applies to one change, or 0.
pub fn change_no(form: Form, w: usize, h: usize, k: usize, c: u64) -> u8
    requires { w * h < 2 ^ 64 }
    ensures { (indices : List ℤ) → result ≡ first_of (pixel_checks false (bare w h k indices) (change_of form w c)) }
{
    if is_off(form, w, h, c) {
        return OFF_THE_SHEET;
    }
    if is_stray(new_of(c), k) {
        return NO_SUCH_INDEX;
    }
    0
}

// The number of the first of 5 and 12 that applies to one change of a remap, or 0: then its place is marked in a
// scratch of a byte a pixel.
pub fn mark_change(
    form: Form,
    w: usize,
    h: usize,
    k: usize,
    index: usize,
    indices: &[i16],
    marks: &mut [u8],
    c: u64,
) -> u8
    requires { (index ≤ 255) × (length indices.now ≡ w * h) × (w * h ≤ length marks.old) }
    ensures { (result ≡ first_of (remap_checks (bare w h k indices.now) index (change_of form w c)))
        × (marks.new
        ≡ when_none result (set marks.old (place w (change_of form w c)) 1) marks.old) }
{
    if is_off(form, w, h, c) {
        return OFF_THE_SHEET;
    }
    mark_inside(row_width(form, w), k, index, indices, marks, c)
}
