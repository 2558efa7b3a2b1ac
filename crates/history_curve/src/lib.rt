// A maker's own curve loaded, document 02's E6. The LAB of the sheet's k entries is worked out anew from it; from then
// on the session lends it to each call that takes a curve. It may be loaded only while the history has no records.
#![tactic(auto)]

ghost use Rattle.std.specs.Prelude.{◌≡◌, length};
ghost use Rattle.base.specs.Checks.{first_of};
ghost use Rattle.sheet.specs.Sheet.{sheet_of};
ghost use Rattle.history_curve.specs.Load.{load_checks, load_made, load_of};

use base::{
    Answer, BAD_SHEET, Form, Handle, JOURNAL_DAMAGED, JOURNAL_IN_USE, MAX_JOURNAL, UNFIT_CURVE,
};
use color_curve::is_curve;
use history_handle::sound;
use sheet::{check, fill_labs};

// The number of the first check that applies to a loading, or 0.
fn load_no(
    w: usize,
    h: usize,
    k: usize,
    palette: &[u8],
    lab: &[f64],
    indices: &[i16],
    journal: &[u8],
    handle: Handle,
    curve: &[f64],
) -> u8
    ensures { let sheet = sheet_of w h k palette.now lab.now indices.now in
        result ≡ first_of (load_checks sheet (length journal.now) handle curve.now) }
{
    let size = journal.len();
    if MAX_JOURNAL < size {
        return BAD_SHEET;
    }
    let no = check(w, h, k, palette, lab, indices);
    if no != 0 {
        return no;
    }
    if !sound(handle, size) {
        return JOURNAL_DAMAGED;
    }
    if handle.count != 0 {
        return JOURNAL_IN_USE;
    }
    if !is_curve(curve) {
        return UNFIT_CURVE;
    }
    0
}

// Loads a curve: 1 to 4, 26 and 25, then the LAB of the k entries is worked out from its values. LAB storage past them
// keeps, and so do handle and journal. A curve may be loaded again. The form is told as to every call on a journal
// (document 02, E9).
pub fn load_curve(
    w: usize,
    h: usize,
    k: usize,
    palette: &[u8],
    lab: &mut [f64],
    indices: &[i16],
    _form: Form,
    journal: &[u8],
    handle: Handle,
    curve: &[f64],
) -> Answer
    ensures { let sheet = sheet_of w h k palette.now lab.old indices.now in
        load_made result lab.new ≡ load_of sheet (length journal.now) handle curve.now }
{
    let no = load_no(w, h, k, palette, lab, indices, journal, handle, curve);
    if no != 0 {
        return Answer::Refused(no);
    }
    fill_labs(palette, lab, k, true, curve);
    Answer::Done
}
