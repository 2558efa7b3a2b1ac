// Change request E10: the line of a sheet, `panel`'s opening frame in upper case with one newline.
//
// Crate panel_spelling has the theorems: two sheets have equal lines exactly when their parts are equal, and reading the
// line gives them back.
#![tactic(auto)]

ghost use Rattle.std.specs.Prelude.{◌≡◌, ◌∷◌, [], ◌++◌, ◌+◌, ◌*◌, ◌≤◌, length, take};
ghost use Rattle.base.specs.Lists.{over};
ghost use Rattle.base.specs.Answer.{filled};
ghost use Rattle.sheet.specs.Sheet.{sheet_of};
ghost use Rattle.journal_record.specs.Bytes.{le};
ghost use Rattle.panel_hex.specs.Hex.{hex_of};
ghost use Rattle.panel_spell.specs.Spelling.{open_line, spell_of, Spellable};

use base::{BAD_SHEET, Counted, NO_SPACE};
use panel_frames::{MAX_OPEN, put_newline};
use panel_hex::{put_bytes, put_indices};

// How long the line of a sheet is: 13 bytes, six an entry and two a place.
fn line_length(k: usize, places: usize) -> usize
    requires { (k ≤ 255) × (places ≤ 1048576) }
    ensures { result ≡ 13 + 6 * k + 2 * places }
{
    13 + 6 * k + 2 * places
}

// The number of the first check that applies to a sheet whose line has `room` bytes to go to, or 0.
fn spell_no(
    w: usize,
    h: usize,
    k: usize,
    palette: &[u8],
    lab: &[f64],
    indices: &[i16],
    room: usize,
) -> u8
    ensures { let s = sheet_of w h k palette.now lab.now indices.now in
        Spellable s room result }
{
    if MAX_OPEN < w {
        return BAD_SHEET;
    }
    if MAX_OPEN < h {
        return BAD_SHEET;
    }
    let no = sheet::check(w, h, k, palette, lab, indices);
    if no != 0 {
        return no;
    }
    if room < line_length(k, w * h) {
        return NO_SPACE;
    }
    0
}

// 00 w(2) h(2) k.
#[tactic(auto, unfolding(journal_record::specs::Bytes::le, journal_record::specs::Bytes::splice))]
fn put_open(w: usize, h: usize, k: usize, text: &mut [u8])
    requires { (k ≤ 255) × (12 ≤ length text.old) }
    ensures { text.new ≡ over (hex_of (0 ∷ le 2 w ++ (le 2 h ++ (k ∷ [])))) text.old }
{
    let w_low = (w % 256) as u8;
    let w_high = (w / 256 % 256) as u8;
    let h_low = (h % 256) as u8;
    let h_high = (h / 256 % 256) as u8;
    let entries = k as u8;
    let head = [0, w_low, w_high, h_low, h_high, entries];
    put_bytes(text, 0, &head);
}

// Writes the line to the front of `text`, and answers its length.
pub fn put_sheet(
    w: usize,
    h: usize,
    k: usize,
    palette: &[u8],
    indices: &[i16],
    text: &mut [u8],
) -> usize
    requires k_bound { (k ≤ 255) × (3 * k ≤ length palette.now) }
    requires indices_in_bounds { 13 + 6 * k + 2 * length indices.now ≤ length text.old }
    ensures { let line = open_line w h k (take (3 * k) palette.now) indices.now in
        (text.new ≡ over line text.old) × (result ≡ length line) }
{
    let n = 3 * k;
    let at = 12 + 2 * n;
    let end = at + 2 * indices.len();
    put_open(w, h, k, text);
    put_bytes(text, 12, &palette[..n]);
    put_indices(text, at, indices);
    put_newline(text, end);
    end + 1
}

// Writes the one spelling of a sheet with sides up to 64 to the front of `text`, and answers its length.
pub fn spell(
    w: usize,
    h: usize,
    k: usize,
    palette: &[u8],
    lab: &[f64],
    indices: &[i16],
    text: &mut [u8],
) -> Counted
    ensures { let s = sheet_of w h k palette.now lab.now indices.now in
        filled result text.new ≡ spell_of s text.old }
{
    let no = spell_no(w, h, k, palette, lab, indices, text.len());
    if no != 0 {
        return Counted::Refused(no);
    }
    let n = put_sheet(w, h, k, palette, indices, text);
    Counted::Count(n)
}
