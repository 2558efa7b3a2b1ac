// The bytes of an opening frame, judged where they lie and then taken.
ghost use Rattle.std.specs.Prelude.{◌≡◌, map, ◌+◌, ◌*◌, ◌≤◌, length, take, drop};
ghost use Rattle.base.specs.Lists.{some, over};
ghost use Rattle.sheet.specs.Sheet.{stray};
ghost use Rattle.sheet.specs.Document.{labs_of};
ghost use Rattle.panel_frames.specs.Reading.{index_of, palette_in};
ghost use Rattle.panel_frames.specs.Opening.{open_sheet, opened_or};
ghost use Rattle.panel_read.specs.ReadSheet.{storage_checks, read_made, taken_of, Openable};

use base::{BAD_SHEET, MAX_ENTRIES, NO_SPACE, Opened, STORAGE, STRAY_INDEX, both, either};
use panel_frames::{MAX_OPEN, take_indices};
use sheet::fill_labs;

// Whether the index that a byte is lies outside -1..k-1.
#[tactic(auto, unfolding(sheet::specs::Sheet::stray, panel_frames::specs::Reading::index_of))]
fn is_stray(b: u8, k: u8) -> bool
    ensures { result ≡ stray k (index_of b) }
{
    both(b != 255, k <= b)
}

// Whether one of the indices that bytes are does. No early exit: the scan is compiled to vector code.
fn any_stray(bytes: &[u8], k: u8) -> bool
    ensures { result ≡ some (stray k) (map index_of bytes.now) }
{
    let mut bad = false;
    for b in bytes {
        bad = either(bad, is_stray(*b, k));
    }
    bad
}

// The number of the first of 1 and 2 that applies to an opening and the storage that is lent, or 0.
fn open_no(w: usize, h: usize, k: usize, bytes: &[u8], palette: &[u8], lab: &[f64]) -> u8
    requires { 6 + 3 * k + w * h ≤ length bytes.now }
    ensures { Openable w h k bytes.now palette.now lab.now result }
{
    if MAX_OPEN < w {
        return BAD_SHEET;
    }
    if MAX_OPEN < h {
        return BAD_SHEET;
    }
    if MAX_ENTRIES < k {
        return BAD_SHEET;
    }
    if palette.len() != STORAGE {
        return BAD_SHEET;
    }
    if lab.len() != STORAGE {
        return BAD_SHEET;
    }
    let start = 6 + 3 * k;
    let end = start + w * h;
    if any_stray(&bytes[start..end], k as u8) {
        return STRAY_INDEX;
    }
    0
}

// The k colours of an opening, their LAB and its n indices, to the front of the buffers.
#[tactic(auto, unfolding(base::specs::Lists::over, base::specs::Checks::first_of))]
fn take_sheet(
    k: usize,
    n: usize,
    bytes: &[u8],
    palette: &mut [u8],
    lab: &mut [f64],
    indices: &mut [i16],
)
    requires n_in_bounds { (6 + 3 * k + n ≤ length bytes.now) × (k ≤ 255) × (n ≤ length indices.old) }
    requires palette_len { (length palette.old ≡ 765) × (length lab.old ≡ 765) }
    ensures { let colours = palette_in k bytes.now in
        (palette.new ≡ over colours palette.old)
        × (lab.new ≡ over (labs_of colours) lab.old)
        × (indices.new ≡ over (map index_of (take n (drop (6 + 3 * k) bytes.now))) indices.old) }
{
    let start = 6 + 3 * k;
    let end = start + n;
    palette[..3 * k].copy_from_slice(&bytes[6..start]);
    fill_labs(palette, lab, k, false, &[]);
    take_indices(&bytes[start..end], indices);
}

// The sheet of an opening frame.
pub(crate) fn read_open(
    w: usize,
    h: usize,
    k: usize,
    bytes: &[u8],
    palette: &mut [u8],
    lab: &mut [f64],
    indices: &mut [i16],
) -> Opened
    requires { 6 + 3 * k + w * h ≤ length bytes.now }
    ensures { let lent = storage_checks palette.old lab.old in
        read_made result palette.new lab.new indices.new
        ≡ taken_of (opened_or lent (open_sheet w h k bytes.now))
        palette.old lab.old indices.old }
{
    let no = open_no(w, h, k, bytes, palette, lab);
    if no != 0 {
        return Opened::Refused(no);
    }
    let n = w * h;
    if indices.len() < n {
        return Opened::Refused(NO_SPACE);
    }
    take_sheet(k, n, bytes, palette, lab, indices);
    Opened::Sheet { w, h, k }
}
