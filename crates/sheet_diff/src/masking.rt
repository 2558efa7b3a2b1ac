// `diff_mask`.
ghost use Rattle.std.specs.Prelude.{◌≡◌};
ghost use Rattle.base.specs.Answer.{filled};
ghost use Rattle.sheet.specs.Sheet.{sheet_of};
ghost use Rattle.sheet_diff.specs.Mask.{baseline_of, Based, diff_mask_of};

use crate::diff::mark_differences;
use base::{BAD_SHEET, Counted, MAX_ENTRIES, MAX_SIDE, NO_SPACE, STORAGE, STRAY_INDEX};
use sheet::{any_stray_below, check};

// Number 1 or 2 of a baseline, or 0: it has no LAB, and the sheet's size.
fn baseline_no(
    w: usize,
    h: usize,
    base_w: usize,
    base_h: usize,
    base_k: usize,
    base: &[u8],
    base_indices: &[i16],
) -> u8
    ensures { Based w h (baseline_of base_w base_h base_k base.now base_indices.now) result }
{
    if MAX_SIDE < base_w {
        return BAD_SHEET;
    }
    if MAX_SIDE < base_h {
        return BAD_SHEET;
    }
    if MAX_ENTRIES < base_k {
        return BAD_SHEET;
    }
    if base.len() != STORAGE {
        return BAD_SHEET;
    }
    if base_indices.len() != base_w * base_h {
        return BAD_SHEET;
    }
    if base_w != w {
        return BAD_SHEET;
    }
    if base_h != h {
        return BAD_SHEET;
    }
    if any_stray_below(base_indices, base_k as i16) {
        return STRAY_INDEX;
    }
    0
}

// Marks each pixel whose colour or transparency differs from the baseline's, 1 or 0; each index is seen
// through its own palette. 16 where the mask is shorter than w × h.
pub fn diff_mask(
    w: usize,
    h: usize,
    k: usize,
    palette: &[u8],
    lab: &[f64],
    indices: &[i16],
    base_w: usize,
    base_h: usize,
    base_k: usize,
    base: &[u8],
    base_indices: &[i16],
    mask: &mut [u8],
) -> Counted
    ensures { let sheet = sheet_of w h k palette.now lab.now indices.now in
        filled result mask.new
        ≡ diff_mask_of sheet (baseline_of base_w base_h base_k base.now base_indices.now)
        mask.old }
{
    let no = check(w, h, k, palette, lab, indices);
    if no != 0 {
        return Counted::Refused(no);
    }
    let base_no = baseline_no(w, h, base_w, base_h, base_k, base, base_indices);
    if base_no != 0 {
        return Counted::Refused(base_no);
    }
    if mask.len() < indices.len() {
        return Counted::Refused(NO_SPACE);
    }
    mark_differences(palette, indices, base, base_indices, mask);
    Counted::Count(indices.len())
}
