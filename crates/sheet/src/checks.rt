// Checks 1 to 3, which every call on a sheet begins with. The scans have no early exit, so that they
// are compiled to vector code.
ghost use Rattle.std.specs.Prelude.{◌≡◌, ◌≤◌};
ghost use Rattle.base.specs.Lists.{some};
ghost use Rattle.base.specs.Checks.{first_of};
ghost use Rattle.sheet.specs.Sheet.{sheet_of, stray, stray_z};
ghost use Rattle.sheet.specs.Checks.{permitted_checks, Limited, Judged, MarkedJudged};

use base::{
    BAD_SHEET, MAX_ENTRIES, MAX_PERMITTED, MAX_SIDE, STORAGE, STRAY_INDEX, UNFIT_LAB, either,
};
use color_doubles::any_unfit;

// Whether an index lies outside -1..k-1. The bound has the index's width, so that a scan stays narrow.
fn is_stray(z: i16, k: i16) -> bool
    ensures { result ≡ stray_z k z }
{
    either(z < -1, z >= k)
}

// Whether some index lies outside -1..k-1, with the bound as the indices have it.
pub fn any_stray_below(indices: &[i16], k: i16) -> bool
    ensures { result ≡ some (stray_z k) indices.now }
{
    let mut bad = false;
    for z in indices {
        bad = either(bad, is_stray(*z, k));
    }
    bad
}

// Whether some index lies outside -1..k-1.
pub(crate) fn any_stray(indices: &[i16], k: usize) -> bool
    requires { k ≤ 255 }
    ensures { result ≡ some (stray k) indices.now }
{
    any_stray_below(indices, k as i16)
}

// Number 1 of a sheet's size, palette count and storage, or 0.
pub(crate) fn limits_no(
    w: usize,
    h: usize,
    k: usize,
    palette: &[u8],
    lab: &[f64],
    indices: &[i16],
) -> u8
    ensures { Limited (sheet_of w h k palette.now lab.now indices.now) result }
{
    if MAX_SIDE < w {
        return BAD_SHEET;
    }
    if MAX_SIDE < h {
        return BAD_SHEET;
    }
    if MAX_ENTRIES < k {
        return BAD_SHEET;
    }
    if palette.len() != STORAGE {
        return BAD_SHEET;
    }
    if lab.len() != STORAGE {
        return BAD_SHEET;
    }
    if indices.len() != w * h {
        return BAD_SHEET;
    }
    0
}

// The number of the first of checks 1 to 3 that applies to a sheet, or 0 where it is well-formed.
pub fn check(w: usize, h: usize, k: usize, palette: &[u8], lab: &[f64], indices: &[i16]) -> u8
    ensures { Judged (sheet_of w h k palette.now lab.now indices.now) result }
{
    let no = limits_no(w, h, k, palette, lab, indices);
    if no != 0 {
        return no;
    }
    if any_stray(indices, k) {
        return STRAY_INDEX;
    }
    let n = 3 * k;
    if any_unfit(&lab[..n]) {
        return UNFIT_LAB;
    }
    0
}

// The same of a sheet and the lock marks of its entries: marks that are not 255 are number 1, too.
pub fn check_marked(
    w: usize,
    h: usize,
    k: usize,
    palette: &[u8],
    lab: &[f64],
    indices: &[i16],
    locks: &[bool],
) -> u8
    ensures { let sheet = sheet_of w h k palette.now lab.now indices.now in
        MarkedJudged sheet locks.now result }
{
    if locks.len() != MAX_ENTRIES {
        return BAD_SHEET;
    }
    check(w, h, k, palette, lab, indices)
}

// Number 1 of the permitted colours, or 0: present, they are at most 4,096 of three bytes each.
pub fn permitted_no(limited: bool, permitted: &[u8]) -> u8
    ensures { result ≡ first_of (permitted_checks limited permitted.now) }
{
    if !limited {
        return 0;
    }
    if permitted.len() % 3 != 0 {
        return BAD_SHEET;
    }
    if 3 * MAX_PERMITTED < permitted.len() {
        return BAD_SHEET;
    }
    0
}
