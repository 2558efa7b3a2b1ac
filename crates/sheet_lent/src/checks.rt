// A lent sheet judged: number 1 by its size, storage and marks.
ghost use Rattle.std.specs.Prelude.{◌*◌, ◌≤◌};
ghost use Rattle.sheet_lent.specs.Lent.{lent_of, LentJudged};

use base::{BAD_SHEET, MAX_ENTRIES, STORAGE};

// Number 1 of a sheet that is lent for one of w by h, or 0.
pub fn lent_no(
    w: usize,
    h: usize,
    to_w: usize,
    to_h: usize,
    palette: &[u8],
    lab: &[f64],
    indices: &[i16],
    locks: &[bool],
) -> u8
    requires { w * h ≤ 1048576 }
    ensures { LentJudged w h
        (lent_of to_w to_h palette.now lab.now indices.now locks.now) result }
{
    if to_w != w {
        return BAD_SHEET;
    }
    if to_h != h {
        return BAD_SHEET;
    }
    if palette.len() != STORAGE {
        return BAD_SHEET;
    }
    if lab.len() != STORAGE {
        return BAD_SHEET;
    }
    if indices.len() != w * h {
        return BAD_SHEET;
    }
    if locks.len() != MAX_ENTRIES {
        return BAD_SHEET;
    }
    0
}
