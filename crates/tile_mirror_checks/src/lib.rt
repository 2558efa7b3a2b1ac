// The checks of `mirror_tiles` of tools.rs: when it touches a list, and the number of the first that applies. A list
// of changes is lent as one number of 64 bits a change.
#![tactic(auto)]

ghost use Rattle.std.specs.Prelude.{◌≡◌, map};
ghost use Rattle.base.specs.Lists.{some};
ghost use Rattle.sheet.specs.Sheet.{sheet_of};
ghost use Rattle.edit.specs.Change.{outside, unpacked};
ghost use Rattle.tile_mirror_checks.specs.Calls.{divides, touching, straying, stage_of};

use base::{LIST_TOO_LONG, MAX_CHANGES, NO_SPACE, OFF_THE_SHEET, either};
use edit_pixels::is_outside;
use selection::{Area, Chosen, Selection, region};
use sheet::check;

// What the checks leave: the region that copies change, or their number.
#[derive(Clone, Copy)]
pub enum Stage {
    Canvas(Selection),
    Refused(u8),
}

// Whether the tile side divides both sides of the sheet.
fn is_dividing(t: usize, w: usize, h: usize) -> bool
    ensures { result ≡ divides t w h }
{
    if t == 0 {
        return false;
    }
    w % t == 0 && h % t == 0
}

// Whether a list of `count` changes is touched.
pub fn is_touching(on: bool, count: usize, t: usize, w: usize, h: usize) -> bool
    ensures { result ≡ touching on count t w h }
{
    if !on {
        return false;
    }
    if count == 0 {
        return false;
    }
    is_dividing(t, w, h)
}

// Whether a change is off the sheet. The scan has no early exit.
fn any_outside(w: usize, h: usize, list: &[u64]) -> bool
    ensures { result ≡ some (outside w h) (map unpacked list.now) }
{
    let mut off = false;
    for change in list {
        off = either(off, is_outside(w, h, *change));
    }
    off
}

// Number 5 of a change, where the list is touched.
pub fn is_straying(touched: bool, w: usize, h: usize, list: &[u64]) -> bool
    ensures { result ≡ straying touched w h list.now }
{
    if !touched {
        return false;
    }
    any_outside(w, h, list)
}

// The region that copies change, or the number of the first of 1 to 3, 21 for a list of `count` changes, 5 for the
// selection, 5 for a change (`off`) and the scratch's 16 that applies.
pub fn prepare(
    w: usize,
    h: usize,
    k: usize,
    palette: &[u8],
    lab: &[f64],
    indices: &[i16],
    area: Area,
    count: usize,
    off: bool,
    room: usize,
) -> Stage
    ensures { let sheet = sheet_of w h k palette.now lab.now indices.now in
        result ≡ stage_of sheet area count off room }
{
    let first = check(w, h, k, palette, lab, indices);
    if first != 0 {
        return Stage::Refused(first);
    }
    if MAX_CHANGES < count {
        return Stage::Refused(LIST_TOO_LONG);
    }
    let Chosen::Part(s) = region(area, w, h) else {
        return Stage::Refused(OFF_THE_SHEET);
    };
    if off {
        return Stage::Refused(OFF_THE_SHEET);
    }
    if room < indices.len() {
        return Stage::Refused(NO_SPACE);
    }
    Stage::Canvas(s)
}
