// The checks of a list of pixel changes: 5, 6 and, on replay, 11, change by change.
ghost use Rattle.std.specs.Prelude.{◌≡◌, ◌*◌, length};
ghost use mathlib.Core.List.{map, flat_map};
ghost use Rattle.base.specs.Checks.{first_of};
ghost use Rattle.sheet.specs.Sheet.{stray};
ghost use Rattle.edit.specs.Change.{unpacked};
ghost use Rattle.edit.specs.Checks.{pixel_checks};
ghost use Rattle.edit_pixels.specs.Inside.{bare};

use crate::change::{is_outside, new_of, old_of, place_of};
use base::{NO_SUCH_INDEX, OFF_THE_SHEET, STALE};

// Whether an index lies outside -1..k-1.
pub fn is_stray(z: i16, k: usize) -> bool
    ensures { result ≡ stray k z }
{
    if z < 0 { z < -1 } else { z as usize >= k }
}

// The number of the first check that applies to one change, or 0.
pub fn pixel_no(w: usize, h: usize, k: usize, indices: &[i16], c: u64, replay: bool) -> u8
    requires { length indices.now ≡ w * h }
    ensures { result ≡ first_of (pixel_checks replay (bare w h k indices.now) (unpacked c)) }
{
    if is_outside(w, h, c) {
        return OFF_THE_SHEET;
    }
    if is_stray(new_of(c), k) {
        return NO_SUCH_INDEX;
    }
    if !replay {
        return 0;
    }
    let p = place_of(w, c);
    if indices[p] == old_of(c) {
        return 0;
    }
    STALE
}

// The number of the first check that applies to a list, or 0.
pub fn pixels_no(w: usize, h: usize, k: usize, indices: &[i16], list: &[u64], replay: bool) -> u8
    requires { length indices.now ≡ w * h }
    ensures { result
        ≡ first_of (flat_map (pixel_checks replay (bare w h k indices.now)) (map unpacked list.now)) }
{
    for c in list {
        let no = pixel_no(w, h, k, indices, *c, replay);
        if no != 0 {
            return no;
        }
    }
    0
}
