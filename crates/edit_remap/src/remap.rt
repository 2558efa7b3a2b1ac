// The checks of one change of a removal's list: 5 and 12.
ghost use Rattle.std.specs.Prelude.{◌≡◌, ◌||◌, [], ◌∷◌, ℕ, ◌*◌, ◌<◌, ◌≤◌, pos, negsuc, length, set};
ghost use Rattle.base.specs.Numbers.{bad_remap};
ghost use Rattle.base.specs.Checks.{◌when◌, first_of};
ghost use Rattle.base.specs.Ints.{eq_z};
ghost use Rattle.sheet.specs.Sheet.{stray};
ghost use Rattle.edit.specs.Change.{unpacked, place};
ghost use Rattle.edit.specs.Checks.{misdirected, remap_checks};
ghost use Rattle.edit_pixels.specs.Inside.{bare};
ghost use Rattle.edit_remap.specs.Marked.{when_none};

use base::{BAD_REMAP, OFF_THE_SHEET, either};
use edit_left::is_entry;
use edit_pixels::{is_outside, is_stray, new_of, old_of, place_of};

// Whether a remap may not lead to this index: it is the entry's, transparent or none of the k.
fn is_bad_target(z: i16, index: usize, k: usize) -> bool
    requires { index ≤ 255 }
    ensures { result ≡ eq_z z (pos index) || (eq_z z (negsuc 0) || stray k z) }
{
    either(is_entry(z, index), either(z == -1, is_stray(z, k)))
}

// Number 12 of a change, on a sheet of any height.
fn is_misdirected(w: usize, k: usize, index: usize, indices: &[i16], c: u64) -> bool
    requires { (index ≤ 255) × (place w (unpacked c) < length indices.now) }
    ensures { (h : ℕ) → result ≡ misdirected (bare w h k indices.now) index (unpacked c) }
{
    let p = place_of(w, c);
    let here = is_entry(indices[p], index);
    let old = is_entry(old_of(c), index);
    either(!here, either(!old, is_bad_target(new_of(c), index, k)))
}

// Number 12 of a change that stands in the picture, or 0: then its place is marked in a scratch of a byte a pixel.
#[tactic(auto, unfolding(base::specs::Checks::first_of))]
pub fn mark_inside(
    w: usize,
    k: usize,
    index: usize,
    indices: &[i16],
    marks: &mut [u8],
    c: u64,
) -> u8
    requires { (index ≤ 255) × (place w (unpacked c) < length indices.now) × (length indices.now ≤ length marks.old) }
    ensures { ((h : ℕ) → result
        ≡ first_of (bad_remap when misdirected (bare w h k indices.now) index (unpacked c) ∷ []))
        × (marks.new ≡ when_none result (set marks.old (place w (unpacked c)) 1) marks.old) }
{
    if is_misdirected(w, k, index, indices, c) {
        return BAD_REMAP;
    }
    let p = place_of(w, c);
    marks[p] = 1;
    0
}

// The number of the first check that applies to one change of a remap, or 0: then its place is marked.
#[tactic(auto, unfolding(edit::specs::Checks::remap_checks, base::specs::Checks::first_of))]
pub fn mark_move(
    w: usize,
    h: usize,
    k: usize,
    index: usize,
    indices: &[i16],
    marks: &mut [u8],
    c: u64,
) -> u8
    requires { (index ≤ 255) × (length indices.now ≡ w * h) × (w * h ≤ length marks.old) }
    ensures { (result ≡ first_of (remap_checks (bare w h k indices.now) index (unpacked c)))
        × (marks.new ≡ when_none result (set marks.old (place w (unpacked c)) 1) marks.old) }
{
    if is_outside(w, h, c) {
        return OFF_THE_SHEET;
    }
    mark_inside(w, k, index, indices, marks, c)
}
