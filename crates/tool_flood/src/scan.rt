// The changes of the marked places, row by row.
ghost use Rattle.std.specs.Prelude.{◌≡◌, ◌*◌, ◌%◌, ◌≤◌, ◌<◌, ◌^◌, length};
ghost use Rattle.change_list.specs.Fronts.{Front};
ghost use Rattle.tool_fill_model.specs.Cells.{pair_of, placed, emitted};

use edit::{NEW, OLD, ROW};
use edit_pixels::bits_of;

// A change's two indices, above its place.
pub(crate) fn pair_of(old: i16, new: i16) -> u64
    ensures { (result ≡ pair_of old new) × (result % 2 ^ 32 ≡ 0) }
{
    let a = bits_of(old) as u64;
    let b = bits_of(new) as u64;
    a * OLD + b * NEW
}

// The change of a place.
fn change_at(w: usize, pair: u64, p: usize) -> u64
    requires { (0 < w) × (w ≤ 1024) × (p < 1024 * w) × (pair % 2 ^ 32 ≡ 0) }
    ensures { result ≡ placed w pair p }
{
    (p % w) as u64 + (p / w) as u64 * ROW + pair
}

// The change of each marked place, left at the front of the cells; answers how many they are.
pub(crate) fn emit(w: usize, pair: u64, s: &mut [u64]) -> usize
    requires { (0 < w) × (w ≤ 1024) × (length s.old ≤ 1024 * w) × (pair % 2 ^ 32 ≡ 0) }
    ensures { Front (emitted w pair s.old) s.new result }
{
    let mut m: usize = 0;
    for p in 0..s.len() {
        if s[p] % 2 == 1 {
            s[m] = change_at(w, pair, p);
            m += 1;
        }
    }
    m
}
