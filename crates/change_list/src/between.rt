// The changes between two pictures: a tool lays the rows that it can reach out in the scratch, paints there, and
// then the places that differ are listed, row by row, over what was read. So no tool has a list of its own to
// normalise, and none costs more than the rows it can reach.
ghost use Rattle.std.specs.Prelude.{◌≡◌, map, ℕ, ◌+◌, ◌*◌, ◌≤◌, ◌<◌, ◌^◌, length, drop, set};
ghost use Rattle.std.specs.Int.{w16};
ghost use Rattle.std.proofs.Common.{SFits, of_z};
ghost use Rattle.base.specs.Lists.{over, All};
ghost use Rattle.edit.specs.Change.{packed};
ghost use Rattle.change_list.specs.Fronts.{Front, Put};
ghost use Rattle.change_list.specs.Between.{laid_out, rows_of, between_rows, HasRows, difference_of, row_from};

use edit::{NEW, OLD, PART, ROW};
use edit_pixels::bits_of;

// Indices into the scratch, an index a number, in 16 bits.
fn lay(indices: &[i16], scratch: &mut [u64])
    requires { length indices.now ≤ length scratch.old }
    ensures scratch_after { scratch.new ≡ over (map (of_z w16) indices.now) scratch.old }
    ensures scratch_after_2 { laid_out (length indices.now) scratch.new ≡ indices.now }
{
    for (i, index) in indices.iter().enumerate() {
        scratch[i] = bits_of(*index) as u64;
    }
}

// Some rows of a picture into the scratch, each where it stands: count rows from row `first` on.
pub fn lay_rows(indices: &[i16], w: usize, first: usize, count: usize, scratch: &mut [u64])
    requires { HasRows w first count (length indices.now) (length scratch.old) }
    ensures { rows_of w first count (laid_out (length indices.now) scratch.new)
        ≡ rows_of w first count indices.now }
{
    let at = first * w;
    let end = at + count * w;
    lay(&indices[at..end], &mut scratch[at..end]);
}

// An index painted at place p of a picture that is laid out.
pub fn paint(scratch: &mut [u64], p: usize, index: i16)
    requires { p < length scratch.old }
    ensures scratch_after { scratch.new ≡ set scratch.old p (of_z w16 index) }
    ensures by_index { (n : ℕ) → laid_out n scratch.new ≡ set (laid_out n scratch.old) p index }
{
    scratch[p] = bits_of(index) as u64;
}

// The change of old to new at m, where they differ; answers the next place.
fn put_difference(s: &mut [u64], m: usize, place: u64, old: u64, new: u64) -> usize
    requires m_in_bounds { m < length s.old }
    requires place_bound { (place < 2 ^ 32) × (old < 2 ^ 16) × (new < 2 ^ 16) }
    ensures { Put s.old m (difference_of place old new) (m + 1) s.new result }
{
    if old == new {
        return m;
    }
    s[m] = place + old * OLD + new * NEW;
    m + 1
}

// The changes of one row to the bits from `at` on, written from m on, over bits that were read; answers the next
// place. `first` is the number of the row's first place.
fn row_differences(row: &[i16], first: u64, at: usize, s: &mut [u64], m: usize) -> usize
    requires { (m ≤ at) × (at + length row.now ≤ length s.old) × (first + length row.now ≤ 2 ^ 32) }
    ensures put { Put s.old m (row_from first row.now (drop at s.old))
        (at + length row.now) s.new result }
    ensures all { All (SFits w16) row.now }
{
    let mut m = m;
    for (x, index) in row.iter().enumerate() {
        let old = bits_of(*index) as u64;
        let new = s[at + x] % PART;
        m = put_difference(s, m, first + x as u64, old, new);
    }
    m
}

// The changes in count rows from row `first` on, from a picture to the one that the scratch holds there as bits, in
// row order, left at the front of the scratch; answers how many they are.
pub fn differences(
    indices: &[i16],
    w: usize,
    first: usize,
    count: usize,
    scratch: &mut [u64],
) -> usize
    requires { HasRows w first count (length indices.now) (length scratch.old) }
    ensures { Front (map packed (between_rows w first count indices.now
        (laid_out (length indices.now) scratch.old))) scratch.new result }
{
    let mut m = 0;
    for y in first..first + count {
        let at = y * w;
        let end = at + w;
        m = row_differences(&indices[at..end], y as u64 * ROW, at, scratch, m);
    }
    m
}
