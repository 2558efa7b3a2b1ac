// What is pending at each place: the caller's changes over the copies, and the result.
ghost use Rattle.std.specs.Prelude.{◌≡◌, ℕ, ◌+◌, ◌*◌, ◌≤◌, ◌<◌, ◌^◌, length, get_or};
ghost use Rattle.std.specs.Int.{w16};
ghost use Rattle.std.proofs.Common.{of_z};
ghost use Rattle.change_list.specs.Fronts.{Front, Put};
ghost use Rattle.change_list.specs.Between.{difference_of};
ghost use Rattle.tile_marks.specs.Marks.{Listed};
ghost use Rattle.tile_copies.specs.Pending.{pending_by, pending, old_in, emitted, emitted_all};

use edit::{NEW, OLD, PART, ROW};
use edit_pixels::{bits_of, place_of};
use tile_marks::{PENDING, new_bits};

// The unit in which a number counts that its old is the caller's.
const OWN: u64 = 8_796_093_022_208;

// The change c over what is pending in v: its new alone, where a change is pending.
fn pend_by(c: u64, v: u64) -> u64
    ensures { result ≡ pending_by c v }
{
    if v / PENDING % 2 == 1 {
        return v % NEW + new_bits(c) * NEW;
    }
    c / OLD % PART + 3 * PENDING + new_bits(c) * NEW
}

// The caller's changes, in order.
pub fn pend_all(w: usize, list: &[u64], s: &mut [u64])
    requires { Listed w list.now (length s.old) }
    ensures { (p : ℕ) → p < length s.old
        → get_or s.new p 0 ≡ pending w list.now s.old p }
{
    for change in list {
        let q = place_of(w, *change);
        s[q] = pend_by(*change, s[q]);
    }
}

// The old of what is pending in v, at a place whose index is `own`.
fn old_in(own: i16, v: u64) -> u64
    ensures { (result ≡ old_in (of_z w16 own) v) × (result < 2 ^ 16) }
{
    if v / OWN % 2 == 1 {
        return v % PART;
    }
    bits_of(own) as u64
}

// The change of old to new at m, where they differ; answers the next place.
fn put_change(s: &mut [u64], m: usize, place: u64, old: u64, new: u64) -> usize
    requires m_in_bounds { m < length s.old }
    requires place_bound { (place < 2 ^ 32) × (old < 2 ^ 16) × (new < 2 ^ 16) }
    ensures { Put s.old m (difference_of place old new) (m + 1) s.new result }
{
    if old == new {
        return m;
    }
    s[m] = place + old * OLD + new * NEW;
    m + 1
}

// What is pending at place p, written at m; answers the next place.
fn put_pending(w: usize, indices: &[i16], p: usize, s: &mut [u64], m: usize) -> usize
    requires { (0 < w) × (w ≤ 1024) × (p < length indices.now) × (p < length s.old) × (m ≤ p) × (p < 1024 * w) }
    ensures { Put s.old m (emitted w indices.now p (get_or s.old p 0)) (m + 1) s.new
        result }
{
    let v = s[p];
    if v / PENDING % 2 == 1 {
        let place = (p % w) as u64 + (p / w) as u64 * ROW;
        let old = old_in(indices[p], v);
        return put_change(s, m, place, old, new_bits(v));
    }
    m
}

// What is pending, row by row, written to the front of s, over numbers that were read; answers how many they are.
pub fn emit(w: usize, indices: &[i16], s: &mut [u64]) -> usize
    requires { (0 < w) × (w ≤ 1024) × (length s.old ≤ 1024 * w) × (length s.old ≡ length indices.now) }
    ensures { Front (emitted_all w indices.now s.old) s.new result }
{
    let mut m: usize = 0;
    for p in 0..s.len() {
        m = put_pending(w, indices, p, s, m);
    }
    m
}
