// The last change of each class, and its copies.
ghost use Rattle.std.specs.Prelude.{◌≡◌, cond, ℕ, ◌+◌, ◌*◌, ◌/◌, ◌%◌, ◌≤◌, ◌<◌, ◌^◌, length, get_or};
ghost use Rattle.tile_marks.specs.Marks.{place_at, new_bits, elsewhere, marked_by, marked, land_by, landed, Listed, Classes, Marks};

use edit::{NEW, PART};
use edit_pixels::place_of;
use selection::Selection;

// The units in which a number counts its mark and what is pending.
const MARK: u64 = 1_048_576;

pub const PENDING: u64 = 4_398_046_511_104;

// The bits of a change's new.
pub fn new_bits(c: u64) -> u64
    ensures { (result ≡ new_bits c) × (result < 2 ^ 16) }
{
    c / NEW % PART
}

fn one(b: bool) -> u64
    ensures { (result ≡ cond b 1 0) × (result ≤ 1) }
{
    if b { 1 } else { 0 }
}

// Whether a change of the class with mark m is at another place than q.
fn is_elsewhere(w: usize, list: &[u64], m: u64, q: usize) -> bool
    requires { (m < 2 * length list.now + 2) × ((j : ℕ) → j < length list.now → place_at w list.now j < 2 ^ 20) }
    ensures { result ≡ elsewhere w list.now m q }
{
    if m < 2 {
        return false;
    }
    if m % 2 == 1 {
        return true;
    }
    let last = (m / 2 - 1) as usize;
    place_of(w, list[last]) != q
}

// The number v of a class with change i as its last.
fn mark_by(w: usize, list: &[u64], i: usize, v: u64) -> u64
    requires i_in_bounds { (i < length list.now) × (length list.now ≤ 2 ^ 20) × (v / 2 ^ 20 < 2 * length list.now + 2) }
    requires by_index { (j : ℕ) → j < length list.now → place_at w list.now j < 2 ^ 20 }
    ensures { result ≡ marked_by w list.now i v }
{
    let q = place_of(w, list[i]);
    let several = one(is_elsewhere(w, list, v / MARK, q));
    v % MARK + (2 * (i as u64 + 1) + several) * MARK
}

// Each class marked with its last change, at the place that is the class.
pub fn mark_all(w: usize, list: &[u64], s: &mut [u64])
    requires { Listed w list.now (length s.old) × Classes s.old }
    ensures { (p : ℕ) → p < length s.old
        → get_or s.new p 0 ≡ marked w list.now s.old p }
{
    for (i, change) in list.iter().enumerate() {
        let class = (s[place_of(w, *change)] % MARK) as usize;
        let v = mark_by(w, list, i, s[class]);
        s[class] = v;
    }
}

// What lands on place p, whose class has mark m: nothing, or the new of the class's last change.
fn land_by(w: usize, region: Selection, list: &[u64], p: usize, m: u64) -> u64
    requires { (0 < w) × (m < 2 * length list.now + 2) × ((j : ℕ) → j < length list.now → place_at w list.now j < 2 ^ 20) }
    ensures { (result ≡ land_by w region list.now p m) × (result < 2 ^ 22) }
{
    if !region.contains(p % w, p / w) {
        return 0;
    }
    if !is_elsewhere(w, list, m, p) {
        return 0;
    }
    let last = (m / 2 - 1) as usize;
    1 + new_bits(list[last]) * 64
}

// The copies, each at the place that it lands on.
pub fn land_all(w: usize, region: Selection, list: &[u64], s: &mut [u64])
    requires { (0 < w) × Listed w list.now (length s.old) × Marks list.now s.old }
    ensures { (p : ℕ) → p < length s.old
        → get_or s.new p 0 ≡ landed w region list.now s.old p }
{
    for p in 0..s.len() {
        let class = (s[p] % MARK) as usize;
        let v = land_by(w, region, list, p, s[class] % PENDING / MARK);
        s[p] += v * PENDING;
    }
}
