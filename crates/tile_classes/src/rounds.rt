// The rounds: cells are told apart by one pixel of their least flip after the other.
ghost use Rattle.std.specs.Prelude.{◌≡◌, ◌+◌, ◌*◌, ◌≤◌, ◌<◌, ◌^◌, length};
ghost use Rattle.tile_cells.specs.Cells.{Tiled, cell_count};
ghost use Rattle.tile_least.specs.Least.{Digit};
ghost use Rattle.tile_classes.specs.Places.{class_in, order_in};
ghost use Rattle.tile_classes.specs.Classes.{NumberOf, Numbered};
ghost use Rattle.tile_classes.specs.Pixels.{pixel_of, LeastBy, Told};

use crate::ranking::{KEY, rank};
use base_sort::sort;
use tile_cells::corner_of;
use tile_least::{digit, least_order};

// The unit in which a number counts its class.
const CLASS: u64 = 137_438_953_472;

// The order in which cell c is least, in class 0.
fn place(w: usize, h: usize, t: usize, indices: &[i16], c: usize) -> u64
    requires { Tiled w h t indices.now × (c < cell_count w h t) }
    ensures { (class_in result ≡ 0) × LeastBy w t indices.now c result }
{
    least_order(indices, corner_of(w, t, c), w, t)
}

// Every cell in its least order, all in one class.
fn start(w: usize, h: usize, t: usize, indices: &[i16], n: usize, s: &mut [u64])
    requires { Tiled w h t indices.now × (n ≡ cell_count w h t) × (n + n ≤ length s.old) }
    ensures { Told w t indices.now n 0 s.new }
{
    for c in 0..n {
        s[c] = place(w, h, t, indices, c);
    }
}

fn order_in(v: u64) -> u64
    ensures { (result ≡ order_in v) × (result < 4) }
{
    v % 4
}

// The number of cell c, whose place has v: its class, the digit of its pixel p, and the cell.
fn number(w: usize, h: usize, t: usize, indices: &[i16], c: usize, p: usize, v: u64) -> u64
    requires tiled { Tiled w h t indices.now × (c < cell_count w h t) × (p < t * t) }
    requires v_bound { (class_in v < 2 ^ 20) × LeastBy w t indices.now c v }
    ensures { NumberOf Digit result (class_in v) c (pixel_of w t indices.now c p) }
{
    let d = digit(indices, corner_of(w, t, c), w, t, order_in(v), p);
    v / 4 * CLASS + d * KEY + c as u64
}

// The number of every cell, after the places.
fn number_all(w: usize, h: usize, t: usize, indices: &[i16], n: usize, p: usize, s: &mut [u64])
    requires tiled { Tiled w h t indices.now × (n ≡ cell_count w h t) × (p < t * t) }
    requires told { Told w t indices.now n p s.old }
    ensures { Numbered Digit n (λ c. pixel_of w t indices.now c p) s.old s.new n }
{
    for c in 0..n {
        let v = number(w, h, t, indices, c, p, s[c]);
        s[n + c] = v;
    }
}

// The cells told apart by pixel p.
fn round(w: usize, h: usize, t: usize, indices: &[i16], n: usize, p: usize, s: &mut [u64])
    requires tiled { Tiled w h t indices.now × (n ≡ cell_count w h t) × (p < t * t) }
    requires told { Told w t indices.now n p s.old }
    ensures { Told w t indices.now n (p + 1) s.new }
{
    number_all(w, h, t, indices, n, p, s);
    let m = n + n;
    sort(&mut s[n..m]);
    rank(n, s);
}

// The cells told apart by every pixel.
pub fn tell_apart(w: usize, h: usize, t: usize, indices: &[i16], n: usize, s: &mut [u64])
    requires { Tiled w h t indices.now × (n ≡ cell_count w h t) × (n + n ≤ length s.old) × (0 < n) }
    ensures { Told w t indices.now n (t * t) s.new }
{
    start(w, h, t, indices, n, s);
    for p in 0..t * t {
        round(w, h, t, indices, n, p, s);
    }
}
