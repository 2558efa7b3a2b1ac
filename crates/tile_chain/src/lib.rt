// A cell looked for along its chain. First cells are kept in chains by their key, in the scratch, a place a cell, beside
// what is found: three numbers share a place. The functions ask their caller for what they need.
#![tactic(auto)]

ghost use Rattle.std.specs.Prelude.{◌≡◌, ◌≤◌, ◌<◌, ◌^◌};
ghost use Rattle.tile_cells.specs.Cells.{Tiled, cell_count, code_of};
ghost use Rattle.tile_chain.specs.Table.{found_in, head_in, next_in, Holds, Chained, lastOn, bucketOf};

use tile_cells::{corner_of, key, order_to, scale};

// What no cell has found.
pub const FOUND: u64 = 4_194_304;

// What `order_to` answers where there is no flip.
const NONE: u64 = 4;

const HEAD: u64 = 2_097_152;

const NEXT: u64 = 8_796_093_022_208;

pub fn head_in(v: u64) -> u64
    ensures { (result ≡ head_in v) × (result < 2 ^ 21) }
{
    v / FOUND % HEAD
}

fn next_in(v: u64) -> u64
    ensures { result ≡ next_in v }
{
    v / NEXT
}

// What is found for a place's cell, and the next of its chain; the head stays.
pub fn with_found(v: u64, found: u64, next: u64) -> u64
    requires { (found < 2 ^ 22) × (next < 2 ^ 21) }
    ensures { Holds result found (head_in v) next }
{
    found + head_in(v) * FOUND + next * NEXT
}

// The head of a place's chain; what is found and the next stay.
pub fn with_head(v: u64, head: u64) -> u64
    requires { head < 2 ^ 21 }
    ensures { Holds result (found_in v) head (next_in v) }
{
    v % FOUND + head * FOUND + next_in(v) * NEXT
}

// What is found for cell c, along its chain from p on; FOUND, which no cell has, where that takes more than `most` steps.
pub fn find(
    w: usize,
    h: usize,
    t: usize,
    indices: &[i16],
    c: usize,
    most: usize,
    p: u64,
    s: &[u64],
) -> u64
    requires tiled { Tiled w h t indices.now × (c < cell_count w h t) }
    requires chained { Chained w t indices.now (cell_count w h t) c s.now }
    requires p_value { p ≡ lastOn w t indices.now (cell_count w h t) (bucketOf w t indices.now (cell_count w h t) c) c }
    ensures value { result < 2 ^ 22 → result ≡ code_of w t indices.now c }
    ensures most_lt_c { 2 ^ 22 ≤ result → most < c }
{
    let at = corner_of(w, t, c);
    let mut p = p;
    for _ in 0..most {
        if p == 0 {
            break;
        }
        let f = (p - 1) as usize;
        let order = order_to(indices, at, corner_of(w, t, f), w, t);
        if order < NONE {
            return f as u64 * 4 + order;
        }
        p = next_in(s[f]);
    }
    if p == 0 { c as u64 * 4 } else { FOUND }
}

// The chain of cell c.
pub fn bucket(w: usize, h: usize, t: usize, indices: &[i16], c: usize, n: usize) -> usize
    requires { Tiled w h t indices.now × (c < cell_count w h t) × (n ≡ cell_count w h t) }
    ensures { (result ≡ bucketOf w t indices.now (cell_count w h t) c) × (result < cell_count w h t) }
{
    scale(key(indices, corner_of(w, t, c), w, t), n)
}
