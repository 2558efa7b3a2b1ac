// The first cell of each class, by a table: a place a class, where the numbers were.
ghost use Rattle.std.specs.Prelude.{◌≡◌, ◌+◌, ◌≤◌, ◌<◌, length, take};
ghost use Rattle.tile_cells.specs.Cells.{Tiled, cell_count, code_of, first_cells};
ghost use Rattle.tile_classes.specs.Places.{class_in};
ghost use Rattle.tile_classes.specs.Ranks.{Written};
ghost use Rattle.tile_classes.specs.Firsts.{FirstBelow, Entered};

use tile_cells::{corner_of, order_to};

fn class_in(v: u64) -> u64
    ensures { result ≡ class_in v }
{
    v / 4
}

// The table, empty.
pub fn clear(n: usize, s: &mut [u64])
    requires { n + n ≤ length s.old }
    ensures { Written n (λ c v. v ≡ 0) s.old s.new n }
{
    s[n..n + n].fill(0);
}

// The code of cell c, where the table has f for it: one more than its first cell, or 0 where it is that itself.
fn code(w: usize, h: usize, t: usize, indices: &[i16], c: usize, f: u64) -> u64
    requires { Tiled w h t indices.now × (c < cell_count w h t) × FirstBelow w t indices.now c c f }
    ensures { result ≡ code_of w t indices.now c }
{
    if f == 0 {
        return c as u64 * 4;
    }
    let d = (f - 1) as usize;
    let order = order_to(indices, corner_of(w, t, c), corner_of(w, t, d), w, t);
    d as u64 * 4 + order
}

// Cell c, after those before it: its code in the place of its class, and where it is the first of that, the table has it.
fn enter(w: usize, h: usize, t: usize, indices: &[i16], n: usize, c: usize, s: &mut [u64])
    requires tiled { Tiled w h t indices.now × (n ≡ cell_count w h t) × (c < n) }
    requires entered { Entered w t indices.now n c s.old }
    ensures { Entered w t indices.now n (c + 1) s.new }
{
    let at = n + class_in(s[c]) as usize;
    let f = s[at];
    let v = code(w, h, t, indices, c, f);
    s[c] = v;
    if f == 0 {
        s[at] = c as u64 + 1;
    }
}

// Every cell, in order.
pub fn enter_all(w: usize, h: usize, t: usize, indices: &[i16], n: usize, s: &mut [u64])
    requires tiled { Tiled w h t indices.now × (n ≡ cell_count w h t) }
    requires entered { Entered w t indices.now n 0 s.old }
    ensures { take n s.new ≡ first_cells w h t indices.now }
{
    for c in 0..n {
        enter(w, h, t, indices, n, c, s);
    }
}
