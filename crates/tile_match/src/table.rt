// For each cell the first cell that it is a flip of. The cells are gone through in order, and each first cell is
// entered into a chain by its key; so a cell is compared with the first cells of one chain only.
ghost use Rattle.std.specs.Prelude.{◌≡◌, true, false, map, ◌+◌, ◌≤◌, ◌<◌, length, get_or};
ghost use Rattle.base.specs.Lists.{range};
ghost use Rattle.tile_cells.specs.Cells.{Tiled, cell_count, first_cells};
ghost use Rattle.tile_chain.specs.Table.{found_in, Chained};

use tile_chain::{FOUND, bucket, find, head_in, with_found, with_head};

// Cell c, after those before it: what is found for it, and where that is the cell itself, its chain begins with it.
// Answers false, and stops, where its chain has more than `most` cells.
fn enter(
    w: usize,
    h: usize,
    t: usize,
    indices: &[i16],
    c: usize,
    most: usize,
    s: &mut [u64],
) -> bool
    requires tiled { Tiled w h t indices.now × (c < cell_count w h t) }
    requires chained { Chained w t indices.now (cell_count w h t) c s.old }
    ensures chained_2 { result ≡ true → Chained w t indices.now (cell_count w h t) (c + 1) s.new }
    ensures most_lt_c { result ≡ false → most < c }
{
    let b = bucket(w, h, t, indices, c, s.len());
    let head = head_in(s[b]);
    let found = find(w, h, t, indices, c, most, head, s);
    if FOUND <= found {
        return false;
    }
    let v = with_found(s[c], found, head);
    s[c] = v;
    if found == c as u64 * 4 {
        let u = with_head(s[b], c as u64 + 1);
        s[b] = u;
    }
    true
}

// Every cell, in order; or false where a chain gets too long.
fn enter_all(w: usize, h: usize, t: usize, indices: &[i16], most: usize, s: &mut [u64]) -> bool
    requires tiled { Tiled w h t indices.now }
    requires chained { Chained w t indices.now (cell_count w h t) 0 s.old }
    ensures chained_2 { result ≡ true → Chained w t indices.now (cell_count w h t) (cell_count w h t) s.new }
    ensures most_bound { result ≡ false → most < cell_count w h t }
{
    let n = s.len();
    for c in 0..n {
        if !enter(w, h, t, indices, c, most, s) {
            return false;
        }
    }
    true
}

// What was found alone.
fn bare(s: &mut [u64])
    ensures { s.new ≡ map (λ i. found_in (get_or s.old i 0)) (range 0 (length s.old)) }
{
    for v in s.iter_mut() {
        *v %= FOUND;
    }
}

// For each cell, in order, the first cell that it is a flip of, times 4, and the first of the flips none, h, v, both
// (0 to 3) by which it is; or false where a chain gets more than `most` cells.
pub fn fill(w: usize, h: usize, t: usize, indices: &[i16], most: usize, s: &mut [u64]) -> bool
    requires { Tiled w h t indices.now × (length s.old ≡ cell_count w h t) }
    ensures s_after { result ≡ true → s.new ≡ first_cells w h t indices.now }
    ensures most_bound { result ≡ false → most < cell_count w h t }
{
    s.fill(0);
    if !enter_all(w, h, t, indices, most, s) {
        return false;
    }
    bare(s);
    true
}
