// The cells of a sheet numbered by their tiles, and the tiles and the map written from there.
ghost use Rattle.std.specs.Prelude.{◌≡◌, ℕ, ◌*◌, ◌/◌, ◌≤◌, ◌<◌, ◌^◌, length, get_or};
ghost use mathlib.Core.List.{map, flat_map};
ghost use Rattle.base.specs.Lists.{range, over};
ghost use Rattle.tile_cells.specs.Cells.{Tiled, cell_count, cell_of};
ghost use Rattle.tile_cells.specs.Ids.{firsts_below, id_of};
ghost use Rattle.tile_layout.specs.Numbering.{Coded, own_below, numbered, flat_id};

use tile_cells::{copy_tile, corner_of};

// The tile of each cell in the place of its first cell; answers how many tiles there are.
pub fn number_tiles(s: &mut [u64]) -> usize
    requires { Coded s.old }
    ensures { (s.new ≡ map (numbered s.old) (range 0 (length s.old)))
        × (result ≡ own_below s.old (length s.old)) }
{
    let mut m: usize = 0;
    for c in 0..s.len() {
        let v = s[c];
        let f = (v / 4) as usize;
        if f == c {
            s[c] = m as u64 * 4 + v % 4;
            m += 1;
        } else {
            s[c] = s[f] / 4 * 4 + v % 4;
        }
    }
    m
}

// The cells that are first of their tile, one after the other: tile k is the first cell with that number.
pub fn copy_tiles(w: usize, h: usize, t: usize, indices: &[i16], s: &[u64], tiles: &mut [i16])
    requires tiled { Tiled w h t indices.now × (length s.now ≡ cell_count w h t) }
    requires s_value { s.now ≡ map (id_of w t indices.now) (range 0 (cell_count w h t)) }
    requires t_in_bounds { length (firsts_below w t indices.now (cell_count w h t)) * (t * t) ≤ length tiles.old }
    ensures { tiles.new
        ≡ over (flat_map (cell_of w t indices.now) (firsts_below w t indices.now (cell_count w h t)))
        tiles.old }
{
    let mut k: usize = 0;
    for (c, v) in s.iter().enumerate() {
        if *v / 4 == k as u64 {
            let to = k * t * t;
            copy_tile(
                indices,
                corner_of(w, t, c),
                w,
                t,
                false,
                false,
                &mut tiles[to..],
            );
            k += 1;
        }
    }
}

// One entry: tile, flip h, flip v.
fn put_entry(v: u64, out: &mut [u32])
    requires { (v / 4 < 2 ^ 32) × (3 ≤ length out.old) }
    ensures { out.new ≡ over (flat_id v) out.old }
{
    out[0] = (v / 4) as u32;
    out[1] = (v % 2) as u32;
    out[2] = (v % 4 / 2) as u32;
}

// The entries of all cells.
pub fn put_map(s: &[u64], map: &mut [u32])
    requires { ((i : ℕ) → i < length s.now → get_or s.now i 0 / 4 < 2 ^ 32) × (length s.now * 3 ≤ length map.old) }
    ensures { map.new
        ≡ over (flat_map (λ i. flat_id (get_or s.now i 0)) (range 0 (length s.now)))
        map.old }
{
    for (i, v) in s.iter().enumerate() {
        let to = i * 3;
        put_entry(*v, &mut map[to..]);
    }
}
