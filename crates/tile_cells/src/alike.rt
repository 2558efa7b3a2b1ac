// Whether a tile, flipped, is another one, and by which flip first.
ghost use Rattle.std.specs.Prelude.{◌≡◌, false, ◌+◌, ◌≤◌, length};
ghost use Rattle.tile_cells.specs.Tile.{same_tile, order_to};
ghost use Rattle.tile_cells.specs.Seen.{row_seen, tile_seen, tile_at, Lies};

use crate::reading::turn;
use base::both;

// Whether t indices from p on, flipped, are those from q on. No early exit.
fn same_row(src: &[i16], p: usize, q: usize, t: usize, fh: bool) -> bool
    requires { (p + t ≤ length src.now) × (q + t ≤ length src.now) }
    ensures { result ≡ same_tile (row_seen src.now p t fh) (row_seen src.now q t false) }
{
    let mut all = true;
    for x in 0..t {
        all = both(all, src[p + turn(fh, t, x)] == src[q + x]);
    }
    all
}

// Whether the tile at p, flipped, is the tile at q. The first row that differs ends it.
fn same_tile(src: &[i16], p: usize, q: usize, stride: usize, t: usize, fh: bool, fv: bool) -> bool
    requires { Lies (length src.now) p stride t × Lies (length src.now) q stride t }
    ensures { result ≡ same_tile (tile_seen src.now p stride t fh fv) (tile_at src.now q stride t) }
{
    for y in 0..t {
        if !same_row(src, p + turn(fv, t, y) * stride, q + y * stride, t, fh) {
            return false;
        }
    }
    true
}

// The first of the flips none, h, v, both by which the tile at p is the tile at q; 4 where there is none.
pub fn order_to(src: &[i16], p: usize, q: usize, stride: usize, t: usize) -> u64
    requires { Lies (length src.now) p stride t × Lies (length src.now) q stride t }
    ensures { result ≡ order_to t (tile_at src.now p stride t) (tile_at src.now q stride t) }
{
    if same_tile(src, p, q, stride, t, false, false) {
        return 0;
    }
    if same_tile(src, p, q, stride, t, true, false) {
        return 1;
    }
    if same_tile(src, p, q, stride, t, false, true) {
        return 2;
    }
    if same_tile(src, p, q, stride, t, true, true) {
        return 3;
    }
    4
}
