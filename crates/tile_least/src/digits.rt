// The indices of a tile, seen in an order, one at a time and as numbers.
ghost use Rattle.std.specs.Prelude.{◌≡◌, ◌*◌, ◌<◌, pos, length, get_or};
ghost use Rattle.tile_cells.specs.Seen.{Lies};
ghost use Rattle.tile_least.specs.Least.{seen_in, Digit};

use edit_pixels::bits_of;
use tile_cells::{flips_h, flips_v, turn};

// The index at place p of the tile at a corner, seen in an order, as the number of its 16 bits.
pub fn digit(src: &[i16], corner: usize, stride: usize, t: usize, order: u64, p: usize) -> u64
    requires { Lies (length src.now) corner stride t × (order < 4) × (p < t * t) }
    ensures { Digit (get_or (seen_in src.now corner stride t order) p (pos 0)) result }
{
    let y = turn(flips_v(order), t, p / t);
    let x = turn(flips_h(order), t, p % t);
    bits_of(src[corner + y * stride + x]) as u64
}
