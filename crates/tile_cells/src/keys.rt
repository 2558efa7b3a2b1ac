// A number for a tile that flips keep: tiles with different numbers are no flips of each other.
ghost use Rattle.std.specs.Prelude.{◌≡◌, ◌+◌, ◌≤◌, ◌<◌, ◌^◌, length};
ghost use Rattle.tile_cells.specs.Seen.{row_seen, tile_seen, tile_at, Lies};
ghost use Rattle.tile_cells.specs.Key.{mixed, mixed_all, number_of, key_of, scaled};

use crate::reading::turn;
use edit_pixels::bits_of;

const RANGE: u64 = 4_294_967_296;

fn mix(n: u64, z: i16) -> u64
    requires { n < 2 ^ 32 }
    ensures { (result ≡ mixed n z) × (result < 2 ^ 32) }
{
    (n + bits_of(z) as u64) * 1_664_525 % RANGE
}

fn mix_row(src: &[i16], at: usize, t: usize, fh: bool, n: u64) -> u64
    requires { (at + t ≤ length src.now) × (n < 2 ^ 32) }
    ensures { (result ≡ mixed_all n (row_seen src.now at t fh)) × (result < 2 ^ 32) }
{
    let mut n = n;
    for x in 0..t {
        n = mix(n, src[at + turn(fh, t, x)]);
    }
    n
}

// The number of a tile, flipped.
fn number(src: &[i16], corner: usize, stride: usize, t: usize, fh: bool, fv: bool) -> u64
    requires { Lies (length src.now) corner stride t }
    ensures { (result ≡ number_of (tile_seen src.now corner stride t fh fv)) × (result < 2 ^ 32) }
{
    let mut n: u64 = 7;
    for y in 0..t {
        n = mix_row(src, corner + turn(fv, t, y) * stride, t, fh, n);
    }
    n * n / 65_536 % RANGE
}

// The numbers of a tile's four flips, added.
pub fn key(src: &[i16], corner: usize, stride: usize, t: usize) -> u64
    requires { Lies (length src.now) corner stride t }
    ensures { (result ≡ key_of t (tile_at src.now corner stride t)) × (result < 2 ^ 32) }
{
    let none = number(src, corner, stride, t, false, false);
    let h = number(src, corner, stride, t, true, false);
    let v = number(src, corner, stride, t, false, true);
    let both = number(src, corner, stride, t, true, true);
    (none + h + v + both) % RANGE
}

// A key spread over n places.
pub fn scale(key: u64, n: usize) -> usize
    requires { (key < 2 ^ 32) × (0 < n) × (n ≤ 2 ^ 20) }
    ensures { (result ≡ scaled key n) × (result < n) }
{
    (key * n as u64 / RANGE) as usize
}
