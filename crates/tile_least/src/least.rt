// The flip in which a tile reads least, by three comparisons of two flips of the tile where it lies.
ghost use Rattle.std.specs.Prelude.{◌≡◌, ◌+◌, ◌≤◌, ◌<◌, length};
ghost use Rattle.tile_cells.specs.Seen.{row_seen, tile_seen, tile_at, Lies};
ghost use Rattle.tile_least.specs.Least.{compared_z, compared, lesser, seen_in, least_of};

use tile_cells::{flips_h, flips_v, turn};

// 1 where a is less, 2 where b is, 0 where they are the same.
fn compare(a: i16, b: i16) -> u64
    ensures { result ≡ compared_z a b }
{
    if a < b {
        return 1;
    }
    if b < a { 2 } else { 0 }
}

// The t indices from p on and those from q on, each flipped or not. The first index that differs ends it.
fn compare_rows(src: &[i16], p: usize, q: usize, t: usize, ph: bool, qh: bool) -> u64
    requires { (p + t ≤ length src.now) × (q + t ≤ length src.now) }
    ensures { result ≡ compared (row_seen src.now p t ph) (row_seen src.now q t qh) }
{
    for x in 0..t {
        let n = compare(src[p + turn(ph, t, x)], src[q + turn(qh, t, x)]);
        if n != 0 {
            return n;
        }
    }
    0
}

// Two flips of the tile at a corner. The first row that differs ends it.
fn compare_flips(
    src: &[i16],
    corner: usize,
    stride: usize,
    t: usize,
    ph: bool,
    pv: bool,
    qh: bool,
    qv: bool,
) -> u64
    requires { Lies (length src.now) corner stride t }
    ensures { result
        ≡ compared (tile_seen src.now corner stride t ph pv)
        (tile_seen src.now corner stride t qh qv) }
{
    for y in 0..t {
        let n = compare_rows(
            src,
            corner + turn(pv, t, y) * stride,
            corner + turn(qv, t, y) * stride,
            t,
            ph,
            qh,
        );
        if n != 0 {
            return n;
        }
    }
    0
}

// Of two orders the one in which the tile reads less; the first where it reads the same.
fn lesser_order(src: &[i16], corner: usize, stride: usize, t: usize, o: u64, q: u64) -> u64
    requires { Lies (length src.now) corner stride t × (o < 4) × (q < 4) }
    ensures result_value { let s = seen_in src.now corner stride t in s result ≡ lesser (s o) (s q) }
    ensures upper_bound { result < 4 }
{
    let n = compare_flips(
        src,
        corner,
        stride,
        t,
        flips_h(o),
        flips_v(o),
        flips_h(q),
        flips_v(q),
    );
    if n == 2 { q } else { o }
}

// An order of the flips none, h, v, both (0 to 3) in which the tile at a corner reads least.
pub fn least_order(src: &[i16], corner: usize, stride: usize, t: usize) -> u64
    requires { Lies (length src.now) corner stride t }
    ensures { (seen_in src.now corner stride t result ≡ least_of t (tile_at src.now corner stride t)) × (result < 4) }
{
    let upper = lesser_order(src, corner, stride, t, 0, 1);
    let lower = lesser_order(src, corner, stride, t, 2, 3);
    lesser_order(src, corner, stride, t, upper, lower)
}
