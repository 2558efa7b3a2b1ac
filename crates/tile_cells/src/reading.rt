// A tile read where it lies, from either side: t rows that are `stride` apart, from `corner` on; and the corner of a cell.
ghost use Rattle.std.specs.Prelude.{◌≡◌, ◌+◌, ◌*◌, ◌%◌, ◌≤◌, ◌<◌, ◌^◌, length};
ghost use Rattle.base.specs.Lists.{over};
ghost use Rattle.tile_cells.specs.Tile.{turned, flip_at};
ghost use Rattle.tile_cells.specs.Cells.{corner_of};
ghost use Rattle.tile_cells.specs.Seen.{row_seen, tile_seen, Lies};

// The two flips of the order that a code ends with: none, h, v, both (0 to 3).
pub fn flips_h(code: u64) -> bool
    ensures { result ≡ (flip_at (code % 4)).h }
{
    code % 2 == 1
}

pub fn flips_v(code: u64) -> bool
    ensures { result ≡ (flip_at (code % 4)).v }
{
    1 < code % 4
}

// i counted from the other side, where a flip asks for it.
pub fn turn(flip: bool, t: usize, i: usize) -> usize
    requires { i < t }
    ensures { (result ≡ turned flip t i) × (result < t) }
{
    if flip { t - 1 - i } else { i }
}

// Copies t indices from a place on to the front of out.
fn copy_row(src: &[i16], at: usize, t: usize, fh: bool, out: &mut [i16])
    requires { (at + t ≤ length src.now) × (t ≤ length out.old) }
    ensures { out.new ≡ over (row_seen src.now at t fh) out.old }
{
    for x in 0..t {
        out[x] = src[at + turn(fh, t, x)];
    }
}

// Copies a tile, flipped, to the front of out, row by row. What out has past it keeps.
pub fn copy_tile(
    src: &[i16],
    corner: usize,
    stride: usize,
    t: usize,
    fh: bool,
    fv: bool,
    out: &mut [i16],
)
    requires { Lies (length src.now) corner stride t × (t * t ≤ length out.old) }
    ensures { out.new ≡ over (tile_seen src.now corner stride t fh fv) out.old }
{
    for y in 0..t {
        let to = y * t;
        copy_row(src, corner + turn(fv, t, y) * stride, t, fh, &mut out[to..]);
    }
}

// Where cell c begins.
pub fn corner_of(w: usize, t: usize, c: usize) -> usize
    requires { (0 < t) × (t ≤ w) × (corner_of w t c < 2 ^ 20) }
    ensures { result ≡ corner_of w t c }
{
    let wt = w / t;
    c / wt * t * w + c % wt * t
}
