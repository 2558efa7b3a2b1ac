// A stamp of a square brush, clipped to the region and painted.
ghost use Rattle.std.specs.Prelude.{◌≡◌, [], ◌∷◌, ◌-◌, ◌/◌, pos, ◌+ℤ◌, ◌-ℤ◌, length};
ghost use Rattle.selection.specs.Region.{Fits};
ghost use Rattle.tool_line.specs.Line.{point};
ghost use Rattle.tool_line.specs.Brush.{clamped};
ghost use Rattle.tool_stamp.specs.Places.{set_all, clipped, stamp_places, Brush, Close};

use crate::Run;
use crate::paint::{clip, paint_box};
use selection::Selection;

// A brush's size: 1 to 8.
pub fn clamp(size: usize) -> usize
    ensures { result ≡ clamped size }
{
    if size < 1 {
        return 1;
    }
    if 8 < size {
        return 8;
    }
    size
}

// One axis of a brush of n places at z, which starts (n - 1) / 2 before it: what lies from `from` on and below
// `end`.
pub fn stamp_run(z: i32, n: usize, from: usize, end: usize) -> Run
    requires { Brush n × Close z }
    ensures { result ≡ clipped (z -ℤ pos ((n - 1) / 2)) (z -ℤ pos ((n - 1) / 2) +ℤ pos (n - 1)) from end }
{
    let first = z - ((n - 1) / 2) as i32;
    clip(first, first + (n - 1) as i32, from, end)
}

// The brush at (x, y), as far as the region has it.
pub fn paint_stamp(
    scratch: &mut [u64],
    w: usize,
    region: Selection,
    n: usize,
    x: i32,
    y: i32,
    v: u64,
)
    requires { Fits w (length scratch.old) region × Brush n × Close x × Close y }
    ensures { scratch.new ≡ set_all (stamp_places region w n (point x y ∷ [])) v scratch.old }
{
    let left = region.x as usize;
    let above = region.y as usize;
    let across = stamp_run(x, n, left, left + region.w as usize);
    let down = stamp_run(y, n, above, above + region.h as usize);
    paint_box(scratch, w, across, down, v);
}
