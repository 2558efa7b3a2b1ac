// Stamps of a square brush along lines.
ghost use Rattle.std.specs.Prelude.{◌≡◌, false, [], ◌∷◌, ◌-◌, ◌/◌, ◌%◌, pos, ◌+ℤ◌, ◌-ℤ◌, length, drop};
ghost use Rattle.base.specs.Lists.{some};
ghost use Rattle.base.specs.Ints.{far};
ghost use Rattle.selection.specs.Region.{Fits};
ghost use Rattle.tool_line.specs.Line.{point, Near, line_of};
ghost use Rattle.tool_line.specs.Brush.{clamped, path_of};
ghost use Rattle.tool_stamp.specs.Places.{set_all, clipped, stamp_places, Brush, Close};
ghost use Rattle.tool_stamp.specs.Given.{points_of};

use selection::Selection;
use tool_line::{stand_at, step};
use tool_reach::touched_steps;
use tool_stamp::paint_stamp;

// The brush at each point of the line from a to b but the first. Only the steps at which it touches the region are
// walked, so a line costs what it paints, however far its ends are.
fn paint_line(
    scratch: &mut [u64],
    w: usize,
    region: Selection,
    n: usize,
    ax: i32,
    ay: i32,
    bx: i32,
    by: i32,
    v: u64,
)
    requires { Fits w (length scratch.old) region × Brush n × Near (point ax ay) × Near (point bx by) }
    ensures { scratch.new
        ≡ set_all (stamp_places region w n (drop 1 (line_of (point ax ay) (point bx by)))) v scratch.old }
{
    let steps = touched_steps(region, n, ax, ay, bx, by);
    let first = steps.first;
    let end = steps.end;
    if end <= first {
        return;
    }
    let mut walk = stand_at(ax, ay, bx, by, first - 1);
    for j in first..end {
        walk = step(walk);
        paint_stamp(scratch, w, region, n, walk.x.at, walk.y.at, v);
    }
}

// The brush at each point of the line from a to b.
pub fn paint_two(
    scratch: &mut [u64],
    w: usize,
    region: Selection,
    n: usize,
    ax: i32,
    ay: i32,
    bx: i32,
    by: i32,
    v: u64,
)
    requires { Fits w (length scratch.old) region × Brush n × Near (point ax ay) × Near (point bx by) }
    ensures { scratch.new
        ≡ set_all (stamp_places region w n (path_of (point ax ay ∷ point bx by ∷ []))) v scratch.old }
{
    paint_stamp(scratch, w, region, n, ax, ay, v);
    paint_line(scratch, w, region, n, ax, ay, bx, by, v);
}

// The brush along the lines through some points.
pub fn paint_path(
    points: &[i32],
    scratch: &mut [u64],
    w: usize,
    region: Selection,
    n: usize,
    v: u64,
)
    requires { Fits w (length scratch.old) region × Brush n × (some far points.now ≡ false) × (length points.now % 2 ≡ 0) }
    ensures { scratch.new
        ≡ set_all (stamp_places region w n (path_of (points_of points.now))) v scratch.old }
{
    if points.len() < 2 {
        return;
    }
    paint_stamp(scratch, w, region, n, points[0], points[1], v);
    for i in (2..points.len()).step_by(2) {
        paint_line(
            scratch,
            w,
            region,
            n,
            points[i - 2],
            points[i - 1],
            points[i],
            points[i + 1],
            v,
        );
    }
}
