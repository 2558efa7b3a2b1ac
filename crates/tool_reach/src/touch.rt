// The steps of a line at which a brush touches a region: where it touches nothing, no step is walked.
ghost use Rattle.std.specs.Prelude.{◌≡◌, ℕ, ◌≤◌};
ghost use Rattle.tool_line.specs.Line.{point, Near};
ghost use Rattle.tool_line.specs.Steps.{OfLine, place_on, among};
ghost use Rattle.tool_stamp.specs.Places.{Brush};
ghost use Rattle.tool_reach.specs.Touching.{touches, Touched, Inside};

use base::{max_usize, min_usize};
use selection::Selection;
use tool_line::{Steps, longer, steps_within};

// The steps of the line from a to b, but the first, at which a brush of n touches the region.
pub fn touched_steps(region: Selection, n: usize, ax: i32, ay: i32, bx: i32, by: i32) -> Steps
    requires { Inside region × Brush n × Near (point ax ay) × Near (point bx by) }
    ensures { Touched region n (point ax ay) (point bx by) result }
{
    let m = longer(ax, ay, bx, by);
    let left = region.x as usize;
    let above = region.y as usize;
    let x = touching(ax, bx, m, n, left, left + region.w as usize);
    let y = touching(ay, by, m, n, above, above + region.h as usize);
    Steps {
        first: max_usize(1, max_usize(x.first, y.first)),
        end: min_usize(m + 1, min_usize(x.end, y.end)),
    }
}

// The steps at which one axis of a brush of n has a place from `from` on and below `end`; m is the line's longer
// side.
fn touching(a: i32, b: i32, m: usize, n: usize, from: usize, end: usize) -> Steps
    requires { OfLine a b m × Brush n × (from ≤ 1024) × (end ≤ 1024) }
    ensures { (j : ℕ) → j ≤ m → among result j ≡ touches n (place_on a b m j) from end }
{
    if end <= from {
        return Steps { first: 0, end: 0 };
    }
    let before = (n - 1) / 2;
    let behind = n - 1 - before;
    steps_within(a, b, m, from as i32 - behind as i32, (end + before) as i32)
}
