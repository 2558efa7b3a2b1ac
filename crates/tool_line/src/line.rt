// The points of a line as a call: `bresenham` of tools.rs.
ghost use Rattle.std.specs.Prelude.{◌≡◌, ◌+◌, ◌*◌, ◌<◌, length, set};
ghost use Rattle.base.specs.Answer.{filled};
ghost use Rattle.base.specs.Lists.{over};
ghost use Rattle.tool_line.specs.Line.{point, far_point, line_of, flat};
ghost use Rattle.tool_line.specs.Bresenham.{bresenham_of, Room};

use crate::Walk;
use crate::along::{begin, step};
use base::{Counted, NO_SPACE, TOO_FAR, is_far};

// The points of the line from a to b, both included, as x then y. What lies past them keeps its bits. A
// coordinate past the limit is 15; where out has no room for them all, the answer is 16.
pub fn bresenham(ax: i32, ay: i32, bx: i32, by: i32, out: &mut [i32]) -> Counted
    ensures { filled result out.new ≡ bresenham_of (point ax ay) (point bx by) out.old }
{
    if far_point(ax, ay) {
        return Counted::Refused(TOO_FAR);
    }
    if far_point(bx, by) {
        return Counted::Refused(TOO_FAR);
    }
    let w = begin(ax, ay, bx, by);
    let count = w.steps + 1;
    if out.len() / 2 < count {
        return Counted::Refused(NO_SPACE);
    }
    write_line(ax, ay, bx, by, out);
    Counted::Count(count)
}

// Writes the points of a line to the front of out, which has room for them.
fn write_line(ax: i32, ay: i32, bx: i32, by: i32, out: &mut [i32])
    requires { Room (point ax ay) (point bx by) out.old }
    ensures { out.new ≡ over (flat (line_of (point ax ay) (point bx by))) out.old }
{
    let mut w = begin(ax, ay, bx, by);
    let steps = w.steps;
    for j in 0..steps {
        put_point(w, j, out);
        w = step(w);
    }
    put_point(w, steps, out);
}

// Writes the point that a walk stands at as the i-th point of out.
fn put_point(w: Walk, i: usize, out: &mut [i32])
    requires { 2 * i + 1 < length out.old }
    ensures { out.new ≡ set (set out.old (2 * i) w.x.at) (2 * i + 1) w.y.at }
{
    let x = w.x.at;
    let y = w.y.at;
    let at = 2 * i;
    out[at] = x;
    out[at + 1] = y;
}

// Number 15 of a point.
pub fn far_point(x: i32, y: i32) -> bool
    ensures { result ≡ far_point (point x y) }
{
    is_far(x) || is_far(y)
}
