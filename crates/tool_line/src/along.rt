// The walk along a line, one point after the other and without a division.
ghost use Rattle.std.specs.Prelude.{◌≡◌, false, ℕ, ◌+◌, ◌<◌, ℤ};
ghost use Rattle.base.specs.Ints.{far};
ghost use Rattle.tool_line.specs.Line.{Point, point, Near, side, longer};
ghost use Rattle.tool_line.specs.Walk.{direction, half, axis_at, StandsAt, Walking, Fit};

use crate::{Axis, Walk};

// At the first point of the line from a to b.
pub fn begin(ax: i32, ay: i32, bx: i32, by: i32) -> Walk
    requires { Near (point ax ay) × Near (point bx by) }
    ensures { StandsAt (point ax ay) (point bx by) 0 result }
{
    let steps = longer(ax, ay, bx, by);
    Walk {
        x: begin_axis(ax, bx, steps),
        y: begin_axis(ay, by, steps),
        steps: steps,
    }
}

// At the next point, of a walk that is not at its end.
pub fn step(w: Walk) -> Walk
    requires { Walking w }
    ensures { (a b : Point) (j : ℕ) → StandsAt a b j w → j < longer a b → StandsAt a b (j + 1) result }
{
    let m = w.steps;
    let x = w.x;
    let y = w.y;
    Walk {
        x: step_axis(x, m),
        y: step_axis(y, m),
        steps: m,
    }
}

// One axis after one more step of a line whose longer side is m.
fn step_axis(c: Axis, m: usize) -> Axis
    requires { Fit c m }
    ensures { (a b : ℤ) (j : ℕ) → c ≡ axis_at a b m j → result ≡ axis_at a b m (j + 1) }
{
    let rest = c.rest + 2 * c.side;
    if rest < 2 * m {
        return Axis {
            at: c.at,
            step: c.step,
            side: c.side,
            rest: rest,
        };
    }
    Axis {
        at: c.at + c.step,
        step: c.step,
        side: c.side,
        rest: rest - 2 * m,
    }
}

// One axis at the first point of a line whose longer side is m.
fn begin_axis(a: i32, b: i32, m: usize) -> Axis
    requires { (far a ≡ false) × (far b ≡ false) }
    ensures { result ≡ axis_at a b m 0 }
{
    Axis {
        at: a,
        step: direction(a, b),
        side: side(a, b),
        rest: half(a, b, m),
    }
}

// The rest that an axis begins with: m, half of what a place is counted in, and one less toward greater
// coordinates, where an exact half stays below.
pub(crate) fn half(a: i32, b: i32, m: usize) -> usize
    ensures { result ≡ half a b m }
{
    if a < b { m.saturating_sub(1) } else { m }
}

// How many steps the line from a to b has: its longer side.
pub fn longer(ax: i32, ay: i32, bx: i32, by: i32) -> usize
    requires { Near (point ax ay) × Near (point bx by) }
    ensures { result ≡ longer (point ax ay) (point bx by) }
{
    side(ax, bx).max(side(ay, by))
}

// How far it is from a to b.
pub(crate) fn side(a: i32, b: i32) -> usize
    requires { (far a ≡ false) × (far b ≡ false) }
    ensures { result ≡ side a b }
{
    if b < a {
        return (a - b) as usize;
    }
    (b - a) as usize
}

// One place from a toward b.
pub(crate) fn direction(a: i32, b: i32) -> i32
    ensures { result ≡ direction a b }
{
    if b < a { -1 } else { 1 }
}
