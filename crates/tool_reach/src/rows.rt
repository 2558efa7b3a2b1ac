// The rows that the points of a tool can reach inside the region: what it lays out and compares.
ghost use Rattle.std.specs.Prelude.{◌≡◌, Bool, false, List, [], ◌∷◌, ◌≤◌, ℤ, length};
ghost use Rattle.base.specs.Lists.{All, some};
ghost use Rattle.base.specs.Ints.{far};
ghost use Rattle.tool_line.specs.Line.{Point, point};
ghost use Rattle.tool_line.specs.Within.{Spanned};
ghost use Rattle.tool_line.specs.Brush.{stamped};
ghost use Rattle.tool_stamp.specs.Points.{rectangle_points};
ghost use Rattle.tool_stamp.specs.Places.{Brush, Close};
ghost use Rattle.tool_stamp.specs.Given.{points_of};
ghost use Rattle.tool_reach.specs.Reached.{Holds, Spans, wider};

use crate::Reach;
use base::{max_i32, min_i32};
use selection::Selection;
use tool_stamp::{Run, clip, stamp_run};

// The rows of a rectangle with corners in the rows ay and by.
pub fn rectangle_rows(region: Selection, ay: i32, by: i32) -> Run
    ensures { (ax bx : ℤ) (filled : Bool) → Holds region (rectangle_points (point ax ay) (point bx by) filled) result }
{
    let above = region.y as usize;
    clip(
        min_i32(ay, by),
        max_i32(ay, by),
        above,
        above + region.h as usize,
    )
}

// The rows of a brush of n along a path whose points lie in the rows from `low` to `high`.
fn stroke_rows(region: Selection, n: usize, low: i32, high: i32) -> Run
    requires { Brush n × Close low × Close high }
    ensures { (ps : List Point) → All (λ p. Spanned low high p.y) ps → Holds region (stamped n ps) result }
{
    let above = region.y as usize;
    let end = above + region.h as usize;
    let first = stamp_run(low, n, above, end);
    let last = stamp_run(high, n, above, end);
    Run {
        start: first.start,
        count: (last.start + last.count).saturating_sub(first.start),
    }
}

// The rows of a brush of n along a line from a point in row ay to one in row by.
pub fn line_rows(region: Selection, n: usize, ay: i32, by: i32) -> Run
    requires { Brush n × Close ay × Close by }
    ensures { (ax bx : ℤ) → Holds region (stamped n (point ax ay ∷ point bx by ∷ [])) result }
{
    stroke_rows(region, n, min_i32(ay, by), max_i32(ay, by))
}

// A least and a greatest row, with row y.
fn widen(r: Reach, y: i32) -> Reach
    ensures { result ≡ wider r y }
{
    Reach {
        low: min_i32(r.low, y),
        high: max_i32(r.high, y),
    }
}

// The least and the greatest row of some points, of which there is one at least.
fn reach_of(points: &[i32]) -> Reach
    requires { (2 ≤ length points.now) × (some far points.now ≡ false) }
    ensures { Spans (points_of points.now) result }
{
    let y = points[1];
    let mut r = Reach { low: y, high: y };
    for point in points.chunks_exact(2) {
        r = widen(r, point[1]);
    }
    r
}

// The rows of a brush of n along the lines through some points; none where there is no point.
pub fn path_rows(points: &[i32], region: Selection, n: usize) -> Run
    requires { Brush n × (some far points.now ≡ false) }
    ensures { Holds region (stamped n (points_of points.now)) result }
{
    if points.len() < 2 {
        return Run {
            start: region.y as usize,
            count: 0,
        };
    }
    let r = reach_of(points);
    stroke_rows(region, n, r.low, r.high)
}
