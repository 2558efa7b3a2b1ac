// The nearest entry: `dist2` and `nearest_index` of color.rs.
ghost use Rattle.std.specs.Prelude.{◌≡◌, cond, ◌+◌, ◌*◌, ◌≤◌, length};
ghost use Rattle.std.specs.Float.Ieee.{lt};
ghost use Rattle.color_nearest.specs.Nearest.{dist2_of, distance, nearest_of, searched, joined, Searched};

use crate::{Near, Search};
use base::{Lab, lab_at};

// The squared distance of two colours.
pub fn dist2(p: Lab, q: Lab) -> f64
    ensures { result ≡ dist2_of p q }
{
    let d0 = p.l - q.l;
    let d1 = p.a - q.a;
    let d2 = p.b - q.b;
    d0 * d0 + d1 * d1 + d2 * d2
}

// How far entry i is.
fn distance_to(target: Lab, lab: &[f64], i: usize) -> f64
    requires { 3 * (i + 1) ≤ length lab.now }
    ensures { result ≡ distance target lab.now i }
{
    dist2(target, lab_at(lab, i))
}

// The nearer of two that were found, the one before where both are as near.
pub fn nearer(s: Near, u: Near) -> Near
    ensures { result ≡ cond (lt u.distance s.distance) u s }
{
    if u.distance < s.distance { u } else { s }
}

// The search goes on to entry i, which takes over where it is strictly nearer.
fn take(s: Search, target: Lab, lab: &[f64], i: usize) -> Search
    requires { 3 * (i + 1) ≤ length lab.now }
    ensures { result ≡ searched target lab.now i s }
{
    let d = distance_to(target, lab, i);
    let near = s.near;
    let here = Near {
        entry: i,
        distance: d,
    };
    Search {
        near: nearer(near, here),
        total: s.total + d,
    }
}

// What two searches found, the first of them among earlier entries.
fn join(s: Search, u: Search) -> Search
    ensures { result ≡ joined s u }
{
    let before = s.near;
    let after = u.near;
    Search {
        near: nearer(before, after),
        total: s.total + u.total,
    }
}

// The search of the first k entries. The two halves are searched side by side: neither waits for the
// other, and no branch is left in the machine code of a turn.
pub fn search_in(target: Lab, lab: &[f64], k: usize) -> Search
    requires { 3 * k ≤ length lab.now }
    ensures { Searched target lab.now k result }
{
    let start = Search {
        near: Near {
            entry: 0,
            distance: f64::INFINITY,
        },
        total: 0.0,
    };
    let half = k / 2;
    let mut s = start;
    let mut u = start;
    for i in 0..half {
        s = take(s, target, lab, i);
        u = take(u, target, lab, half + i);
    }
    let both = join(s, u);
    if half + half < k {
        return take(both, target, lab, half + half);
    }
    both
}

// The nearest of the first k entries, the first of them where several are.
pub fn nearest_in(target: Lab, lab: &[f64], k: usize) -> Near
    requires { 3 * k ≤ length lab.now }
    ensures { result ≡ nearest_of target lab.now k }
{
    let s = search_in(target, lab, k);
    s.near
}
