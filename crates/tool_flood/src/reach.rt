// The marks: start, and from it each place that is reached.
ghost use Rattle.std.specs.Prelude.{◌≡◌, ◌/◌, ◌%◌, ◌≤◌, ◌<◌, length, get_or};
ghost use Rattle.tool_fill_model.specs.Flood.{neighbour, passable};
ghost use Rattle.tool_fill_model.specs.Cells.{Ground, odds, marked, queued, Stepped, Fills};

use selection::Selection;

// The neighbour of p, of n places in rows of w, on side d (left, right, above, below), or n.
fn neighbour(w: usize, n: usize, p: usize, d: usize) -> usize
    requires { (0 < w) × (w ≤ 1024) × (p < n) × (n ≤ 1048576) }
    ensures { result ≡ neighbour w n p d }
{
    if d == 0 {
        if p % w == 0 {
            return n;
        }
        return p - 1;
    }
    if d == 1 {
        if p % w + 1 == w {
            return n;
        }
        return p + 1;
    }
    if d == 2 {
        if p < w {
            return n;
        }
        return p - w;
    }
    if p + w < n {
        return p + w;
    }
    n
}

// Whether a place has the index at start, and is in the region.
fn passes(w: usize, indices: &[i16], region: Selection, start: usize, p: usize) -> bool
    requires { (0 < w) × (start < length indices.now) × (p < length indices.now) }
    ensures { result ≡ passable w indices.now region start p }
{
    if indices[p] != indices[start] {
        return false;
    }
    region.contains(p % w, p / w)
}

// Marks q, and puts it at the queue's end.
fn push(s: &mut [u64], tail: usize, q: usize)
    requires { (q < length s.old) × (tail < length s.old) × (length s.old ≤ 1048576) × (get_or s.old q 0 % 2 ≡ 1 → ⊥) }
    ensures { s.new ≡ queued (marked s.old q) tail q }
{
    s[q] += 1;
    s[tail] = s[tail] % 2 + 2 * (q as u64);
}

// Place q marked and queued, where it passes and is not marked yet; answers the queue's end.
fn step(
    w: usize,
    indices: &[i16],
    region: Selection,
    start: usize,
    s: &mut [u64],
    tail: usize,
    q: usize,
) -> usize
    requires { Ground w indices.now start s.old × (odds s.old ≡ tail) }
    ensures { Stepped (passable w indices.now region start q) s.old tail q s.new result }
{
    if s.len() <= q {
        return tail;
    }
    if s[q] % 2 == 1 {
        return tail;
    }
    if !passes(w, indices, region, start, q) {
        return tail;
    }
    push(s, tail, q);
    tail + 1
}

// The place that a cell has of the queue.
fn place_in(c: u64) -> usize
    ensures { result ≡ c / 2 }
{
    (c / 2) as usize
}

// Marks what is reached from start.
pub(crate) fn reach(w: usize, indices: &[i16], region: Selection, start: usize, s: &mut [u64])
    requires { Ground w indices.now start s.old }
    ensures { Fills w indices.now region start s.new }
{
    s.fill(0);
    push(s, 0, start);
    let n = indices.len();
    let mut head: usize = 0;
    let mut tail: usize = 1;
    while head < tail {
        let p = place_in(s[head]);
        for d in 0..4 {
            let q = neighbour(w, n, p, d);
            tail = step(w, indices, region, start, s, tail, q);
        }
        head += 1;
    }
}
