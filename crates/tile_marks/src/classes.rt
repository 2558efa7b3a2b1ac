// The class of each place, from the codes of the cells.
ghost use Rattle.std.specs.Prelude.{◌≡◌, ℕ, ◌+◌, ◌*◌, ◌/◌, ◌%◌, ◌≤◌, ◌<◌, ◌^◌, length, get_or};
ghost use Rattle.tile_marks.specs.Marks.{cell_of_place, class_by, Coded};

use tile_cells::{flips_h, flips_v, turn};

// The cell of place p.
fn cell_of(w: usize, t: usize, p: usize) -> usize
    requires { (0 < t) × (t ≤ w) × (p < 2 ^ 20) }
    ensures { (result ≡ cell_of_place w t p) × (result ≤ p) }
{
    p / w / t * (w / t) + p % w / t
}

// The class of place p, whose cell has this code.
fn class_by(w: usize, t: usize, code: u64, p: usize) -> usize
    requires { (0 < t) × (t ≤ w) × (class_by w t code p < 2 ^ 20) }
    ensures { result ≡ class_by w t code p }
{
    let columns = w / t;
    let f = (code / 4) as usize;
    let y = turn(flips_v(code), t, p / w % t);
    let x = turn(flips_h(code), t, p % w % t);
    (f / columns * t + y) * w + (f % columns * t + x)
}

// The class of each place over the codes of the cells. A cell's number is at most that of its places: from the last
// place on, no code is overwritten before it was read.
pub fn spread(w: usize, t: usize, s: &mut [u64])
    requires { Coded w t s.old }
    ensures { (p : ℕ) → p < length s.old
        → get_or s.new p 0 ≡ class_by w t (get_or s.old (cell_of_place w t p) 0) p }
{
    for p in (0..s.len()).rev() {
        let code = s[cell_of(w, t, p)];
        s[p] = class_by(w, t, code, p) as u64;
    }
}
