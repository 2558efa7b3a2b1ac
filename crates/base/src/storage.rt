// Palette storage and LAB storage, entry by entry. Each function asks its caller that the storage has the
// entry.
ghost use Rattle.std.specs.Prelude.{◌≡◌, ◌+◌, ◌*◌, ◌≤◌, length};
ghost use Rattle.base.specs.Triples.{rgb_at, lab_at, with_lab};

use crate::{Lab, Rgb};

// Entry i of a palette, or of any list of colours with three bytes each.
#[tactic(auto, unfolding(crate::specs::Triples::rgb_at))]
pub fn rgb_at(palette: &[u8], i: usize) -> Rgb
    requires { 3 * i + 3 ≤ length palette.now }
    ensures { result ≡ rgb_at palette.now i }
{
    let at = 3 * i;
    Rgb {
        r: palette[at],
        g: palette[at + 1],
        b: palette[at + 2],
    }
}

// Entry i of the LAB storage.
#[tactic(auto, unfolding(crate::specs::Triples::lab_at))]
pub fn lab_at(lab: &[f64], i: usize) -> Lab
    requires { 3 * (i + 1) ≤ length lab.now }
    ensures { result ≡ lab_at lab.now i }
{
    let at = 3 * i;
    Lab {
        l: lab[at],
        a: lab[at + 1],
        b: lab[at + 2],
    }
}

// Writes entry i of the LAB storage.
#[tactic(auto, unfolding(crate::specs::Triples::with_lab))]
pub fn put_lab(lab: &mut [f64], i: usize, x: Lab)
    requires { 3 * i + 3 ≤ length lab.old }
    ensures { lab.new ≡ with_lab lab.old i x }
{
    let at = 3 * i;
    lab[at] = x.l;
    lab[at + 1] = x.a;
    lab[at + 2] = x.b;
}
