// The calls of color.rs: each answers every input.
//
// They check what they are handed, in document 01's order, and leave the work to cielab.
#![tactic(auto)]

ghost use Rattle.std.specs.Prelude.{◌≡◌, false};
ghost use Rattle.base.specs.Lists.{some};
ghost use Rattle.color_lab.specs.Curve.{Linear};
ghost use Rattle.color_lab.specs.Convert.{lab_of, Converted};
ghost use Rattle.color_doubles.specs.Finite.{unfit};
ghost use Rattle.color_nearest.specs.Nearest.{dist2_of};
ghost use Rattle.color.specs.Calls.{CubeRoot, NearestEntry};

use base::{
    BAD_SHEET, Found, Lab, MAX_ENTRIES, NO_SUCH_ENTRY, ROOT_RANGE, Rgb, Root, STORAGE, UNFIT_LAB,
};

// The linear value of a byte of sRGB.
pub fn linear(c: u8) -> f64
    ensures { Linear c result }
{
    let t = color_lab::table();
    color_lab::linear_in(&t, c)
}

// The cube root of t: the double nearest to the exact root. Outside 1/128..2, and for a NaN, 20.
pub fn cbrt(t: f64) -> Root
    ensures { CubeRoot t result }
{
    if t >= 0.0078125 {
        if t <= 2.0 {
            return Root::Value(color_root::root(t));
        }
    }
    Root::Refused(ROOT_RANGE)
}

// The CIELAB (D65) triple of a colour. Its numbers are finite for every colour.
pub fn rgb8_to_lab(rgb: Rgb) -> Lab
    ensures { Converted result (lab_of rgb) }
{
    let t = color_lab::table();
    color_lab::lab_in(&t, rgb)
}

// The squared distance of two triples, as the source computes it; for numbers that are not finite too.
pub fn dist2(p: Lab, q: Lab) -> f64
    ensures { result ≡ dist2_of p q }
{
    color_nearest::dist2(p, q)
}

// Whether some number of the entries is not finite. Where the sum of their distances from a target is
// finite, none is, and they are not gone through.
fn any_unfit_in(lab: &[f64], total: f64) -> bool
    requires { unfit total ≡ false → some unfit lab.now ≡ false }
    ensures { result ≡ some unfit lab.now }
{
    if color_doubles::is_unfit(total) {
        return color_doubles::any_unfit(lab);
    }
    false
}

// The nearest of the first k entries of a LAB storage, the first of them where several are, and its `dist2`. A k or a
// length past the limits is 1, a number among the k entries or in the target that is not finite 3, and
// no entry at all 7.
pub fn nearest_index(target: Lab, lab: &[f64], k: usize) -> Found
    ensures { NearestEntry target lab.now k result }
{
    if MAX_ENTRIES < k {
        return Found::Refused(BAD_SHEET);
    }
    if lab.len() != STORAGE {
        return Found::Refused(BAD_SHEET);
    }
    let n = 3 * k;
    let s = color_nearest::search_in(target, lab, k);
    if any_unfit_in(&lab[..n], s.total) {
        return Found::Refused(UNFIT_LAB);
    }
    if color_doubles::unfit_triple(target) {
        return Found::Refused(UNFIT_LAB);
    }
    if k == 0 {
        return Found::Refused(NO_SUCH_ENTRY);
    }
    Found::Entry {
        index: s.near.entry,
        distance: s.near.distance,
    }
}
