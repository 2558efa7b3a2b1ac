// 8-bit sRGB to CIELAB (D65): `rgb_to_lab_one` of color.rs, its operations in its order.
ghost use Rattle.std.specs.Prelude.{◌≡◌};
ghost use Rattle.color_lab.specs.Curve.{linear_table};
ghost use Rattle.color_lab.specs.Convert.{lab_f, row_of, lab_of_linear, lab_of, LinearValues, Converted};
ghost use Rattle.color_doubles.specs.Range.{AtMost, Bounded};

use crate::LinearRgb;
use crate::curve::linear_rgb_in;
use base::{Lab, Rgb};
use color_root::root;

// CIE's f: the cube root of t where t > 216/24389, that is (6/29)^3, else (841/108) t + 16/116. For a ratio of at
// most 2 the root is never asked outside its range.
fn lab_f(t: f64) -> f64
    requires { AtMost 2 t }
    ensures { Bounded 32 result (lab_f t) }
{
    if t > 216.0 / 24389.0 {
        root(t)
    } else {
        841.0 / 108.0 * t + 16.0 / 116.0
    }
}

// A row of the matrix times a colour, summed left to right.
fn row(v: LinearRgb, m0: f64, m1: f64, m2: f64) -> f64
    ensures { result ≡ row_of v m0 m1 m2 }
{
    v.r * m0 + v.g * m1 + v.b * m2
}

// The steps after the curve, for any three linear values from 0 to 1, in the order of CIE 15:2004: the
// three ratios, their f values, then L*, a*, b*, each beside the text's own formula.
pub fn lab_of_linear(v: LinearRgb) -> Lab
    requires { LinearValues v }
    ensures { Converted result (lab_of_linear v) }
{
    let x = row(v, 0.412453, 0.357580, 0.180423) / 0.95047; // X/Xn
    let y = row(v, 0.212671, 0.715160, 0.072169) / 1.0; // Y/Yn
    let z = row(v, 0.019334, 0.119193, 0.950227) / 1.08883; // Z/Zn
    let fx = lab_f(x); // f(X/Xn)
    let fy = lab_f(y); // f(Y/Yn)
    let fz = lab_f(z); // f(Z/Zn)
    let l = 116.0 * fy - 16.0; // L* = 116 f(Y/Yn) - 16
    let a = 500.0 * (fx - fy); // a* = 500 [f(X/Xn) - f(Y/Yn)]
    let b = 200.0 * (fy - fz); // b* = 200 [f(Y/Yn) - f(Z/Zn)]
    Lab { l, a, b }
}

// The LAB of a colour, with the curve's table lent.
pub fn lab_in(t: &[f64; 245], rgb: Rgb) -> Lab
    requires { t.now ≡ linear_table }
    ensures { Converted result (lab_of rgb) }
{
    lab_of_linear(linear_rgb_in(t, rgb))
}
