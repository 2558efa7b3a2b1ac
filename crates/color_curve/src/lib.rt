// A maker's own curve, document 02's E6: whether 256 doubles are one, and the LAB of a colour by the curve of a session.
//
// A session's curve is lent as `loaded, curve`. Not loaded, the curve is sRGB's and the slice is not looked at.
#![tactic(auto)]

ghost use Rattle.std.specs.Prelude.{◌≡◌, true};
ghost use Rattle.base.specs.Checks.{first_of};
ghost use Rattle.color_lab.specs.Curve.{linear_table};
ghost use Rattle.color_lab.specs.Convert.{Converted};
ghost use Rattle.color_curve.specs.Curve.{curve_of, rising, fit_curve, lab_on, lab_by, curve_checks, CurveFits, LabBy};

use base::{Lab, Rgb, Triple, UNFIT_CURVE};
use color_lab::{LinearRgb, lab_of_linear, table};

// The values of a curve, one a byte.
const VALUES: usize = 256;

// Whether each value is greater than the one before. A NaN is not.
fn is_rising(values: &[f64]) -> bool
    ensures { result ≡ rising values.now }
{
    values.is_sorted_by(|x, y| *x < *y)
}

// Whether these are the 256 values of a curve: the first 0, the last 1, each greater than the one before.
pub fn is_curve(values: &[f64]) -> bool
    ensures { result ≡ fit_curve values.now }
{
    if values.len() != VALUES {
        return false;
    }
    if values[0] != 0.0 {
        return false;
    }
    if values[255] != 1.0 {
        return false;
    }
    is_rising(values)
}

// 25 where a curve is loaded that is none, or 0.
pub fn curve_no(loaded: bool, curve: &[f64]) -> u8
    ensures { result ≡ first_of (curve_checks (curve_of loaded curve.now)) }
{
    if loaded {
        if !is_curve(curve) {
            return UNFIT_CURVE;
        }
    }
    0
}

// The LAB of a colour from a curve's values.
fn lab_on(curve: &[f64], rgb: Rgb) -> Lab
    requires { fit_curve curve.now ≡ true }
    ensures { Converted result (lab_on curve.now rgb) }
{
    lab_of_linear(LinearRgb {
        r: curve[rgb.r as usize],
        g: curve[rgb.g as usize],
        b: curve[rgb.b as usize],
    })
}

// The LAB of a colour by the session's curve, with the table of sRGB's lent.
pub fn lab_in(t: &[f64; 245], loaded: bool, curve: &[f64], rgb: Rgb) -> Lab
    requires { (t.now ≡ linear_table) × CurveFits (curve_of loaded curve.now) }
    ensures { Converted result (lab_by (curve_of loaded curve.now) rgb) }
{
    if loaded {
        return lab_on(curve, rgb);
    }
    color_lab::lab_in(t, rgb)
}

// The same of one colour alone.
pub fn lab_by(loaded: bool, curve: &[f64], rgb: Rgb) -> Lab
    requires { CurveFits (curve_of loaded curve.now) }
    ensures { Converted result (lab_by (curve_of loaded curve.now) rgb) }
{
    if loaded {
        return lab_on(curve, rgb);
    }
    let t = table();
    color_lab::lab_in(&t, rgb)
}

// The CIELAB (D65) triple of a colour by the session's curve. Its numbers are finite for every colour and every curve
// that is one; for what is none 25.
pub fn rgb8_to_lab_by(loaded: bool, curve: &[f64], rgb: Rgb) -> Triple
    ensures { LabBy (curve_of loaded curve.now) rgb result }
{
    let no = curve_no(loaded, curve);
    if no != 0 {
        return Triple::Refused(no);
    }
    Triple::Value(lab_by(loaded, curve, rgb))
}
