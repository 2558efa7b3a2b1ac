// LAB storage from palette bytes.
ghost use Rattle.std.specs.Prelude.{◌≡◌, ◌*◌, ◌≤◌, length, take};
ghost use Rattle.base.specs.Lists.{over};
ghost use Rattle.base.specs.Checks.{first_of};
ghost use Rattle.color_curve.specs.Curve.{curve_of, lab_by, curve_checks};
ghost use Rattle.sheet.specs.Document.{labs_by};

use base::{put_lab, rgb_at};
use color_curve::lab_in;

// Works out the LAB of the first k entries from their bytes, by the session's curve. The others keep. The table of
// sRGB's is made once.
pub fn fill_labs(palette: &[u8], lab: &mut [f64], k: usize, loaded: bool, curve: &[f64])
    requires { (3 * k ≤ length palette.now) × (3 * k ≤ length lab.old)
        × (first_of (curve_checks (curve_of loaded curve.now)) ≡ 0) }
    ensures { lab.new
        ≡ over (labs_by (lab_by (curve_of loaded curve.now)) (take (3 * k) palette.now)) lab.old }
{
    let t = color_lab::table();
    for i in 0..k {
        put_lab(lab, i, lab_in(&t, loaded, curve, rgb_at(palette, i)));
    }
}
