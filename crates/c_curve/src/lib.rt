// Change request E6's calls under plain C names, for compare/ and bench/, in the manner of `c_exports`. What the
// calls answer stands in their own contracts; of the wrappers it is proved that they are safe and end.
#![tactic(auto)]

use base::Triple;
use c_flat::{form_of, handle_of, rgb_of, tell_lab};

// The palette count and the handle go in a list of six, as to `call_push`, and the journal's form is a number.
#[unsafe(no_mangle)]
pub extern "C" fn call_load_curve(
    w: usize,
    h: usize,
    palette: &[u8],
    lab: &mut [f64],
    indices: &[i16],
    form: u8,
    journal: &[u8],
    state: &[usize; 6],
    curve: &[f64],
) -> u8 {
    let k = state[0];
    let handle = handle_of(state);
    history_curve::load_curve(
        w,
        h,
        k,
        palette,
        lab,
        indices,
        form_of(form),
        journal,
        handle,
        curve,
    )
    .number()
}

#[unsafe(no_mangle)]
pub extern "C" fn call_rgb8_to_lab_by(
    loaded: bool,
    curve: &[f64],
    rgb: &[u8; 3],
    out: &mut [f64; 3],
) -> u8 {
    match color_curve::rgb8_to_lab_by(loaded, curve, rgb_of(rgb)) {
        Triple::Value(c) => {
            tell_lab(c, out);
            0
        }
        Triple::Refused(n) => n,
    }
}
