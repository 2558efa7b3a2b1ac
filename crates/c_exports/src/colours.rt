// The calls of `color`.
use base::{Found, Root};
use c_flat::{lab_of, rgb_of, tell_lab};

#[unsafe(no_mangle)]
pub extern "C" fn call_linear(c: u8) -> f64 {
    color::linear(c)
}

#[unsafe(no_mangle)]
pub extern "C" fn call_dist2(p: &[f64; 3], q: &[f64; 3]) -> f64 {
    color::dist2(lab_of(p), lab_of(q))
}

#[unsafe(no_mangle)]
pub extern "C" fn call_rgb8_to_lab(rgb: &[u8; 3], out: &mut [f64; 3]) {
    tell_lab(color::rgb8_to_lab(rgb_of(rgb)), out);
}

#[unsafe(no_mangle)]
pub extern "C" fn call_cbrt(t: f64, out: &mut [f64; 3]) -> u8 {
    match color::cbrt(t) {
        Root::Value(x) => {
            out[0] = x;
            0
        }
        Root::Refused(n) => n,
    }
}

// r[0] is the entry, away[0] its squared distance.
pub(crate) fn tell_found(f: Found, r: &mut [usize; 5], away: &mut [f64; 1]) -> u8 {
    match f {
        Found::Entry { index, distance } => {
            r[0] = index;
            away[0] = distance;
            0
        }
        Found::Refused(n) => n,
    }
}

#[unsafe(no_mangle)]
pub extern "C" fn call_nearest_index(
    target: &[f64; 3],
    lab: &[f64],
    k: usize,
    r: &mut [usize; 5],
    away: &mut [f64; 1],
) -> u8 {
    tell_found(color::nearest_index(lab_of(target), lab, k), r, away)
}
