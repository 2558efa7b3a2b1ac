// What bench/driver.rs times of the colours, exported to C over slices: as many calls as there are inputs,
// and none where the results have too few places. Of these loops it is proved that they stay inside and
// end; what the calls answer stands in their own contracts.
use base::{Found, Root, lab_at, put_lab, rgb_at};

// The LAB of each colour.
#[unsafe(no_mangle)]
pub extern "C" fn bench_lab(rgb: &[u8], lab: &mut [f64]) {
    let n = rgb.len() / 3;
    if lab.len() / 3 < n {
        return;
    }
    for i in 0..n {
        put_lab(lab, i, color::rgb8_to_lab(rgb_at(rgb, i)));
    }
}

// The same, with the curve's table lent once.
#[unsafe(no_mangle)]
pub extern "C" fn bench_lab_lent(rgb: &[u8], lab: &mut [f64]) {
    let n = rgb.len() / 3;
    if lab.len() / 3 < n {
        return;
    }
    let t = color_lab::table();
    for i in 0..n {
        put_lab(lab, i, color_lab::lab_in(&t, rgb_at(rgb, i)));
    }
}

// The root, or 0.0 for a refusal.
fn value_of(r: Root) -> f64 {
    match r {
        Root::Value(x) => x,
        Root::Refused(_) => 0.0,
    }
}

// The cube root of each number, or 0.0.
#[unsafe(no_mangle)]
pub extern "C" fn bench_cbrt(t: &[f64], roots: &mut [f64]) {
    if roots.len() < t.len() {
        return;
    }
    for (root, x) in roots.iter_mut().zip(t) {
        *root = value_of(color::cbrt(*x));
    }
}

// The entry, or 255, which is none, for a refusal.
fn entry_of(f: Found) -> usize {
    match f {
        Found::Entry { index, distance: _ } => index,
        Found::Refused(_) => 255,
    }
}

// The entry nearest to each triple, or 255.
#[unsafe(no_mangle)]
pub extern "C" fn bench_nearest(targets: &[f64], lab: &[f64], k: usize, found: &mut [usize]) {
    let n = targets.len() / 3;
    if found.len() < n {
        return;
    }
    for (i, entry) in found[..n].iter_mut().enumerate() {
        *entry = entry_of(color::nearest_index(lab_at(targets, i), lab, k));
    }
}

// The same without the checks of the call.
#[unsafe(no_mangle)]
pub extern "C" fn bench_nearest_in(targets: &[f64], lab: &[f64], k: usize, found: &mut [usize]) {
    let n = targets.len() / 3;
    if found.len() < n {
        return;
    }
    if lab.len() / 3 < k {
        return;
    }
    for (i, entry) in found[..n].iter_mut().enumerate() {
        *entry = color_nearest::nearest_in(lab_at(targets, i), lab, k).entry;
    }
}
