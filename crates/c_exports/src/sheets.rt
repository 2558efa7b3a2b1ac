// The calls of `sheet`, `sheet_counts` and `sheet_diff`.
use c_flat::{tell_count, tell_got};

#[unsafe(no_mangle)]
pub extern "C" fn call_check(
    w: usize,
    h: usize,
    k: usize,
    palette: &[u8],
    lab: &[f64],
    indices: &[i16],
) -> u8 {
    sheet::check(w, h, k, palette, lab, indices)
}

#[unsafe(no_mangle)]
pub extern "C" fn call_permitted_no(limited: bool, permitted: &[u8]) -> u8 {
    sheet::permitted_no(limited, permitted)
}

#[unsafe(no_mangle)]
pub extern "C" fn call_any_stray_below(indices: &[i16], k: i16) -> bool {
    sheet::any_stray_below(indices, k)
}

#[unsafe(no_mangle)]
pub extern "C" fn call_with_lab(
    w: usize,
    h: usize,
    k: usize,
    palette: &[u8],
    lab: &[f64],
    indices: &[i16],
    locks: &mut [bool],
) -> u8 {
    sheet::with_lab(w, h, k, palette, lab, indices, locks).number()
}

#[unsafe(no_mangle)]
pub extern "C" fn call_new(
    w: usize,
    h: usize,
    k: usize,
    palette: &[u8],
    lab: &mut [f64],
    indices: &[i16],
    locks: &mut [bool],
) -> u8 {
    sheet::new(w, h, k, palette, lab, indices, locks).number()
}

#[unsafe(no_mangle)]
pub extern "C" fn call_get_at(
    w: usize,
    h: usize,
    k: usize,
    palette: &[u8],
    lab: &[f64],
    indices: &[i16],
    x: i32,
    y: i32,
    got: &mut [i16; 1],
) -> u8 {
    tell_got(sheet::get_at(w, h, k, palette, lab, indices, x, y), got)
}

#[unsafe(no_mangle)]
pub extern "C" fn call_counts(
    w: usize,
    h: usize,
    k: usize,
    palette: &[u8],
    lab: &[f64],
    indices: &[i16],
    out: &mut [u32],
    r: &mut [usize; 5],
) -> u8 {
    tell_count(sheet_counts::counts(w, h, k, palette, lab, indices, out), r)
}

#[unsafe(no_mangle)]
pub extern "C" fn call_diff_mask(
    w: usize,
    h: usize,
    k: usize,
    palette: &[u8],
    lab: &[f64],
    indices: &[i16],
    base_w: usize,
    base_h: usize,
    base_k: usize,
    base: &[u8],
    base_indices: &[i16],
    mask: &mut [u8],
    r: &mut [usize; 5],
) -> u8 {
    tell_count(
        sheet_diff::diff_mask(
            w,
            h,
            k,
            palette,
            lab,
            indices,
            base_w,
            base_h,
            base_k,
            base,
            base_indices,
            mask,
        ),
        r,
    )
}
