// The calls of `layer` under a plain C name, for compare/ and bench/, in the manner of `c_exports`: what a wrapper returns is
// the number, 0 where there is an answer, and the count goes to r[0]. It is proved that they are safe and end.
#![tactic(auto)]

use c_flat::tell_count;

#[unsafe(no_mangle)]
pub extern "C" fn call_flatten(
    sizes: &[usize],
    palettes: &[u8],
    labs: &[f64],
    indices: &[i16],
    out: &mut [u8],
    r: &mut [usize; 5],
) -> u8 {
    tell_count(layer::flatten(sizes, palettes, labs, indices, out), r)
}

#[unsafe(no_mangle)]
pub extern "C" fn call_repaint(
    sizes: &[usize],
    palettes: &[u8],
    labs: &[f64],
    indices: &[i16],
    edited: usize,
    w: usize,
    h: usize,
    k: usize,
    palette: &[u8],
    lab: &[f64],
    earlier: &[i16],
    out: &mut [u8],
    r: &mut [usize; 5],
) -> u8 {
    tell_count(
        layer::repaint(
            sizes, palettes, labs, indices, edited, w, h, k, palette, lab, earlier, out,
        ),
        r,
    )
}
