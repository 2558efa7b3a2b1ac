// Change request E10's calls under plain C names, for compare/ and bench/. A wrapper returns document 01's number, 0 where
// there is an answer, whose numbers go to a small array. What the calls answer stands in their own contracts; of the
// wrappers it is proved that they are safe and end.
#![tactic(auto)]

use base::{Counted, Opened};

// The length of the line.
#[unsafe(no_mangle)]
pub extern "C" fn call_spell(
    w: usize,
    h: usize,
    k: usize,
    palette: &[u8],
    lab: &[f64],
    indices: &[i16],
    text: &mut [u8],
    r: &mut [usize; 3],
) -> u8 {
    let answer = panel_spell::spell(w, h, k, palette, lab, indices, text);
    match answer {
        Counted::Count(n) => {
            r[0] = n;
            0
        }
        Counted::Refused(no) => no,
    }
}

// Sides and palette count.
#[unsafe(no_mangle)]
pub extern "C" fn call_read_sheet(
    line: &[u8],
    palette: &mut [u8],
    lab: &mut [f64],
    indices: &mut [i16],
    r: &mut [usize; 3],
) -> u8 {
    let answer = panel_read::read_sheet(line, palette, lab, indices);
    match answer {
        Opened::Sheet { w, h, k } => {
            r[0] = w;
            r[1] = h;
            r[2] = k;
            0
        }
        Opened::Refused(no) => no,
    }
}
