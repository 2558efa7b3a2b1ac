// The calls that list changes of a sheet.
use test_answers::{of_counted, of_removal, of_removed, of_shifted};
use test_inputs::{Hand, Outcome, mix_all, told};
use test_lists::{draw, merge, remove, shift};

const FREE: u64 = 0x5a5a_5a5a_5a5a_5a5a;

fn drawn(
    c: usize,
    a: Hand,
    w: usize,
    h: usize,
    k: usize,
    palette: &[u8],
    lab: &[f64],
    indices: &[i16],
) -> Outcome {
    let mut scratch = [0u64; 6];
    let mut out = [FREE; 4];
    let counted = draw(c, a, w, h, k, palette, lab, indices, &mut scratch, &mut out);
    let t = of_counted(counted);
    told(t.number, mix_all(t.print, &out))
}

fn shifted(
    c: usize,
    a: Hand,
    w: usize,
    h: usize,
    k: usize,
    palette: &[u8],
    lab: &[f64],
    indices: &[i16],
) -> Outcome {
    let mut scratch = [0u64; 6];
    let mut out = [FREE; 4];
    let moved = shift(c, a, w, h, k, palette, lab, indices, &mut scratch, &mut out);
    let t = of_shifted(moved);
    told(t.number, mix_all(t.print, &out))
}

fn removed(
    a: Hand,
    w: usize,
    h: usize,
    k: usize,
    palette: &[u8],
    lab: &[f64],
    indices: &[i16],
    locks: &[bool],
) -> Outcome {
    let mut out = [FREE; 3];
    let t = of_removed(remove(a, w, h, k, palette, lab, indices, locks, &mut out));
    told(t.number, mix_all(t.print, &out))
}

fn merged(
    a: Hand,
    w: usize,
    h: usize,
    k: usize,
    palette: &[u8],
    lab: &[f64],
    indices: &[i16],
    locks: &[bool],
) -> Outcome {
    let mut out = [FREE; 3];
    let t = of_removal(merge(a, w, h, k, palette, lab, indices, locks, &mut out));
    told(t.number, mix_all(t.print, &out))
}

pub(crate) fn list_answer(
    c: usize,
    a: Hand,
    w: usize,
    h: usize,
    k: usize,
    palette: &[u8],
    lab: &[f64],
    indices: &[i16],
    locks: &[bool],
) -> Outcome {
    match c {
        15 | 16 => shifted(c, a, w, h, k, palette, lab, indices),
        24 => removed(a, w, h, k, palette, lab, indices, locks),
        25 => merged(a, w, h, k, palette, lab, indices, locks),
        _ => drawn(c, a, w, h, k, palette, lab, indices),
    }
}
