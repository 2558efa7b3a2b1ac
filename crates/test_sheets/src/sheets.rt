// The calls that look at a sheet, and the sheet that a call is given.
use crate::curves::{load_curve, snap_rgba};
use crate::drawn::list_answer;
use base::{Answer, MadeEdit};
use test_answers::{
    of_choices, of_copied, of_counted, of_extraction, of_found, of_got, of_made, of_number,
};
use test_inputs::{
    Hand, Outcome, colour, colours, deal, fill_bytes, fill_indices, fill_locks, height, mix_all,
    mix_number, pick, told, width,
};

// `new`, of which callers here need no more than that it keeps the lengths.
pub fn open(
    w: usize,
    h: usize,
    k: usize,
    palette: &[u8],
    lab: &mut [f64],
    indices: &[i16],
    locks: &mut [bool],
) -> Answer {
    editor::new(w, h, k, palette, lab, indices, locks)
}

fn with_lab(
    w: usize,
    h: usize,
    k: usize,
    palette: &[u8],
    lab: &[f64],
    indices: &[i16],
    locks: &mut [bool],
) -> Outcome {
    let no = editor::with_lab(w, h, k, palette, lab, indices, locks).number();
    told(no, mix_all(mix_number(no), locks))
}

fn new_sheet(
    w: usize,
    h: usize,
    k: usize,
    palette: &[u8],
    indices: &[i16],
    locks: &mut [bool],
) -> Outcome {
    let mut lab = [1.5f64; 765];
    let no = open(w, h, k, palette, &mut lab, indices, locks).number();
    told(no, mix_all(mix_all(mix_number(no), &lab), locks))
}

fn counts(w: usize, h: usize, k: usize, palette: &[u8], lab: &[f64], indices: &[i16]) -> Outcome {
    let mut out = [0x5a5a_5a5au32; 2];
    let t = of_counted(editor::counts(w, h, k, palette, lab, indices, &mut out));
    told(t.number, mix_all(t.print, &out))
}

// A baseline of six pixels with its own size, palette count and indices. With one entry less told than dealt, some are stray.
fn diff_mask(
    a: Hand,
    w: usize,
    h: usize,
    k: usize,
    palette: &[u8],
    lab: &[f64],
    indices: &[i16],
) -> Outcome {
    let s = a.sides;
    let mut base = [0u8; 765];
    let mut base_indices = [0i16; 6];
    let mut mask = [0x5au8; 7];
    fill_bytes(a.seeds.first, &mut base);
    fill_indices(a.seeds.seed, s.base_k, &mut base_indices);
    let base_k = if a.choice.even { 2 } else { s.base_k };
    let t = of_counted(editor::diff_mask(
        w,
        h,
        k,
        palette,
        lab,
        indices,
        s.base_w,
        s.base_h,
        base_k,
        &base,
        &base_indices,
        &mut mask,
    ));
    told(t.number, mix_all(t.print, &mask))
}

fn nearest_index(a: Hand, k: usize, lab: &[f64]) -> Outcome {
    let target = editor::rgb8_to_lab(colour(a.seeds.colour));
    of_found(editor::nearest_index(target, lab, k))
}

fn copy(
    a: Hand,
    w: usize,
    h: usize,
    k: usize,
    palette: &[u8],
    lab: &[f64],
    indices: &[i16],
) -> Outcome {
    let p = a.spot;
    let area = p.area;
    let mut out = [0x5a5ai16; 5];
    let t = of_copied(editor::copy(w, h, k, palette, lab, indices, area, &mut out));
    told(t.number, mix_all(t.print, &out))
}

fn clip_rgba(
    a: Hand,
    w: usize,
    h: usize,
    k: usize,
    palette: &[u8],
    lab: &[f64],
    indices: &[i16],
) -> Outcome {
    let s = a.sides;
    let mut out = [0x5au8; 25];
    let mut clip = [0i16; 6];
    fill_indices(a.seeds.seed, 3, &mut clip);
    let pixels = editor::clip_rgba(w, h, k, palette, lab, indices, s.w, s.h, &clip, &mut out);
    let t = of_counted(pixels);
    told(t.number, mix_all(t.print, &out))
}

fn fixed_choices(
    a: Hand,
    w: usize,
    h: usize,
    k: usize,
    palette: &[u8],
    lab: &[f64],
    indices: &[i16],
) -> Outcome {
    let mut used = [0x5au8; 3];
    let list = colours(a.seeds.listed);
    let free = !a.choice.limited;
    let t = of_choices(editor::fixed_choices(
        w, h, k, palette, lab, indices, free, &list, &mut used,
    ));
    told(t.number, mix_all(t.print, &used))
}

// `set_color` and `add_color`.
fn coloured(
    c: usize,
    a: Hand,
    w: usize,
    h: usize,
    k: usize,
    palette: &[u8],
    lab: &[f64],
    indices: &[i16],
    locks: &[bool],
) -> MadeEdit {
    let index = a.choice.from;
    let limited = a.choice.limited;
    let list = colours(a.seeds.listed);
    let rgb = colour(a.seeds.colour);
    match c {
        21 => editor::set_color(
            w, h, k, palette, lab, indices, locks, limited, &list, index, rgb,
        ),
        _ => editor::add_color(w, h, k, palette, lab, indices, limited, &list, rgb),
    }
}

fn extract(
    a: Hand,
    w: usize,
    h: usize,
    k: usize,
    palette: &[u8],
    lab: &[f64],
    indices: &[i16],
) -> Outcome {
    let mut scratch = [0u64; 6];
    let mut out = [0x5a5ai16; 4];
    let mut map = [0x5a5a_5a5au32; 19];
    let t = of_extraction(editor::extract(
        w,
        h,
        k,
        palette,
        lab,
        indices,
        a.choice.size,
        &mut out,
        &mut map,
        &mut scratch,
    ));
    told(t.number, mix_all(mix_all(t.print, &out), &map))
}

fn sheet_answer(
    c: usize,
    a: Hand,
    w: usize,
    h: usize,
    k: usize,
    palette: &[u8],
    lab: &[f64],
    indices: &[i16],
    locks: &mut [bool],
) -> Outcome {
    let x = a.spot.x;
    let y = a.spot.far_y;
    let from = a.choice.from;
    match c {
        0 => of_number(editor::check(w, h, k, palette, lab, indices)),
        1 => with_lab(w, h, k, palette, lab, indices, locks),
        2 => new_sheet(w, h, k, palette, indices, locks),
        3 => of_got(editor::get_at(w, h, k, palette, lab, indices, x, y)),
        4 => counts(w, h, k, palette, lab, indices),
        5 => diff_mask(a, w, h, k, palette, lab, indices),
        6 => nearest_index(a, k, lab),
        7 => of_got(editor::eyedropper(w, h, k, palette, lab, indices, x, y)),
        17 => copy(a, w, h, k, palette, lab, indices),
        18 => clip_rgba(a, w, h, k, palette, lab, indices),
        19 => snap_rgba(a, w, h, k, palette, lab, indices),
        20 => fixed_choices(a, w, h, k, palette, lab, indices),
        21 | 22 => of_made(coloured(c, a, w, h, k, palette, lab, indices, locks)),
        23 => of_found(editor::nearest_other(w, h, k, palette, lab, indices, from)),
        57 => extract(a, w, h, k, palette, lab, indices),
        _ => list_answer(c, a, w, h, k, palette, lab, indices, locks),
    }
}

// Makes an index stray, now and then.
fn spoil_index(wrong: usize, indices: &mut [i16]) {
    if wrong == 0 && !indices.is_empty() {
        indices[0] = 3;
    }
}

// Makes a LAB number infinite, now and then.
fn spoil_lab(wrong: usize, lab: &mut [f64]) {
    if wrong == 1 && !lab.is_empty() {
        lab[0] = 1e300 * 1e300;
    }
}

// The palette count, or one past the limit.
fn entries(wrong: usize, k: usize) -> usize {
    if wrong == 2 { 256 } else { k }
}

// A call over a sheet of six pixels with up to 3 entries and any marks, which is now and then damaged.
pub fn over_sheet(c: usize, d: &[u64; 32]) -> Outcome {
    let a = deal(d);
    let w = width(d[8]);
    let h = height(d[8]);
    let k = pick(d[10], 4);
    let wrong = pick(d[11], 24);
    let told_k = entries(wrong, k);
    let mut palette = [0u8; 765];
    let mut lab = [0.0f64; 765];
    let mut indices = [0i16; 6];
    let mut locks = [false; 255];
    fill_bytes(d[12], &mut palette);
    fill_indices(d[13], k, &mut indices);
    open(w, h, k, &palette, &mut lab, &indices, &mut locks);
    fill_locks(d[9], &mut locks);
    spoil_index(wrong, &mut indices);
    spoil_lab(wrong, &mut lab);
    if c == 63 {
        return load_curve(a, w, h, told_k, &palette, &mut lab, &indices);
    }
    sheet_answer(c, a, w, h, told_k, &palette, &lab, &indices, &mut locks)
}
