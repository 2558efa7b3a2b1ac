// The calls that take or give a list of changes, over lists of numbers. compare/structs puts compare/lent.txt in the place of
// this file: the same functions over change structs.
#![tactic(auto)]

use base::{Counted, Removal, Removed};
pub use editor::{extend, mark_saved, normalize, pixels, push, redo, replay, undo};
use selection::Shifted;
use test_inputs::{Hand, fill_indices, fill_list};

// The tools that paint with an index, `replace_color` and `fill_global`, and `mirror_tiles` on two changes.
pub fn draw(
    c: usize,
    a: Hand,
    w: usize,
    h: usize,
    k: usize,
    palette: &[u8],
    lab: &[f64],
    indices: &[i16],
    scratch: &mut [u64],
    out: &mut [u64],
) -> Counted {
    let p = a.spot;
    let area = p.area;
    let size = a.choice.size;
    let index = a.choice.index;
    let path = [p.x, p.y, p.to_x, p.to_y];
    let mut list = [0u64; 2];
    fill_list(a.seeds.seed, &mut list);
    match c {
        8 => editor::pencil(
            w, h, k, palette, lab, indices, area, &path, size, index, scratch, out,
        ),
        9 => editor::eraser(
            w, h, k, palette, lab, indices, area, &path, size, scratch, out,
        ),
        10 => editor::line(
            w, h, k, palette, lab, indices, area, p.x, p.y, p.to_x, p.far_to_y, size, index,
            scratch, out,
        ),
        11 => editor::rectangle(
            w,
            h,
            k,
            palette,
            lab,
            indices,
            area,
            p.x,
            p.y,
            p.to_x,
            p.to_y,
            a.choice.even,
            index,
            scratch,
            out,
        ),
        12 => editor::flood_fill(
            w, h, k, palette, lab, indices, area, p.x, p.y, index, scratch, out,
        ),
        13 => editor::replace_color(
            w,
            h,
            k,
            palette,
            lab,
            indices,
            area,
            a.choice.other,
            index,
            out,
        ),
        14 => editor::fill_global(w, h, k, palette, lab, indices, area, p.x, p.y, index, out),
        _ => editor::mirror_tiles(
            w,
            h,
            k,
            palette,
            lab,
            indices,
            area,
            !a.seeds.hit,
            size,
            &list,
            scratch,
            out,
        ),
    }
}

// `move_selection`, and `paste` of a clip of six pixels.
pub fn shift(
    c: usize,
    a: Hand,
    w: usize,
    h: usize,
    k: usize,
    palette: &[u8],
    lab: &[f64],
    indices: &[i16],
    scratch: &mut [u64],
    out: &mut [u64],
) -> Shifted {
    let x = a.spot.x;
    let y = a.spot.y;
    let mut clip = [0i16; 6];
    fill_indices(a.seeds.seed, 3, &mut clip);
    match c {
        15 => editor::move_selection(
            w,
            h,
            k,
            palette,
            lab,
            indices,
            a.spot.part,
            x,
            y,
            scratch,
            out,
        ),
        _ => editor::paste(
            w, h, k, palette, lab, indices, a.sides.w, a.sides.h, &clip, x, y, scratch, out,
        ),
    }
}

pub fn remove(
    a: Hand,
    w: usize,
    h: usize,
    k: usize,
    palette: &[u8],
    lab: &[f64],
    indices: &[i16],
    locks: &[bool],
    out: &mut [u64],
) -> Removed {
    editor::remove_entry(w, h, k, palette, lab, indices, locks, a.choice.from, out)
}

pub fn merge(
    a: Hand,
    w: usize,
    h: usize,
    k: usize,
    palette: &[u8],
    lab: &[f64],
    indices: &[i16],
    locks: &[bool],
    out: &mut [u64],
) -> Removal {
    let from = a.choice.from;
    let into = a.choice.into;
    editor::merge_entries(w, h, k, palette, lab, indices, locks, from, into, out)
}
