// The calls of `tool_draw`, `tool_flood_fill`, `tool_replace`, `tool_move`, `tool_paste` and
// `tool_clip`.
use base::{Copied, Counted};
use c_flat::{area_of, part_of, tell_chosen, tell_count, tell_got};
use selection::{Area, Shifted};

// Number i of a list, or 0.
fn at(list: &[i32], i: usize) -> i32 {
    if i < list.len() { list[i] } else { 0 }
}

// The tools that paint with an index, by number: 0 `pencil`, 1 `eraser`, 2 `line`, 3 `rectangle`, filled where the size is not
// 0, 4 `flood_fill`, 5 `replace_color` of `from`, else `fill_global`. The corners of a line and a rectangle, and the place of
// a fill, are the first points.
fn draw(
    w: usize,
    h: usize,
    k: usize,
    palette: &[u8],
    lab: &[f64],
    indices: &[i16],
    tool: u8,
    area: Area,
    points: &[i32],
    size: usize,
    index: i16,
    from: i16,
    scratch: &mut [u64],
    out: &mut [u64],
) -> Counted {
    let x = at(points, 0);
    let y = at(points, 1);
    let to_x = at(points, 2);
    let to_y = at(points, 3);
    match tool {
        0 => tool_draw::pencil(
            w, h, k, palette, lab, indices, area, points, size, index, scratch, out,
        ),
        1 => tool_draw::eraser(
            w, h, k, palette, lab, indices, area, points, size, scratch, out,
        ),
        2 => tool_draw::line(
            w, h, k, palette, lab, indices, area, x, y, to_x, to_y, size, index, scratch, out,
        ),
        3 => tool_draw::rectangle(
            w,
            h,
            k,
            palette,
            lab,
            indices,
            area,
            x,
            y,
            to_x,
            to_y,
            size != 0,
            index,
            scratch,
            out,
        ),
        4 => tool_flood_fill::flood_fill(
            w, h, k, palette, lab, indices, area, x, y, index, scratch, out,
        ),
        5 => tool_replace::replace_color(w, h, k, palette, lab, indices, area, from, index, out),
        _ => tool_replace::fill_global(w, h, k, palette, lab, indices, area, x, y, index, out),
    }
}

#[unsafe(no_mangle)]
pub extern "C" fn call_draw(
    w: usize,
    h: usize,
    k: usize,
    palette: &[u8],
    lab: &[f64],
    indices: &[i16],
    tool: u8,
    whole: bool,
    s: &[u16; 4],
    points: &[i32],
    size: usize,
    index: i16,
    from: i16,
    scratch: &mut [u64],
    out: &mut [u64],
    r: &mut [usize; 5],
) -> u8 {
    let area = area_of(whole, s);
    let counted = draw(
        w, h, k, palette, lab, indices, tool, area, points, size, index, from, scratch, out,
    );
    tell_count(counted, r)
}

// The count in r[0], and in r[1] what `tell_chosen` says of the new selection.
fn tell_shifted(m: Shifted, moved: &mut [u16; 4], r: &mut [usize; 5]) -> u8 {
    match m {
        Shifted::Changes { count, selection } => {
            r[0] = count;
            r[1] = tell_chosen(selection, moved) as usize;
            0
        }
        Shifted::Refused(n) => n,
    }
}

#[unsafe(no_mangle)]
pub extern "C" fn call_move_selection(
    w: usize,
    h: usize,
    k: usize,
    palette: &[u8],
    lab: &[f64],
    indices: &[i16],
    s: &[u16; 4],
    dx: i32,
    dy: i32,
    scratch: &mut [u64],
    out: &mut [u64],
    moved: &mut [u16; 4],
    r: &mut [usize; 5],
) -> u8 {
    tell_shifted(
        tool_move::move_selection(
            w,
            h,
            k,
            palette,
            lab,
            indices,
            part_of(s),
            dx,
            dy,
            scratch,
            out,
        ),
        moved,
        r,
    )
}

#[unsafe(no_mangle)]
pub extern "C" fn call_paste(
    w: usize,
    h: usize,
    k: usize,
    palette: &[u8],
    lab: &[f64],
    indices: &[i16],
    clip_w: usize,
    clip_h: usize,
    clip: &[i16],
    x: i32,
    y: i32,
    scratch: &mut [u64],
    out: &mut [u64],
    placed: &mut [u16; 4],
    r: &mut [usize; 5],
) -> u8 {
    tell_shifted(
        tool_paste::paste(
            w, h, k, palette, lab, indices, clip_w, clip_h, clip, x, y, scratch, out,
        ),
        placed,
        r,
    )
}

// The clip's sides.
fn tell_copied(c: Copied, r: &mut [usize; 5]) -> u8 {
    match c {
        Copied::Clip { w, h } => {
            r[0] = w;
            r[1] = h;
            0
        }
        Copied::Refused(n) => n,
    }
}

#[unsafe(no_mangle)]
pub extern "C" fn call_copy(
    w: usize,
    h: usize,
    k: usize,
    palette: &[u8],
    lab: &[f64],
    indices: &[i16],
    whole: bool,
    s: &[u16; 4],
    out: &mut [i16],
    r: &mut [usize; 5],
) -> u8 {
    tell_copied(
        tool_clip::copy(w, h, k, palette, lab, indices, area_of(whole, s), out),
        r,
    )
}

#[unsafe(no_mangle)]
pub extern "C" fn call_clip_rgba(
    w: usize,
    h: usize,
    k: usize,
    palette: &[u8],
    lab: &[f64],
    indices: &[i16],
    clip_w: usize,
    clip_h: usize,
    clip: &[i16],
    out: &mut [u8],
    r: &mut [usize; 5],
) -> u8 {
    tell_count(
        tool_clip::clip_rgba(w, h, k, palette, lab, indices, clip_w, clip_h, clip, out),
        r,
    )
}

#[unsafe(no_mangle)]
pub extern "C" fn call_snap_rgba(
    w: usize,
    h: usize,
    k: usize,
    palette: &[u8],
    lab: &[f64],
    indices: &[i16],
    loaded: bool,
    curve: &[f64],
    rgba: &[u8],
    image_w: usize,
    image_h: usize,
    out: &mut [i16],
    r: &mut [usize; 5],
) -> u8 {
    tell_copied(
        tool_clip::snap_rgba(
            w, h, k, palette, lab, indices, loaded, curve, rgba, image_w, image_h, out,
        ),
        r,
    )
}

#[unsafe(no_mangle)]
pub extern "C" fn call_eyedropper(
    w: usize,
    h: usize,
    k: usize,
    palette: &[u8],
    lab: &[f64],
    indices: &[i16],
    x: i32,
    y: i32,
    got: &mut [i16; 1],
) -> u8 {
    tell_got(
        tool_clip::eyedropper(w, h, k, palette, lab, indices, x, y),
        got,
    )
}
