// The calls of `selection`.
use c_flat::{NONE, area_of, part_of, tell_chosen, tell_count};
use selection::{Held, Selection};

#[unsafe(no_mangle)]
pub extern "C" fn call_all(width: usize, height: usize, out: &mut [u16; 4]) -> u8 {
    tell_chosen(Selection::all(width, height), out)
}

#[unsafe(no_mangle)]
pub extern "C" fn call_from_corners(
    ax: i32,
    ay: i32,
    bx: i32,
    by: i32,
    width: usize,
    height: usize,
    out: &mut [u16; 4],
) -> u8 {
    tell_chosen(Selection::from_corners(ax, ay, bx, by, width, height), out)
}

#[unsafe(no_mangle)]
pub extern "C" fn call_contains(s: &[u16; 4], x: usize, y: usize) -> bool {
    part_of(s).contains(x, y)
}

// 1 inside, 255 outside, else the refusal's number, which is never 1.
#[unsafe(no_mangle)]
pub extern "C" fn call_contains_i(s: &[u16; 4], x: i32, y: i32) -> u8 {
    match part_of(s).contains_i(x, y) {
        Held::Inside => 1,
        Held::Outside => NONE,
        Held::Refused(n) => n,
    }
}

#[unsafe(no_mangle)]
pub extern "C" fn call_translated(
    s: &[u16; 4],
    dx: i32,
    dy: i32,
    width: usize,
    height: usize,
    out: &mut [u16; 4],
) -> u8 {
    tell_chosen(part_of(s).translated(dx, dy, width, height), out)
}

#[unsafe(no_mangle)]
pub extern "C" fn call_grown(
    s: &[u16; 4],
    margin: usize,
    width: usize,
    height: usize,
    out: &mut [u16; 4],
) -> u8 {
    tell_chosen(part_of(s).grown(margin, width, height), out)
}

#[unsafe(no_mangle)]
pub extern "C" fn call_positions(s: &[u16; 4], out: &mut [i32], r: &mut [usize; 5]) -> u8 {
    tell_count(part_of(s).positions(out), r)
}

#[unsafe(no_mangle)]
pub extern "C" fn call_region(
    whole: bool,
    s: &[u16; 4],
    width: usize,
    height: usize,
    out: &mut [u16; 4],
) -> u8 {
    tell_chosen(selection::region(area_of(whole, s), width, height), out)
}
