// The calls of `tool_line`, `change_op` and `change_stroke`.
use base::{Counted, MadeOp};
use c_flat::{NO_EDIT, edit_of, is_edit, tell_count, tell_edit, tell_truth};
use change_stroke::Stroke;

#[unsafe(no_mangle)]
pub extern "C" fn call_bresenham(
    ax: i32,
    ay: i32,
    bx: i32,
    by: i32,
    out: &mut [i32],
    r: &mut [usize; 5],
) -> u8 {
    tell_count(tool_line::bresenham(ax, ay, bx, by, out), r)
}

#[unsafe(no_mangle)]
pub extern "C" fn call_normalize(
    list: &[u64],
    scratch: &mut [u64],
    out: &mut [u64],
    r: &mut [usize; 5],
) -> u8 {
    tell_count(change_op::normalize(list, scratch, out), r)
}

// An edit and how many changes it has: r[1] is the count.
fn tell_made(m: MadeOp, bytes: &mut [u8; 8], doubles: &mut [f64; 3], r: &mut [usize; 5]) -> u8 {
    match m {
        MadeOp::Op { edit, count } => {
            tell_edit(edit, bytes, doubles, r);
            r[1] = count;
            0
        }
        MadeOp::Refused(n) => n,
    }
}

#[unsafe(no_mangle)]
pub extern "C" fn call_pixels(
    tool: u8,
    list: &[u64],
    scratch: &mut [u64],
    out: &mut [u64],
    bytes: &mut [u8; 8],
    doubles: &mut [f64; 3],
    r: &mut [usize; 5],
) -> u8 {
    tell_made(
        change_op::pixels(tool, list, scratch, out),
        bytes,
        doubles,
        r,
    )
}

#[unsafe(no_mangle)]
pub extern "C" fn call_is_empty(
    bytes: &[u8; 8],
    index: usize,
    doubles: &[f64; 3],
    list: &[u64],
    r: &mut [usize; 5],
) -> u8 {
    if !is_edit(bytes) {
        return NO_EDIT;
    }
    tell_truth(change_op::is_empty(edit_of(bytes, index, doubles), list), r)
}

#[unsafe(no_mangle)]
pub extern "C" fn call_kind(bytes: &[u8; 8], index: usize, doubles: &[f64; 3]) -> u8 {
    if !is_edit(bytes) {
        return NO_EDIT;
    }
    change_op::kind(edit_of(bytes, index, doubles))
}

#[unsafe(no_mangle)]
pub extern "C" fn call_extend(
    stroke: &mut [u64],
    count: usize,
    list: &[u64],
    scratch: &mut [u64],
    r: &mut [usize; 5],
) -> u8 {
    tell_count(change_stroke::extend(stroke, count, list, scratch), r)
}

// A count, or what stands in for it where it is refused.
fn count_or(c: Counted, other: usize) -> usize {
    match c {
        Counted::Count(n) => n,
        Counted::Refused(_) => other,
    }
}

// A stroke of the first `count` changes of a buffer as an edit. r[2] is how many a new one has there, r[3] how many it
// has itself.
#[unsafe(no_mangle)]
pub extern "C" fn call_stroke(
    tool: u8,
    stroke: &mut [u64],
    count: usize,
    scratch: &mut [u64],
    bytes: &mut [u8; 8],
    doubles: &mut [f64; 3],
    r: &mut [usize; 5],
) -> u8 {
    let fresh = Stroke::new(tool);
    let s = Stroke {
        tool: fresh.tool(),
        count,
    };
    r[2] = count_or(fresh.changes(stroke), r[2]);
    r[3] = count_or(s.changes(stroke), r[3]);
    tell_made(s.into_op(stroke, scratch), bytes, doubles, r)
}
