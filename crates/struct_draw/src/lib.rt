// The drawing tools of tools.rs as makers hold them: the list of changes that a tool makes is a lent slice of structs.
// Each call is thin over the call of the same name in the flat core, and its contract is that call's own definition at
// the numbers that the structs stand for. The list is left as numbers in the scratch, and the structs are filled from
// there.
//
// The scratch is lent as numbers, a place a pixel; what it holds after a call is free.
#![tactic(auto)]

ghost use Rattle.std.specs.Prelude.{◌≡◌, map, length};
ghost use Rattle.sheet.specs.Sheet.{sheet_of};
ghost use Rattle.tool_line.specs.Line.{point};
ghost use Rattle.struct_change.specs.Struct.{packed_of};
ghost use Rattle.tool_draw.specs.Calls.{leaves, pencil_call, eraser_call, line_call, rectangle_call};

use base::{Change, Counted};
use change_list::count_of;
use selection::Area;
use struct_change::unpack;

// `tool_draw::pencil`: a square brush along points.
pub fn pencil(
    w: usize,
    h: usize,
    k: usize,
    palette: &[u8],
    lab: &[f64],
    indices: &[i16],
    area: Area,
    points: &[i32],
    size: usize,
    index: i16,
    scratch: &mut [u64],
    out: &mut [Change],
) -> Counted
    ensures { let sheet = sheet_of w h k palette.now lab.now indices.now in
        (leaves result (map packed_of out.new)
        ≡ pencil_call sheet area points.now size index (length scratch.old)
        (map packed_of out.old)) × (length scratch.new ≡ length scratch.old) }
{
    let r = tool_draw::pencil_in(
        w,
        h,
        k,
        palette,
        lab,
        indices,
        area,
        points,
        size,
        index,
        scratch,
        out.len(),
    );
    let n = count_of(r);
    unpack(scratch, n, out);
    r
}

// `tool_draw::eraser`: the pencil with transparency.
pub fn eraser(
    w: usize,
    h: usize,
    k: usize,
    palette: &[u8],
    lab: &[f64],
    indices: &[i16],
    area: Area,
    points: &[i32],
    size: usize,
    scratch: &mut [u64],
    out: &mut [Change],
) -> Counted
    ensures { let sheet = sheet_of w h k palette.now lab.now indices.now in
        (leaves result (map packed_of out.new)
        ≡ eraser_call sheet area points.now size (length scratch.old)
        (map packed_of out.old)) × (length scratch.new ≡ length scratch.old) }
{
    let r = tool_draw::eraser_in(
        w,
        h,
        k,
        palette,
        lab,
        indices,
        area,
        points,
        size,
        scratch,
        out.len(),
    );
    let cleared = count_of(r);
    unpack(scratch, cleared, out);
    r
}

// `tool_draw::line`: the line from a to b with the brush.
pub fn line(
    w: usize,
    h: usize,
    k: usize,
    palette: &[u8],
    lab: &[f64],
    indices: &[i16],
    area: Area,
    ax: i32,
    ay: i32,
    bx: i32,
    by: i32,
    size: usize,
    index: i16,
    scratch: &mut [u64],
    out: &mut [Change],
) -> Counted
    ensures { let sheet = sheet_of w h k palette.now lab.now indices.now in
        (leaves result (map packed_of out.new)
        ≡ line_call sheet area (point ax ay) (point bx by) size index (length scratch.old)
        (map packed_of out.old)) × (length scratch.new ≡ length scratch.old) }
{
    let r = tool_draw::line_in(
        w,
        h,
        k,
        palette,
        lab,
        indices,
        area,
        ax,
        ay,
        bx,
        by,
        size,
        index,
        scratch,
        out.len(),
    );
    let n = count_of(r);
    unpack(scratch, n, out);
    r
}

// `tool_draw::rectangle`: four edges, or every pixel inside with `filled`.
pub fn rectangle(
    w: usize,
    h: usize,
    k: usize,
    palette: &[u8],
    lab: &[f64],
    indices: &[i16],
    area: Area,
    ax: i32,
    ay: i32,
    bx: i32,
    by: i32,
    filled: bool,
    index: i16,
    scratch: &mut [u64],
    out: &mut [Change],
) -> Counted
    ensures { let sheet = sheet_of w h k palette.now lab.now indices.now in
        (leaves result (map packed_of out.new)
        ≡ rectangle_call sheet area (point ax ay) (point bx by) filled index (length scratch.old)
        (map packed_of out.old)) × (length scratch.new ≡ length scratch.old) }
{
    let r = tool_draw::rectangle_in(
        w,
        h,
        k,
        palette,
        lab,
        indices,
        area,
        ax,
        ay,
        bx,
        by,
        filled,
        index,
        scratch,
        out.len(),
    );
    let n = count_of(r);
    unpack(scratch, n, out);
    r
}
