// `replace_color` and `fill_global` of tools.rs.
ghost use Rattle.std.specs.Prelude.{◌≡◌, map, length};
ghost use Rattle.base.specs.Answer.{filled};
ghost use Rattle.sheet.specs.Sheet.{sheet_of};
ghost use Rattle.change_list.specs.Listed.{count_of, InScratch};
ghost use Rattle.struct_change.specs.Struct.{packed_of};
ghost use Rattle.tool_fill_model.specs.Fills.{replace_color_of, fill_global_of};
ghost use Rattle.struct_change.specs.Scratch.{needing};

use base::{Change, Counted};
use change_list::count_of;
use selection::Area;
use struct_change::{no_room, unpack};

// The changes of `replace_color`, left at the front of the scratch for a buffer of `room` places.
fn replace_color_in(
    w: usize,
    h: usize,
    k: usize,
    palette: &[u8],
    lab: &[f64],
    indices: &[i16],
    area: Area,
    from: i16,
    to: i16,
    scratch: &mut [u64],
    room: usize,
) -> Counted
    ensures { let sheet = sheet_of w h k palette.now lab.now indices.now in
        InScratch (count_of result) room scratch.new (filled result)
        (needing (length scratch.old) (length indices.now) (replace_color_of sheet area from to)) }
{
    if scratch.len() < indices.len() {
        let r = tool_replace::replace_color(
            w,
            h,
            k,
            palette,
            lab,
            indices,
            area,
            from,
            to,
            &mut scratch[..0],
        );
        return no_room(r);
    }
    let m = room.min(scratch.len());
    tool_replace::replace_color(
        w,
        h,
        k,
        palette,
        lab,
        indices,
        area,
        from,
        to,
        &mut scratch[..m],
    )
}

// `tool_replace::replace_color`: every pixel of one index becomes another. The scratch has a place a pixel.
pub fn replace_color(
    w: usize,
    h: usize,
    k: usize,
    palette: &[u8],
    lab: &[f64],
    indices: &[i16],
    area: Area,
    from: i16,
    to: i16,
    scratch: &mut [u64],
    out: &mut [Change],
) -> Counted
    ensures { let sheet = sheet_of w h k palette.now lab.now indices.now in
        (filled result (map packed_of out.new)
        ≡ needing (length scratch.old) (length indices.now) (replace_color_of sheet area from to)
        (map packed_of out.old)) × (length scratch.new ≡ length scratch.old) }
{
    let r = replace_color_in(
        w,
        h,
        k,
        palette,
        lab,
        indices,
        area,
        from,
        to,
        scratch,
        out.len(),
    );
    let n = count_of(r);
    unpack(scratch, n, out);
    r
}

// The changes of `fill_global`, left at the front of the scratch for a buffer of `room` places.
fn fill_global_in(
    w: usize,
    h: usize,
    k: usize,
    palette: &[u8],
    lab: &[f64],
    indices: &[i16],
    area: Area,
    x: i32,
    y: i32,
    index: i16,
    scratch: &mut [u64],
    room: usize,
) -> Counted
    ensures { let sheet = sheet_of w h k palette.now lab.now indices.now in
        InScratch (count_of result) room scratch.new (filled result)
        (needing (length scratch.old) (length indices.now) (fill_global_of sheet area x y index)) }
{
    if scratch.len() < indices.len() {
        let r = tool_replace::fill_global(
            w,
            h,
            k,
            palette,
            lab,
            indices,
            area,
            x,
            y,
            index,
            &mut scratch[..0],
        );
        return no_room(r);
    }
    let m = room.min(scratch.len());
    tool_replace::fill_global(
        w,
        h,
        k,
        palette,
        lab,
        indices,
        area,
        x,
        y,
        index,
        &mut scratch[..m],
    )
}

// `tool_replace::fill_global`: every pixel of the index at (x, y) becomes another. The scratch has a place a pixel.
pub fn fill_global(
    w: usize,
    h: usize,
    k: usize,
    palette: &[u8],
    lab: &[f64],
    indices: &[i16],
    area: Area,
    x: i32,
    y: i32,
    index: i16,
    scratch: &mut [u64],
    out: &mut [Change],
) -> Counted
    ensures { let sheet = sheet_of w h k palette.now lab.now indices.now in
        (filled result (map packed_of out.new)
        ≡ needing (length scratch.old) (length indices.now) (fill_global_of sheet area x y index)
        (map packed_of out.old)) × (length scratch.new ≡ length scratch.old) }
{
    let r = fill_global_in(
        w,
        h,
        k,
        palette,
        lab,
        indices,
        area,
        x,
        y,
        index,
        scratch,
        out.len(),
    );
    let n = count_of(r);
    unpack(scratch, n, out);
    r
}
