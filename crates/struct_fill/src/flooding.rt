// `flood_fill` of tools.rs.
ghost use Rattle.std.specs.Prelude.{◌≡◌, map, length};
ghost use Rattle.base.specs.Answer.{filled};
ghost use Rattle.sheet.specs.Sheet.{sheet_of};
ghost use Rattle.struct_change.specs.Struct.{packed_of};
ghost use Rattle.tool_fill_model.specs.Fill.{flood_fill_of};

use base::{Change, Counted};
use change_list::count_of;
use selection::Area;
use struct_change::unpack;

// `tool_flood_fill::flood_fill`: the area of the index at (x, y) filled with another.
pub fn flood_fill(
    w: usize,
    h: usize,
    k: usize,
    palette: &[u8],
    lab: &[f64],
    indices: &[i16],
    area: Area,
    x: i32,
    y: i32,
    index: i16,
    scratch: &mut [u64],
    out: &mut [Change],
) -> Counted
    ensures { let sheet = sheet_of w h k palette.now lab.now indices.now in
        (filled result (map packed_of out.new)
        ≡ flood_fill_of sheet area x y index (length scratch.old) (map packed_of out.old))
        × (length scratch.new ≡ length scratch.old) }
{
    let r = tool_flood_fill::flood_fill_in(
        w,
        h,
        k,
        palette,
        lab,
        indices,
        area,
        x,
        y,
        index,
        scratch,
        out.len(),
    );
    let n = count_of(r);
    unpack(scratch, n, out);
    r
}
