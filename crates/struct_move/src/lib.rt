// `move_selection` of tools.rs as makers hold it, as `struct_draw` has the drawing tools.
#![tactic(auto)]

ghost use Rattle.std.specs.Prelude.{◌≡◌, map, length};
ghost use Rattle.sheet.specs.Sheet.{sheet_of};
ghost use Rattle.struct_change.specs.Struct.{packed_of};
ghost use Rattle.tool_paste_model.specs.Pasting.{left};
ghost use Rattle.tool_paste_model.specs.Moves.{move_call};

use base::Change;
use selection::{Selection, Shifted};
use struct_change::unpack;
use tool_paste::shifted_count;

// `tool_move::move_selection`: the selection's contents moved by (dx, dy).
pub fn move_selection(
    w: usize,
    h: usize,
    k: usize,
    palette: &[u8],
    lab: &[f64],
    indices: &[i16],
    s: Selection,
    dx: i32,
    dy: i32,
    scratch: &mut [u64],
    out: &mut [Change],
) -> Shifted
    ensures { let sheet = sheet_of w h k palette.now lab.now indices.now in
        (left result (map packed_of out.new)
        ≡ move_call sheet s dx dy (length scratch.old) (map packed_of out.old))
        × (length scratch.new ≡ length scratch.old) }
{
    let r = tool_move::move_selection_in(
        w,
        h,
        k,
        palette,
        lab,
        indices,
        s,
        dx,
        dy,
        scratch,
        out.len(),
    );
    let n = shifted_count(r);
    unpack(scratch, n, out);
    r
}
