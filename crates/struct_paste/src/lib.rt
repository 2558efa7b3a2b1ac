// `paste` of tools.rs as makers hold it, as `struct_draw` has the drawing tools.
#![tactic(auto)]

ghost use Rattle.std.specs.Prelude.{◌≡◌, map, length};
ghost use Rattle.sheet.specs.Sheet.{sheet_of};
ghost use Rattle.struct_change.specs.Struct.{packed_of};
ghost use Rattle.tool_paste_model.specs.Pasting.{paste_call, left};

use base::Change;
use selection::Shifted;
use struct_change::unpack;
use tool_paste::shifted_count;

// `tool_paste::paste`: a clip with its top-left corner at (x, y).
pub fn paste(
    w: usize,
    h: usize,
    k: usize,
    palette: &[u8],
    lab: &[f64],
    indices: &[i16],
    clip_w: usize,
    clip_h: usize,
    clip: &[i16],
    x: i32,
    y: i32,
    scratch: &mut [u64],
    out: &mut [Change],
) -> Shifted
    ensures { let sheet = sheet_of w h k palette.now lab.now indices.now in
        (left result (map packed_of out.new)
        ≡ paste_call sheet clip_w clip_h clip.now x y (length scratch.old)
        (map packed_of out.old)) × (length scratch.new ≡ length scratch.old) }
{
    let r = tool_paste::paste_in(
        w,
        h,
        k,
        palette,
        lab,
        indices,
        clip_w,
        clip_h,
        clip,
        x,
        y,
        scratch,
        out.len(),
    );
    let count = shifted_count(r);
    unpack(scratch, count, out);
    r
}
