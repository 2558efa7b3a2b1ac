// `mirror_tiles` of tools.rs as makers hold it: the list of changes is a lent slice of structs, to read and to
// fill. Its contract is the flat call's own definition at the numbers that the structs stand for; the one thing
// asked for beyond it is a buffer for those numbers.
//
// Two buffers of numbers are lent as scratch; what they hold after the call is free.
#![tactic(auto)]

mod packed;

ghost use Rattle.std.specs.Prelude.{◌≡◌, map, length};
ghost use Rattle.base.specs.Answer.{filled};
ghost use Rattle.sheet.specs.Sheet.{sheet_of};
ghost use Rattle.struct_change.specs.Struct.{packed_of};
ghost use Rattle.struct_mirror.specs.Lent.{mirror_lent};

use base::{Change, Counted};
use packed::mirror_packed;
use selection::Area;
use struct_change::{any_outside, copy_front, pack, unpack};
use struct_mirror_list::{kept_of, made_of, read_of};
use tile_mirror_checks::is_touching;

// `tile_mirror::mirror_tiles`. The scratch has a place for each of the sheet's, as there. Flat has a place a
// change where the list is touched; with fewer the answer is 16, where nothing else refuses the call. A list that
// is handed back untouched needs none.
pub fn mirror_tiles(
    w: usize,
    h: usize,
    k: usize,
    palette: &[u8],
    lab: &[f64],
    indices: &[i16],
    area: Area,
    on: bool,
    t: usize,
    list: &[Change],
    flat: &mut [u64],
    scratch: &mut [u64],
    out: &mut [Change],
) -> Counted
    ensures { let sheet = sheet_of w h k palette.now lab.now indices.now in
        (filled result (map packed_of out.new)
        ≡ mirror_lent sheet area on t (map packed_of list.now) (length flat.old)
        (length scratch.old) (map packed_of out.old))
        × (length flat.new ≡ length flat.old)
        × (length scratch.new ≡ length scratch.old) }
{
    let n = list.len();
    let places = flat.len();
    let room = out.len();
    let touched = is_touching(on, n, t, w, h);
    let read = read_of(touched, n);
    let off = any_outside(w, h, list, read);
    let m = read.min(places);
    pack(list, m, flat);
    let r = mirror_packed(
        w, h, k, palette, lab, indices, area, on, t, off, flat, n, scratch, room,
    );
    let made = made_of(touched, r);
    unpack(scratch, made, out);
    let kept = kept_of(touched, r);
    copy_front(list, kept, out);
    r
}
