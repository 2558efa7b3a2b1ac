// `normalize` and `Op::pixels` of op.rs: the list is packed into one lent buffer of numbers and normalised in
// another, and the structs are filled from there.
ghost use Rattle.std.specs.Prelude.{◌≡◌, List, map, ℕ, min, length, take};
ghost use Rattle.base.specs.Answer.{filled};
ghost use Rattle.change_list.specs.Listed.{count_of, InScratch};
ghost use Rattle.struct_change.specs.Struct.{packed_of};
ghost use Rattle.change_op.specs.Op.{normalize_call, made, made_count, pixels_call};

use base::{Change, Counted, LIST_TOO_LONG, MAX_CHANGES, MadeOp, NO_SPACE};
use change_list::count_of;
use change_op::{made_count, normalize_in, pixels_of};
use struct_change::{pack, unpack};

// The normal form of n changes, left in the scratch, where flat has their numbers as far as it has places; 16 where
// it has fewer.
fn normalize_packed(flat: &[u64], n: usize, scratch: &mut [u64], room: usize) -> Counted
    ensures { (list : List ℕ) → length list ≡ n → take n flat.now ≡ take (length flat.now) list
        → InScratch (count_of result) room scratch.new (filled result)
        (normalize_call (min (length flat.now) (length scratch.old)) list) }
{
    if MAX_CHANGES < n {
        return Counted::Refused(LIST_TOO_LONG);
    }
    if flat.len() < n {
        return Counted::Refused(NO_SPACE);
    }
    normalize_in(&flat[..n], scratch, room)
}

// The same for an edit of pixels.
fn pixels_packed(tool: u8, flat: &[u64], n: usize, scratch: &mut [u64], room: usize) -> MadeOp
    ensures { (list : List ℕ) → length list ≡ n → take n flat.now ≡ take (length flat.now) list
        → InScratch (made_count result) room scratch.new (made result)
        (pixels_call tool (min (length flat.now) (length scratch.old)) list) }
{
    pixels_of(tool, normalize_packed(flat, n, scratch, room))
}

// `change_op::normalize`. Both buffers of numbers have a place a change; with fewer the answer is 16.
pub fn normalize(
    list: &[Change],
    flat: &mut [u64],
    scratch: &mut [u64],
    out: &mut [Change],
) -> Counted
    ensures { (filled result (map packed_of out.new)
        ≡ normalize_call (min (length flat.old) (length scratch.old))
        (map packed_of list.now) (map packed_of out.old))
        × (length flat.new ≡ length flat.old)
        × (length scratch.new ≡ length scratch.old) }
{
    let n = list.len();
    let m = n.min(flat.len());
    pack(list, m, flat);
    let r = normalize_packed(flat, n, scratch, out.len());
    let count = count_of(r);
    unpack(scratch, count, out);
    r
}

// `change_op::pixels`, likewise.
pub fn pixels(
    tool: u8,
    list: &[Change],
    flat: &mut [u64],
    scratch: &mut [u64],
    out: &mut [Change],
) -> MadeOp
    ensures { (made result (map packed_of out.new)
        ≡ pixels_call tool (min (length flat.old) (length scratch.old))
        (map packed_of list.now) (map packed_of out.old))
        × (length flat.new ≡ length flat.old)
        × (length scratch.new ≡ length scratch.old) }
{
    let n = list.len();
    let m = n.min(flat.len());
    pack(list, m, flat);
    let r = pixels_packed(tool, flat, n, scratch, out.len());
    let count = made_count(r);
    unpack(scratch, count, out);
    r
}
