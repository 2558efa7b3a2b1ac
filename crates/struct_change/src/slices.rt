// Lists of change structs packed into numbers, as the core takes them, filled from numbers, copied, and gone through.
ghost use Rattle.std.specs.Prelude.{◌≡◌, map, ◌≤◌, length, take};
ghost use Rattle.base.specs.Answer.{counted_told};
ghost use Rattle.base.specs.Lists.{over, some};
ghost use Rattle.edit.specs.Change as flat;
ghost use Rattle.struct_change.specs.Struct.{packed_of};
ghost use Rattle.struct_change.specs.Scratch.{no_room};

use crate::{packed, unpacked};
use base::{Change, Counted, NO_SPACE, either};
use edit_pixels::is_outside;

// The first n changes of a list, packed, over the front of flat, which keeps its bits past them.
pub fn pack(list: &[Change], n: usize, flat: &mut [u64])
    requires { (n ≤ length list.now) × (n ≤ length flat.old) }
    ensures { flat.new ≡ over (take n (map packed_of list.now)) flat.old }
{
    for (i, c) in list[..n].iter().enumerate() {
        flat[i] = packed(*c);
    }
}

// The first n numbers, as structs, over the front of out, which keeps its bits past them.
pub fn unpack(flat: &[u64], n: usize, out: &mut [Change])
    requires { (n ≤ length flat.now) × (n ≤ length out.old) }
    ensures { map packed_of out.new ≡ over (take n flat.now) (map packed_of out.old) }
{
    for (i, c) in flat[..n].iter().enumerate() {
        out[i] = unpacked(*c);
    }
}

// The first n changes of a list over the front of out, which keeps its bits past them.
pub fn copy_front(list: &[Change], n: usize, out: &mut [Change])
    requires { (n ≤ length list.now) × (n ≤ length out.old) }
    ensures { map packed_of out.new
        ≡ over (take n (map packed_of list.now)) (map packed_of out.old) }
{
    out[..n].copy_from_slice(&list[..n]);
}

// Whether one of the first n changes of a list is off the sheet. The scan has no early exit.
pub fn any_outside(w: usize, h: usize, list: &[Change], n: usize) -> bool
    requires { n ≤ length list.now }
    ensures { result ≡ some (flat.outside w h) (map flat.unpacked (take n (map packed_of list.now))) }
{
    let mut off = false;
    for c in &list[..n] {
        off = either(off, is_outside(w, h, packed(*c)));
    }
    off
}

// What a call answers that has too little scratch: 16, where nothing else refuses it.
#[tactic(auto, unfolding(crate::specs::Scratch::no_room))]
pub fn no_room(answer: Counted) -> Counted
    ensures { counted_told result ≡ no_room (counted_told answer) }
{
    match answer {
        Counted::Count(_) => Counted::Refused(NO_SPACE),
        Counted::Refused(no) => Counted::Refused(no),
    }
}
