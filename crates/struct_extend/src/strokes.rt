// `Stroke::extend` of tools.rs: the stroke and the list are packed into lent buffers of numbers and normalised in
// another, and the structs are filled from there.
ghost use Rattle.std.specs.Prelude.{◌≡◌, List, map, ℕ, ◌≤◌, length, take};
ghost use Rattle.base.specs.Answer.{filled};
ghost use Rattle.change_list.specs.Listed.{count_of, InScratch};
ghost use Rattle.struct_change.specs.Struct.{packed_of};
ghost use Rattle.change_stroke.specs.Stroke.{extend_call};
ghost use Rattle.struct_extend.specs.Places.{room_for, extend_over};

use base::{Change, Counted};
use change_list::{count_of, counted};
use change_normal::normalize_joined;
use change_stroke::extend_no;
use struct_change::{pack, unpack};

// The scratch's places, or none where a buffer has too few for its list.
#[tactic(auto, unfolding(crate::specs::Places::room_for))]
fn room_for(flat: usize, more: usize, room: usize, count: usize, n: usize) -> usize
    ensures { result ≡ room_for flat more room count n }
{
    if flat < count {
        return 0;
    }
    if more < n {
        return 0;
    }
    room
}

// The extended stroke, left in the scratch, where flat has the stroke's first `count` changes and more the n of the
// list, as far as they have places.
fn extend_packed(
    flat: &[u64],
    count: usize,
    more: &[u64],
    n: usize,
    places: usize,
    scratch: &mut [u64],
) -> Counted
    ensures { (stroke list : List ℕ) → length stroke ≡ places → length list ≡ n
        → (count ≤ places → count ≤ length flat.now → take count flat.now ≡ take count stroke)
        → (n ≤ length more.now → take n more.now ≡ list)
        → InScratch (count_of result) places scratch.new (filled result) (extend_over
        (room_for (length flat.now) (length more.now) (length scratch.old) count n)
        count list stroke) }
{
    let room = room_for(flat.len(), more.len(), scratch.len(), count, n);
    let no = extend_no(count, places, n, room);
    if no != 0 {
        return Counted::Refused(no);
    }
    let k = normalize_joined(&flat[..count], &more[..n], scratch);
    counted(k, places)
}

// `change_stroke::extend`. Flat has a place for each change of the stroke and more for each of the list, or the
// answer is 16.
pub fn extend(
    stroke: &mut [Change],
    count: usize,
    list: &[Change],
    flat: &mut [u64],
    more: &mut [u64],
    scratch: &mut [u64],
) -> Counted
    ensures { (filled result (map packed_of stroke.new)
        ≡ extend_call
        (room_for (length flat.old) (length more.old) (length scratch.old) count
        (length list.now)) count (map packed_of list.now) (map packed_of stroke.old))
        × (length flat.new ≡ length flat.old)
        × (length more.new ≡ length more.old)
        × (length scratch.new ≡ length scratch.old) }
{
    let n = list.len();
    let held = count.min(stroke.len()).min(flat.len());
    pack(stroke, held, flat);
    let m = n.min(more.len());
    pack(list, m, more);
    let r = extend_packed(flat, count, more, n, stroke.len(), scratch);
    let total = count_of(r);
    unpack(scratch, total, stroke);
    r
}
