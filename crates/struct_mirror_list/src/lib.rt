// What `mirror_tiles` leaves of a list that is packed into a buffer of numbers where it is touched: the list with its
// copies, in the scratch, or the list as it is. `struct_mirror` has the call.
#![tactic(auto)]

ghost use Rattle.std.specs.Prelude.{◌≡◌, true, List, ℕ, ◌*◌, ◌≤◌, length, take};
ghost use Rattle.base.specs.Answer.{filled};
ghost use Rattle.change_list.specs.Listed.{handed};
ghost use Rattle.struct_change.specs.Scratch.{needing};
ghost use Rattle.tile_copies.specs.Mirror.{Mirrorable};
ghost use Rattle.tile_mirror_checks.specs.Calls.{mirror_list};
ghost use Rattle.struct_mirror_list.specs.Laid.{read_of, made_of, kept_of, Laid};

use base::{Counted, NO_SPACE};
use change_list::{count_of, counted};
use selection::Selection;
use tile_copies::mirror_in;

// How many changes of n are read: those of a list that is touched.
pub fn read_of(touched: bool, n: usize) -> usize
    ensures { result ≡ read_of touched n }
{
    if touched {
        return n;
    }
    0
}

// How many changes of the result stand in the scratch.
pub fn made_of(touched: bool, answer: Counted) -> usize
    ensures { result ≡ made_of touched answer }
{
    if touched {
        return count_of(answer);
    }
    0
}

// How many are the list's own.
pub fn kept_of(touched: bool, answer: Counted) -> usize
    ensures { result ≡ kept_of touched answer }
{
    if touched {
        return 0;
    }
    count_of(answer)
}

// The list with its copies, left in the scratch; or the list as it is, which is counted alone. Flat has the numbers of
// a list that is touched, or the answer is 16.
pub fn finish(
    touched: bool,
    w: usize,
    h: usize,
    t: usize,
    indices: &[i16],
    s: Selection,
    flat: &[u64],
    n: usize,
    scratch: &mut [u64],
    room: usize,
) -> Counted
    requires { (touched ≡ true → n ≤ length flat.now → Mirrorable w h t indices.now (take n flat.now))
        × (w * h ≤ length scratch.old) }
    ensures { (list : List ℕ) → length list ≡ n
        → (touched ≡ true → n ≤ length flat.now → take n flat.now ≡ list)
        → Laid (made_of touched result) (kept_of touched result) room scratch.new list (filled result)
        (needing (length flat.now) (read_of touched n)
        (handed (mirror_list touched w h t indices.now s list))) }
{
    if !touched {
        return counted(n, room);
    }
    if flat.len() < n {
        return Counted::Refused(NO_SPACE);
    }
    let c = mirror_in(w, h, t, indices, s, &flat[..n], scratch);
    counted(c, room)
}
