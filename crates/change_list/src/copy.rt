// A result moved out of scratch.
ghost use Rattle.std.specs.Prelude.{◌≡◌, List, ℕ, ◌≤◌, length, take};
ghost use Rattle.base.specs.Answer.{filled};
ghost use Rattle.base.specs.Lists.{over};
ghost use Rattle.change_list.specs.Listed.{handed, count_of, InScratch};

use base::{Counted, NO_SPACE};

// The first n of the scratch over the front of out, which keeps its bits past them.
pub fn copy_out(scratch: &[u64], n: usize, out: &mut [u64])
    requires n_in_bounds { n ≤ length scratch.now }
    requires n_in_bounds_2 { n ≤ length out.old }
    ensures { out.new ≡ over (take n scratch.now) out.old }
{
    for (i, c) in scratch[..n].iter().enumerate() {
        out[i] = *c;
    }
}

// The end of every call that leaves n changes at the front of scratch: how many they are, or 16 where the buffer
// that they are meant for has fewer places.
pub fn counted(n: usize, room: usize) -> Counted
    ensures { (s : List ℕ) → n ≤ length s → InScratch (count_of result) room s (filled result) (handed (take n s)) }
{
    if room < n {
        return Counted::Refused(NO_SPACE);
    }
    Counted::Count(n)
}

// How many changes such a call left, none where it was refused.
pub fn count_of(answer: Counted) -> usize
    ensures { result ≡ count_of answer }
{
    match answer {
        Counted::Count(n) => n,
        Counted::Refused(_) => 0,
    }
}
