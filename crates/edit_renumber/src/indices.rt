// Every index past an entry lowered or raised by one. The bound has the indices' width, so that the loops
// are compiled to vector code.
ghost use Rattle.std.specs.Prelude.{◌≡◌, false, map, ℕ, ◌≤◌, pos};
ghost use Rattle.base.specs.Lists.{some};
ghost use Rattle.sheet.specs.Sheet.{stray};
ghost use Rattle.edit.specs.Storage.{lowered, raised};

// An index without the entry `bound`.
fn lower_one(z: i16, bound: i16) -> i16
    ensures { (i : ℕ) → bound ≡ pos i → result ≡ lowered i z }
{
    if bound < z { z - 1 } else { z }
}

// Lowers every index above the entry by one.
pub fn lower_above(indices: &mut [i16], index: usize)
    requires { index ≤ 255 }
    ensures { indices.new ≡ map (lowered index) indices.old }
{
    let bound = index as i16;
    for z in indices.iter_mut() {
        *z = lower_one(*z, bound);
    }
}

// An index with the entry `bound` again.
fn raise_one(z: i16, bound: i16) -> i16
    requires { stray 255 z ≡ false }
    ensures { (i : ℕ) → bound ≡ pos i → result ≡ raised i z }
{
    if bound <= z { z + 1 } else { z }
}

// Raises every index from the entry on by one.
pub fn raise_from(indices: &mut [i16], index: usize)
    requires { (index ≤ 255) × (some (stray 255) indices.old ≡ false) }
    ensures { indices.new ≡ map (raised index) indices.old }
{
    let bound = index as i16;
    for z in indices.iter_mut() {
        *z = raise_one(*z, bound);
    }
}
