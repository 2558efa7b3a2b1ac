// Change request E8's call under a plain C name, for compare/ and bench/, in the manner of `c_exports`. What the call
// answers stands in its own contract; of the wrappers it is proved that they are safe and end.
#![tactic(auto)]

use base::Joined;
use c_flat::tell_handle;

// The joined count and the handle of each sheet go to a list of six, as `call_push` has them. Refused, both keep.
fn tell_joined(joined: Joined, state: &mut [usize; 6], state2: &mut [usize; 6]) -> u8 {
    match joined {
        Joined::Palette { k, first, second } => {
            state[0] = k;
            state2[0] = k;
            tell_handle(first, state);
            tell_handle(second, state2);
            0
        }
        Joined::Refused(n) => n,
    }
}

#[unsafe(no_mangle)]
pub extern "C" fn call_join(
    w: usize,
    h: usize,
    k: usize,
    palette: &[u8],
    lab: &[f64],
    indices: &[i16],
    locks: &[bool],
    w2: usize,
    h2: usize,
    k2: usize,
    palette2: &[u8],
    lab2: &[f64],
    indices2: &[i16],
    locks2: &[bool],
    to_w: usize,
    to_h: usize,
    to_palette: &mut [u8],
    to_lab: &mut [f64],
    to_indices: &mut [i16],
    to_locks: &mut [bool],
    to_w2: usize,
    to_h2: usize,
    to_palette2: &mut [u8],
    to_lab2: &mut [f64],
    to_indices2: &mut [i16],
    to_locks2: &mut [bool],
    state: &mut [usize; 6],
    state2: &mut [usize; 6],
) -> u8 {
    let joined = join::join(
        w,
        h,
        k,
        palette,
        lab,
        indices,
        locks,
        w2,
        h2,
        k2,
        palette2,
        lab2,
        indices2,
        locks2,
        to_w,
        to_h,
        to_palette,
        to_lab,
        to_indices,
        to_locks,
        to_w2,
        to_h2,
        to_palette2,
        to_lab2,
        to_indices2,
        to_locks2,
    );
    tell_joined(joined, state, state2)
}
