// Change request E9's call under a plain C name, for compare/ and bench/, in the manner of `c_exports`. What the call
// answers stands in its own contract; of the wrapper it is proved that it is safe and ends.
#![tactic(auto)]

use c_flat::{form_of, handle_of, tell_handle};

// The handle goes in and comes back in a list of six, as with `call_push`; the palette count before it is not looked at.
#[unsafe(no_mangle)]
pub extern "C" fn call_convert(
    w: usize,
    h: usize,
    from: u8,
    journal: &[u8],
    out: &mut [u8],
    state: &mut [usize; 6],
) -> u8 {
    let c = history_convert::convert(w, h, form_of(from), journal, handle_of(state), out);
    tell_handle(c.handle, state);
    c.answer.number()
}
