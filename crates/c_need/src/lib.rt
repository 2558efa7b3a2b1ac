// Change request E11's call under a plain C name, for compare/ and bench/, in the manner of `c_convert`. What the call
// answers stands in its own contract; of the wrapper it is proved that it is safe and ends.
#![tactic(auto)]

use base::Need;
use c_flat::form_of;

// The need, and the palette count of the working sheet.
#[unsafe(no_mangle)]
pub extern "C" fn call_journal_need(
    w: usize,
    h: usize,
    k: usize,
    palette: &[u8],
    lab: &[f64],
    indices: &[i16],
    locks: &[bool],
    text: &[u8],
    work_w: usize,
    work_h: usize,
    work_palette: &mut [u8],
    work_lab: &mut [f64],
    work_indices: &mut [i16],
    work_locks: &mut [bool],
    form: u8,
    journal: &mut [u8],
    list: &mut [u64],
    scratch: &mut [u8],
    r: &mut [usize; 2],
) -> u8 {
    let answer = need::journal_need(
        w,
        h,
        k,
        palette,
        lab,
        indices,
        locks,
        text,
        work_w,
        work_h,
        work_palette,
        work_lab,
        work_indices,
        work_locks,
        form_of(form),
        journal,
        list,
        scratch,
    );
    match answer {
        Need::Bytes { need, k } => {
            r[0] = need;
            r[1] = k;
            0
        }
        Need::Refused(no) => no,
    }
}
