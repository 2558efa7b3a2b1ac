// The calls of `history`. The palette count and the handle's five numbers go in and come back in a list of six. A journal's
// form is a number: 0 coordinates, else places.
use base::{Moved, Next};
use c_flat::{
    NO_EDIT, NONE, edit_of, form_of, handle_of, is_edit, tell_edit, tell_handle, tell_truth,
};

fn tell_moved(m: Moved, state: &mut [usize; 6]) -> u8 {
    state[0] = m.k;
    tell_handle(m.handle, state);
    m.answer.number()
}

#[unsafe(no_mangle)]
pub extern "C" fn call_fresh(state: &mut [usize; 6]) {
    tell_handle(history::fresh(), state);
}

#[unsafe(no_mangle)]
pub extern "C" fn call_push(
    w: usize,
    h: usize,
    palette: &mut [u8],
    lab: &mut [f64],
    indices: &mut [i16],
    locks: &mut [bool],
    limited: bool,
    permitted: &[u8],
    loaded: bool,
    curve: &[f64],
    bytes: &[u8; 8],
    index: usize,
    doubles: &[f64; 3],
    list: &[u64],
    form: u8,
    journal: &mut [u8],
    scratch: &mut [u8],
    state: &mut [usize; 6],
) -> u8 {
    if !is_edit(bytes) {
        return NO_EDIT;
    }
    let k = state[0];
    let edit = edit_of(bytes, index, doubles);
    let handle = handle_of(state);
    tell_moved(
        history::push(
            w,
            h,
            k,
            palette,
            lab,
            indices,
            locks,
            limited,
            permitted,
            loaded,
            curve,
            edit,
            list,
            form_of(form),
            journal,
            handle,
            scratch,
        ),
        state,
    )
}

#[unsafe(no_mangle)]
pub extern "C" fn call_undo(
    w: usize,
    h: usize,
    palette: &mut [u8],
    lab: &mut [f64],
    indices: &mut [i16],
    locks: &mut [bool],
    form: u8,
    journal: &[u8],
    state: &mut [usize; 6],
) -> u8 {
    let k = state[0];
    let handle = handle_of(state);
    tell_moved(
        history::undo(
            w,
            h,
            k,
            palette,
            lab,
            indices,
            locks,
            form_of(form),
            journal,
            handle,
        ),
        state,
    )
}

#[unsafe(no_mangle)]
pub extern "C" fn call_redo(
    w: usize,
    h: usize,
    palette: &mut [u8],
    lab: &mut [f64],
    indices: &mut [i16],
    locks: &mut [bool],
    loaded: bool,
    curve: &[f64],
    form: u8,
    journal: &[u8],
    scratch: &mut [u8],
    state: &mut [usize; 6],
) -> u8 {
    let k = state[0];
    let handle = handle_of(state);
    tell_moved(
        history::redo(
            w,
            h,
            k,
            palette,
            lab,
            indices,
            locks,
            loaded,
            curve,
            form_of(form),
            journal,
            handle,
            scratch,
        ),
        state,
    )
}

#[unsafe(no_mangle)]
pub extern "C" fn call_mark_saved(form: u8, journal: &[u8], state: &mut [usize; 6]) -> u8 {
    let m = history::mark_saved(form_of(form), journal, handle_of(state));
    tell_handle(m.handle, state);
    m.answer.number()
}

// 0 `is_dirty`, 1 `can_undo`, else `can_redo`.
#[unsafe(no_mangle)]
pub extern "C" fn call_asked(
    question: u8,
    form: u8,
    journal: &[u8],
    state: &[usize; 6],
    r: &mut [usize; 5],
) -> u8 {
    let handle = handle_of(state);
    let t = match question {
        0 => history_queries::is_dirty(form_of(form), journal, handle),
        1 => history_queries::can_undo(form_of(form), journal, handle),
        _ => history_queries::can_redo(form_of(form), journal, handle),
    };
    tell_truth(t, r)
}

// The edit as `tell_edit` writes it, and in r[1] to r[4] the record's start and length, where its list starts, and its count.
fn tell_next(n: Next, bytes: &mut [u8; 8], doubles: &mut [f64; 3], r: &mut [usize; 5]) -> u8 {
    match n {
        Next::Record {
            edit,
            start,
            length,
            list,
            count,
        } => {
            tell_edit(edit, bytes, doubles, r);
            r[1] = start;
            r[2] = length;
            r[3] = list;
            r[4] = count;
            0
        }
        Next::Nothing => NONE,
        Next::Refused(n) => n,
    }
}

// 0 `next_undo`, 1 `next_redo`, else `applied` of the number.
#[unsafe(no_mangle)]
pub extern "C" fn call_next(
    question: u8,
    form: u8,
    journal: &[u8],
    state: &[usize; 6],
    number: usize,
    bytes: &mut [u8; 8],
    doubles: &mut [f64; 3],
    r: &mut [usize; 5],
) -> u8 {
    let handle = handle_of(state);
    let n = match question {
        0 => history_queries::next_undo(form_of(form), journal, handle),
        1 => history_queries::next_redo(form_of(form), journal, handle),
        _ => history_queries::applied(form_of(form), journal, handle, number),
    };
    tell_next(n, bytes, doubles, r)
}

// The palette count goes in and comes back in state[0].
#[unsafe(no_mangle)]
pub extern "C" fn call_replay(
    w: usize,
    h: usize,
    palette: &mut [u8],
    lab: &mut [f64],
    indices: &mut [i16],
    locks: &mut [bool],
    limited: bool,
    permitted: &[u8],
    loaded: bool,
    curve: &[f64],
    bytes: &[u8; 8],
    index: usize,
    doubles: &[f64; 3],
    list: &[u64],
    scratch: &mut [u8],
    state: &mut [usize; 6],
) -> u8 {
    if !is_edit(bytes) {
        return NO_EDIT;
    }
    let k = state[0];
    let edit = edit_of(bytes, index, doubles);
    let m = history::replay(
        w, h, k, palette, lab, indices, locks, limited, permitted, loaded, curve, edit, list,
        scratch,
    );
    state[0] = m.k;
    m.answer.number()
}
