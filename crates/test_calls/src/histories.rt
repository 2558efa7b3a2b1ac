// The calls of a history in a journal. What a call moves on, the palette count and the handle, goes from call to call in
// `base::Moved`.
use crate::bare::edit;
use base::{Form, Handle, Moved, Removal};
use test_answers::{of_next, of_truth};
use test_inputs::{
    Hand, Outcome, colours, curve, fill_list, lent_values, mix_all, mix_number, told,
};
use test_lists::{mark_saved, merge, push, redo, replay, undo};

// The number, and the palette count and the handle.
pub fn told_state(no: u8, k: usize, s: Handle) -> Outcome {
    let state = [k, s.offset, s.end, s.position, s.count, s.saved];
    told(no, mix_all(mix_number(no), &state))
}

// The same, and but for `mark_saved` all that is lent.
pub fn told_change(
    c: usize,
    m: Moved,
    palette: &[u8],
    lab: &[f64],
    indices: &[i16],
    locks: &[bool],
    journal: &[u8],
) -> Outcome {
    let t = told_state(m.answer.number(), m.k, m.handle);
    if c == 48 {
        return t;
    }
    let sheet = mix_all(mix_all(mix_all(t.print, palette), lab), indices);
    told(t.number, mix_all(mix_all(sheet, locks), journal))
}

fn removal_count(r: Removal) -> usize {
    match r {
        Removal::Made { edit: _, count } => count,
        Removal::Refused(_) => 0,
    }
}

// Writes a list, and answers how many changes it has: a removal's is that of `merge_entries`.
fn fill_edit(
    a: Hand,
    w: usize,
    h: usize,
    k: usize,
    palette: &[u8],
    lab: &[f64],
    indices: &[i16],
    locks: &[bool],
    list: &mut [u64],
) -> usize {
    if a.choice.kind == 4 {
        return removal_count(merge(a, w, h, k, palette, lab, indices, locks, list));
    }
    fill_list(a.seeds.seed, list);
    a.choice.size
}

// The first n changes of a list, or all of them.
fn front(list: &[u64], n: usize) -> &[u64] {
    &list[..n.min(list.len())]
}

fn pushed(
    a: Hand,
    w: usize,
    h: usize,
    m: Moved,
    palette: &mut [u8],
    lab: &mut [f64],
    indices: &mut [i16],
    locks: &mut [bool],
    form: Form,
    journal: &mut [u8],
) -> Moved {
    let mut list = [0u64; 6];
    let mut scratch = [0u8; 6];
    let rule = a.choice.rule;
    let permitted = colours(a.seeds.listed);
    let values = curve(a.seeds.curve, rule);
    let n = fill_edit(a, w, h, m.k, palette, lab, indices, locks, &mut list);
    push(
        w,
        h,
        m.k,
        palette,
        lab,
        indices,
        locks,
        a.choice.limited,
        &permitted,
        a.choice.loaded,
        lent_values(&values, rule),
        edit(a),
        front(&list, n),
        form,
        journal,
        m.handle,
        &mut scratch,
    )
}

fn redone(
    a: Hand,
    w: usize,
    h: usize,
    m: Moved,
    palette: &mut [u8],
    lab: &mut [f64],
    indices: &mut [i16],
    locks: &mut [bool],
    form: Form,
    journal: &[u8],
) -> Moved {
    let mut scratch = [0u8; 6];
    let rule = a.choice.rule;
    let values = curve(a.seeds.curve, rule);
    redo(
        w,
        h,
        m.k,
        palette,
        lab,
        indices,
        locks,
        a.choice.loaded,
        lent_values(&values, rule),
        form,
        journal,
        m.handle,
        &mut scratch,
    )
}

fn marked(m: Moved, form: Form, journal: &[u8]) -> Moved {
    let s = mark_saved(form, journal, m.handle);
    Moved {
        answer: s.answer,
        k: m.k,
        handle: s.handle,
    }
}

// Two changes, or an edit of the palette beside them, replayed.
fn replayed(
    a: Hand,
    w: usize,
    h: usize,
    m: Moved,
    palette: &mut [u8],
    lab: &mut [f64],
    indices: &mut [i16],
    locks: &mut [bool],
) -> Moved {
    let mut list = [0u64; 2];
    let mut scratch = [0u8; 6];
    let rule = a.choice.rule;
    let permitted = colours(a.seeds.listed);
    let values = curve(a.seeds.curve, rule);
    fill_list(a.seeds.seed, &mut list);
    let s = replay(
        w,
        h,
        m.k,
        palette,
        lab,
        indices,
        locks,
        a.choice.limited,
        &permitted,
        a.choice.loaded,
        lent_values(&values, rule),
        edit(a),
        &list,
        &mut scratch,
    );
    Moved {
        answer: s.answer,
        k: s.k,
        handle: m.handle,
    }
}

// A call that may move the history on: `push`, `undo`, `redo`, `mark_saved` or `replay`.
pub fn change(
    c: usize,
    a: Hand,
    w: usize,
    h: usize,
    m: Moved,
    palette: &mut [u8],
    lab: &mut [f64],
    indices: &mut [i16],
    locks: &mut [bool],
    form: Form,
    journal: &mut [u8],
) -> Moved {
    match c {
        45 => pushed(a, w, h, m, palette, lab, indices, locks, form, journal),
        46 => undo(
            w, h, m.k, palette, lab, indices, locks, form, journal, m.handle,
        ),
        47 => redone(a, w, h, m, palette, lab, indices, locks, form, journal),
        48 => marked(m, form, journal),
        _ => replayed(a, w, h, m, palette, lab, indices, locks),
    }
}

// The journal in the other form.
fn convert(
    w: usize,
    h: usize,
    form: Form,
    journal: &[u8],
    handle: Handle,
    out: &mut [u8],
) -> Outcome {
    let c = editor::convert(w, h, form, journal, handle, out);
    let s = c.handle;
    let no = c.answer.number();
    let moved = [s.offset, s.end, s.position, s.count, s.saved];
    told(no, mix_all(mix_all(mix_number(no), &moved), out))
}

// The same into some bytes, which may be too few.
fn converted(a: Hand, w: usize, h: usize, form: Form, journal: &[u8], handle: Handle) -> Outcome {
    let mut few = [0x5au8; 40];
    let mut enough = [0x5au8; 140];
    if a.choice.even {
        return convert(w, h, form, journal, handle, &mut few);
    }
    convert(w, h, form, journal, handle, &mut enough)
}

// What is asked of the journal and the handle, and `convert`.
pub fn look(
    c: usize,
    a: Hand,
    w: usize,
    h: usize,
    form: Form,
    journal: &[u8],
    handle: Handle,
) -> Outcome {
    match c {
        49 => of_truth(editor::is_dirty(form, journal, handle)),
        50 => of_truth(editor::can_undo(form, journal, handle)),
        51 => of_truth(editor::can_redo(form, journal, handle)),
        52 => of_next(editor::next_undo(form, journal, handle)),
        53 => of_next(editor::next_redo(form, journal, handle)),
        54 => of_next(editor::applied(form, journal, handle, a.seeds.number)),
        _ => converted(a, w, h, form, journal, handle),
    }
}

// Changes a byte of the journal, now and then.
pub fn damage(a: Hand, journal: &mut [u8]) {
    let at = a.seeds.place;
    if a.seeds.hit && at < journal.len() {
        journal[at] = a.choice.byte;
    }
}
