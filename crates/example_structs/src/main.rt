// A maker's program over change structs: the steps of example_editor, with the list of changes an array of structs, and
// palette count and handle lent. After each step its number and the sheet are printed.
//
// What lends a struct stands in lent.rt; the rest is as in example_editor.
#![tactic(auto)]

mod lent;

use base::{Edit, Form, Handle};
use editor::{fresh, is_dirty, new};
use example_print::{Step, show, show_dirty};
use selection::Area;
use std::io;

// How the history holds its changes, throughout: by place, 7 bytes each.
const FORM: Form = Form::Places;

// A sheet with its history: what a program keeps from step to step.
#[derive(Clone, Copy)]
struct Drawing {
    k: usize,
    palette: [u8; 765],
    lab: [f64; 765],
    indices: [i16; 24],
    locks: [bool; 255],
    journal: [u8; 200],
    handle: Handle,
}

// A transparent sheet with two entries, of which the second is red.
fn open(rt: &impl Print) -> io::Result<Drawing> {
    let mut d = Drawing {
        k: 2,
        palette: [0; 765],
        lab: [0.0; 765],
        indices: [-1; 24],
        locks: [false; 255],
        journal: [0; 200],
        handle: fresh(),
    };
    d.palette[3] = 200;
    let opened = new(6, 4, 2, &d.palette, &mut d.lab, &d.indices, &mut d.locks);
    show(rt, Step::New, opened, &d.indices)?;
    Ok(d)
}

// A drag along points, made a step of the history.
fn stroke(rt: &impl Print, d: &mut Drawing, points: &[i32]) -> io::Result<()> {
    let mut scratch = [0u64; 24];
    let mut marks = [0u8; 24];
    let moved = lent::stroke(
        d.k,
        &mut d.palette,
        &mut d.lab,
        &mut d.indices,
        &mut d.locks,
        Area::Whole,
        points,
        &mut scratch,
        b"",
        &[],
        Edit::Pixels { tool: 1 },
        FORM,
        &mut d.journal,
        d.handle,
        &mut marks,
    );
    d.k = moved.k;
    d.handle = moved.handle;
    show(rt, Step::Push, moved.answer, &d.indices)
}

// The last step taken back.
fn back(rt: &impl Print, d: &mut Drawing) -> io::Result<()> {
    let moved = lent::undone(
        d.k,
        &mut d.palette,
        &mut d.lab,
        &mut d.indices,
        &mut d.locks,
        FORM,
        &d.journal,
        d.handle,
    );
    d.k = moved.k;
    d.handle = moved.handle;
    show(rt, Step::Undo, moved.answer, &d.indices)
}

// The step that was taken back, done again.
fn forth(rt: &impl Print, d: &mut Drawing) -> io::Result<()> {
    let mut marks = [0u8; 24];
    let moved = lent::redone(
        d.k,
        &mut d.palette,
        &mut d.lab,
        &mut d.indices,
        &mut d.locks,
        &[],
        FORM,
        &d.journal,
        d.handle,
        &mut marks,
    );
    d.k = moved.k;
    d.handle = moved.handle;
    show(rt, Step::Redo, moved.answer, &d.indices)
}

// The sheet as it is now is the one that was saved.
fn save(d: &mut Drawing) {
    d.handle = lent::saved(FORM, &d.journal, d.handle);
}

// Whether the sheet is another than the one that was saved.
fn dirty(rt: &impl Print, d: &Drawing) -> io::Result<()> {
    show_dirty(rt, is_dirty(FORM, &d.journal, d.handle))
}

fn main(rt: HostRuntime) -> io::Result<()> {
    let mut d = open(&rt)?;
    stroke(&rt, &mut d, &[0, 0, 3, 3, 5, 1])?;
    back(&rt, &mut d)?;
    forth(&rt, &mut d)?;
    save(&mut d);
    dirty(&rt, &d)?;
    stroke(&rt, &mut d, &[5, 3])?;
    dirty(&rt, &d)
}
