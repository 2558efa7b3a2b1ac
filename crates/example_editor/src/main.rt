// A maker's first program: a sheet of 6 by 4 is opened, a stroke drawn and pushed, undone and redone; the sheet is marked
// as saved, and drawn on. After each step its number and the sheet are printed.
//
// The program owns every buffer and lends it to the calls. A list of changes is numbers here, one of 64 bits a change.
#![tactic(auto)]

ghost use Rattle.std.specs.Prelude.{◌≤◌};

use base::{Counted, Edit, Form, Handle};
use editor::{fresh, is_dirty, mark_saved, new, pencil, push, redo, undo};
use example_print::{Step, show, show_dirty};
use selection::Area;
use std::io;

// How the history holds its changes, throughout: by column and row, 8 bytes each.
const FORM: Form = Form::Coordinates;

// A sheet with its history: what a program keeps from step to step.
#[derive(Clone, Copy)]
struct Drawing {
    k: usize,
    palette: [u8; 765],
    lab: [f64; 765],
    indices: [i16; 24],
    locks: [bool; 255],
    journal: [u8; 200],
    handle: Handle,
}

// A transparent sheet with two entries, of which the second is red, and none locked.
fn open(rt: &impl Print) -> io::Result<Drawing> {
    let mut d = Drawing {
        k: 2,
        palette: [0; 765],
        lab: [0.0; 765],
        indices: [-1; 24],
        locks: [false; 255],
        journal: [0; 200],
        handle: fresh(),
    };
    d.palette[3] = 200;
    let opened = new(6, 4, 2, &d.palette, &mut d.lab, &d.indices, &mut d.locks);
    show(rt, Step::New, opened, &d.indices)?;
    Ok(d)
}

// How many changes a tool drew, none where it refused; at most as many as there are places.
fn count(drawn: Counted, places: usize) -> usize
    ensures { result ≤ places }
{
    match drawn {
        Counted::Count(n) if n <= places => n,
        _ => 0,
    }
}

// A drag along points, with a brush of one pixel and entry 1: how many changes stand in the list.
fn draw(d: &Drawing, points: &[i32], list: &mut [u64]) -> usize
    ensures { result ≤ 24 }
{
    let mut scratch = [0u64; 24];
    let drawn = pencil(
        6,
        4,
        d.k,
        &d.palette,
        &d.lab,
        &d.indices,
        Area::Whole,
        points,
        1,
        1,
        &mut scratch,
        list,
    );
    count(drawn, 24)
}

// A drag made a step of the history.
fn stroke(rt: &impl Print, d: &mut Drawing, points: &[i32]) -> io::Result<()> {
    let mut list = [0u64; 24];
    let n = draw(d, points, &mut list);
    let mut marks = [0u8; 24];
    let moved = push(
        6,
        4,
        d.k,
        &mut d.palette,
        &mut d.lab,
        &mut d.indices,
        &mut d.locks,
        false,
        b"",
        false,
        &[],
        Edit::Pixels { tool: 1 },
        &list[..n],
        FORM,
        &mut d.journal,
        d.handle,
        &mut marks,
    );
    d.k = moved.k;
    d.handle = moved.handle;
    show(rt, Step::Push, moved.answer, &d.indices)
}

// The last step taken back.
fn back(rt: &impl Print, d: &mut Drawing) -> io::Result<()> {
    let moved = undo(
        6,
        4,
        d.k,
        &mut d.palette,
        &mut d.lab,
        &mut d.indices,
        &mut d.locks,
        FORM,
        &d.journal,
        d.handle,
    );
    d.k = moved.k;
    d.handle = moved.handle;
    show(rt, Step::Undo, moved.answer, &d.indices)
}

// The step that was taken back, done again.
fn forth(rt: &impl Print, d: &mut Drawing) -> io::Result<()> {
    let mut marks = [0u8; 24];
    let moved = redo(
        6,
        4,
        d.k,
        &mut d.palette,
        &mut d.lab,
        &mut d.indices,
        &mut d.locks,
        false,
        &[],
        FORM,
        &d.journal,
        d.handle,
        &mut marks,
    );
    d.k = moved.k;
    d.handle = moved.handle;
    show(rt, Step::Redo, moved.answer, &d.indices)
}

// The sheet as it is now is the one that was saved.
fn save(d: &mut Drawing) {
    d.handle = mark_saved(FORM, &d.journal, d.handle).handle;
}

// Whether the sheet is another than the one that was saved.
fn dirty(rt: &impl Print, d: &Drawing) -> io::Result<()> {
    show_dirty(rt, is_dirty(FORM, &d.journal, d.handle))
}

fn main(rt: HostRuntime) -> io::Result<()> {
    let mut d = open(&rt)?;
    stroke(&rt, &mut d, &[0, 0, 3, 3, 5, 1])?;
    back(&rt, &mut d)?;
    forth(&rt, &mut d)?;
    save(&mut d);
    dirty(&rt, &d)?;
    stroke(&rt, &mut d, &[5, 3])?;
    dirty(&rt, &d)
}
