// A fixed sample of the answers that compare/ gets from the Rust original, made again without it: some thousands of calls, every
// call of its table among them. A line has the call, its number (0 an answer, 255 "still", nothing
// or outside, else document 01's) and a fingerprint of all that it answered and left in the buffers that it was lent.
//
// The inputs are dealt from seeds (crate `test_inputs`). The file stdout was not written by this program: compare/sample.rs deals the same
// inputs, takes the answers from the Rust and document 01's checks, and prints the lines (`compare/run FOLDER sample`).
#![tactic(auto)]

mod names;

use base::{Form, Moved};
use names::name;
use std::io;
use test_calls::{bare_answer, change, damage, fresh, look, told_change, told_state};
use test_inputs::{Hand, Outcome, deal, deck, fill_bytes, fill_indices, fill_locks, form, pick};
use test_sheets::{open, over_sheet};

// Inputs of each call, histories, and calls of each history.
const EACH: u64 = 60;

const HISTORIES: u64 = 24;

const STEPS: u64 = 60;

// Writes a line.
fn print_line(rt: &impl Print, c: usize, t: Outcome) -> io::Result<()> {
    println!(rt; "{} {} {:016x}", name(c), t.number, t.print)
}

// A call that is no history's, by its number, on what is dealt.
fn answer(c: usize, d: &[u64; 32]) -> Outcome {
    match c {
        26..=43 | 56 | 59..=62 | 64 => bare_answer(c, deal(d)),
        _ => over_sheet(c, d),
    }
}

// The line of a call on what is dealt from a seed.
fn print_answer(rt: &impl Print, c: usize, seed: u64) -> io::Result<()> {
    let d = deck(seed);
    print_line(rt, c, answer(c, &d))
}

// The lines of a call, on as many inputs as each has.
fn print_call(rt: &impl Print, c: usize, seed: u64) -> io::Result<()> {
    for i in 0..EACH {
        print_answer(rt, c, seed.wrapping_add(i))?;
    }
    Ok(())
}

// The calls from 44 to 55, and 65, are a history's.
fn number(i: usize) -> usize {
    match i {
        44..=52 => i + 12,
        _ => i,
    }
}

// The 53 calls that are no history's.
fn print_calls(rt: &impl Print) -> io::Result<()> {
    for c in 0..53 {
        print_call(rt, number(c), 1000 * c as u64)?;
    }
    Ok(())
}

// Which call of a history is made: mostly a push, an undo or a redo.
fn call_of(x: u64) -> usize {
    match pick(x, 26) {
        0..=9 => 45,
        10..=12 => 46,
        13..=15 => 47,
        16 => 48,
        17 => 49,
        18 => 50,
        19 => 51,
        20 => 52,
        21 => 53,
        22 => 54,
        23 => 55,
        _ => 65,
    }
}

// Whether a call moves nothing on: the questions, and `convert`.
fn looks(c: usize) -> bool {
    matches!(c, 49..=54 | 65)
}

// A call of a history.
fn print_step(
    rt: &impl Print,
    c: usize,
    a: Hand,
    w: usize,
    h: usize,
    m: Moved,
    palette: &mut [u8],
    lab: &mut [f64],
    indices: &mut [i16],
    locks: &mut [bool],
    form: Form,
    journal: &mut [u8],
) -> io::Result<Moved> {
    damage(a, journal);
    if looks(c) {
        print_line(rt, c, look(c, a, w, h, form, journal, m.handle))?;
        return Ok(m);
    }
    let n = change(c, a, w, h, m, palette, lab, indices, locks, form, journal);
    print_line(
        rt,
        c,
        told_change(c, n, palette, lab, indices, locks, journal),
    )?;
    Ok(n)
}

// The call of a history that is dealt from a seed.
fn print_next(
    rt: &impl Print,
    seed: u64,
    w: usize,
    h: usize,
    m: Moved,
    palette: &mut [u8],
    lab: &mut [f64],
    indices: &mut [i16],
    locks: &mut [bool],
    form: Form,
    journal: &mut [u8],
) -> io::Result<Moved> {
    let d = deck(seed);
    let c = call_of(d[8]);
    print_step(
        rt,
        c,
        deal(&d),
        w,
        h,
        m,
        palette,
        lab,
        indices,
        locks,
        form,
        journal,
    )
}

// The calls of a history after its first.
fn print_steps(
    rt: &impl Print,
    seed: u64,
    w: usize,
    h: usize,
    first: Moved,
    palette: &mut [u8],
    lab: &mut [f64],
    indices: &mut [i16],
    locks: &mut [bool],
    form: Form,
    journal: &mut [u8],
) -> io::Result<()> {
    let mut m = first;
    for i in 1..STEPS {
        let next = seed.wrapping_add(i);
        m = print_next(
            rt, next, w, h, m, palette, lab, indices, locks, form, journal,
        )?;
    }
    Ok(())
}

// A history over a sheet, in one form, call by call. Of the first, `fresh`, the count is told as 1.
fn print_history(rt: &impl Print, seed: u64) -> io::Result<()> {
    let d = deck(seed);
    let w = 3;
    let h = 2;
    let k = pick(d[10], 4);
    let mut palette = [0u8; 765];
    let mut lab = [0.0f64; 765];
    let mut indices = [0i16; 6];
    let mut locks = [false; 255];
    let mut journal = [0u8; 120];
    fill_bytes(d[12], &mut palette);
    fill_indices(d[13], k, &mut indices);
    fill_bytes(d[14], &mut journal);
    fill_locks(d[9], &mut locks);
    let answer = open(w, h, k, &palette, &mut lab, &indices, &mut locks);
    let handle = fresh();
    print_line(rt, 44, told_state(0, 1, handle))?;
    print_steps(
        rt,
        seed,
        w,
        h,
        Moved { answer, k, handle },
        &mut palette,
        &mut lab,
        &mut indices,
        &mut locks,
        form(d[15]),
        &mut journal,
    )
}

fn main(rt: HostRuntime) -> io::Result<()> {
    print_calls(&rt)?;
    for i in 0..HISTORIES {
        print_history(&rt, 1_000_000 + 1000 * i)?;
    }
    Ok(())
}
