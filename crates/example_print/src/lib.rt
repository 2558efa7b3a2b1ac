// What the examples print: a step, the number that it answered, and the sheet after it.
#![tactic(auto)]

use base::{Answer, Truth};
use std::{fmt, io};

// The steps of the program.
#[derive(Clone, Copy)]
pub enum Step {
    New,
    Push,
    Undo,
    Redo,
}

impl fmt::Display for Step {
    fn fmt<W: fmt::Write>(&self, f: &mut fmt::Formatter<W>) -> fmt::Result {
        f.write_str(match self {
            Step::New => "new",
            Step::Push => "push",
            Step::Undo => "undo",
            Step::Redo => "redo",
        })
    }
}

// An index as a letter; a dot is transparent.
fn letter(index: i16) -> u8 {
    match index {
        0 => b'a',
        1 => b'b',
        _ => b'.',
    }
}

// A row of 6, a letter a pixel.
fn print_row(rt: &impl Print, row: &[i16]) -> io::Result<()> {
    let mut text = [b'\n'; 7];
    for (place, pixel) in text.iter_mut().zip(row) {
        *place = letter(*pixel);
    }
    rt.write_all(&text)
}

// A step with its number, and the sheet of 6 by 4 after it.
pub fn show(rt: &impl Print, step: Step, answer: Answer, indices: &[i16]) -> io::Result<()> {
    println!(rt; "{step}: {}", answer.number())?;
    if indices.len() != 24 {
        return Ok(());
    }
    for row in indices.chunks_exact(6) {
        print_row(rt, row)?;
    }
    Ok(())
}

// What a question about the history answered.
pub fn show_dirty(rt: &impl Print, t: Truth) -> io::Result<()> {
    match t {
        Truth::Is(true) => println!(rt; "dirty: yes"),
        Truth::Is(false) => println!(rt; "dirty: no"),
        Truth::Refused(_) => println!(rt; "dirty: refused"),
    }
}
