// Two symbols of different makers, put on one palette: each is read from the line of its maker's library, then both are
// joined. Every symbol is printed in its one spelling, before and after.
//
// The program owns every buffer and lends it to the calls. Both symbols are 3 by 2.
#![tactic(auto)]

ghost use Rattle.std.specs.Prelude.{◌≤◌};

use base::{Counted, Joined, Opened};
use editor::{join, read_sheet, spell};
use std::io;

// The longest line of such a symbol: 13 bytes, 255 entries and 6 indices.
const LONGEST: usize = 1555;

// A sheet, as a program keeps it.
#[derive(Clone, Copy)]
struct Symbol {
    k: usize,
    palette: [u8; 765],
    lab: [f64; 765],
    indices: [i16; 6],
    locks: [bool; 255],
}

// One with no entries.
fn blank() -> Symbol {
    Symbol {
        k: 0,
        palette: [0; 765],
        lab: [0.0; 765],
        indices: [-1; 6],
        locks: [false; 255],
    }
}

// How many entries a line has, none where it is refused.
fn entries(read: Opened) -> usize {
    match read {
        Opened::Sheet { k, .. } => k,
        Opened::Refused(_) => 0,
    }
}

// How many bytes a line has, none where its sheet is refused; at most as many as there are.
fn bytes(spelt: Counted) -> usize
    ensures { result ≤ LONGEST }
{
    match spelt {
        Counted::Count(n) if n <= LONGEST => n,
        _ => 0,
    }
}

// The joined count, none where the sheets are refused.
fn count(joined: Joined) -> usize {
    match joined {
        Joined::Palette { k, .. } => k,
        Joined::Refused(_) => 0,
    }
}

// A symbol read from a line, none of its entries locked.
fn read(line: &[u8]) -> Symbol {
    let mut s = blank();
    s.k = entries(read_sheet(line, &mut s.palette, &mut s.lab, &mut s.indices));
    s
}

// A symbol's line.
fn print(rt: &impl Print, s: &Symbol) -> io::Result<()> {
    let mut text = [0u8; LONGEST];
    let n = bytes(spell(3, 2, s.k, &s.palette, &s.lab, &s.indices, &mut text));
    rt.write_all(&text[..n])
}

// Both symbols on one palette.
fn put_together(a: &Symbol, b: &Symbol) -> (Symbol, Symbol) {
    let mut first = blank();
    let mut second = blank();
    let joined = join(
        3,
        2,
        a.k,
        &a.palette,
        &a.lab,
        &a.indices,
        &a.locks,
        3,
        2,
        b.k,
        &b.palette,
        &b.lab,
        &b.indices,
        &b.locks,
        3,
        2,
        &mut first.palette,
        &mut first.lab,
        &mut first.indices,
        &mut first.locks,
        3,
        2,
        &mut second.palette,
        &mut second.lab,
        &mut second.indices,
        &mut second.locks,
    );
    let k = count(joined);
    first.k = k;
    second.k = k;
    (first, second)
}

fn main(rt: HostRuntime) -> io::Result<()> {
    // black, red and white
    let ours = read(b"000300020003000000FF0000FFFFFF00010201FF02\n");
    // red, green, and red once more
    let theirs = read(b"000300020003FF000000FF00FF00000001020102FF\n");
    print(&rt, &ours)?;
    print(&rt, &theirs)?;
    let (first, second) = put_together(&ours, &theirs);
    print(&rt, &first)?;
    print(&rt, &second)
}
