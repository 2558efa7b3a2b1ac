// Document 01's program on five further inputs, one after the other, each a session of its own:
//
// lines      lines of every kind: malformed and over-long ones, failed openings, calls before the opening, a second opening,
//            either case, and a last line without its newline. It takes 35 reads, and its long lines straddle them.
// full       a journal that fills up, and what follows; positions past 255; a palette of 0 to 255 entries.
// largest    the largest sheet, 64 by 64, with 255 entries.
// merge      merges whose record fits a fresh journal, 507 pixels, and does not, 508; 18 before 14.
// smallest   the smallest sheet: a side of 0, and no entry.
#![tactic(auto)]

use std::rt::Files;
use std::{fs, io};

// Answers the file of that name.
fn answer<R: Files + Print>(rt: &R, name: &str) -> io::Result<()> {
    let mut input = fs::open(rt, name)?;
    panel_console::run(&mut input, &mut io::writer(rt));
    Ok(())
}

fn main(rt: HostRuntime) -> io::Result<()> {
    answer(&rt, "lines")?;
    answer(&rt, "full")?;
    answer(&rt, "largest")?;
    answer(&rt, "merge")?;
    answer(&rt, "smallest")
}
