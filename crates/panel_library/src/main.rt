// The keepers' program: opening lines on standard input, each in its one spelling on standard output, or its number where
// it is refused, so that `sort` and `diff` compare libraries.
#![tactic(auto)]

mod chunk;
mod line;
mod reads;

// The longest text of a line: 13 bytes, 255 entries and 4,096 indices.
const LONGEST: usize = 9_735;

// After a byte: how much of a line is held, and how many bytes of text there are to write.
#[derive(Clone, Copy)]
struct Turn {
    len: usize,
    n: usize,
}

// After a chunk: how much of a line is held, how many bytes of text were taken, and whether these were all.
#[derive(Clone, Copy)]
struct Told {
    len: usize,
    said: usize,
    all: bool,
}

// After a read: how much of a line is held, how many bytes the read brought and how many of text were taken, whether no
// stream failed, and whether there may be more to read.
#[derive(Clone, Copy)]
struct Got {
    len: usize,
    n: usize,
    said: usize,
    sound: bool,
    more: bool,
}

// A run: how much of a line is held, how many reads were made, how many bytes they brought and how many of text were
// taken, both as 64 bits count them, what the last read brought, whether no stream failed, and whether there may be more
// to read.
#[derive(Clone, Copy)]
struct Run {
    len: usize,
    reads: u64,
    heard: u64,
    said: u64,
    last: usize,
    sound: bool,
    more: bool,
}

fn main(rt: HostRuntime) {
    reads::run(&mut rt.stdin(), &mut rt.stdout());
}
