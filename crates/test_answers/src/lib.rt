// What a call answered, told by a number and a fingerprint: 0 and the answer's own numbers, 255 for "still", nothing or
// outside, else the refusal's own. A place that an answer leaves free is 7777, of bytes 0x5a, of doubles 1.5.
#![tactic(auto)]

use base::{
    Choices, Copied, Counted, Edit, Extraction, Found, Got, MadeEdit, MadeOp, Next, Removal,
    Removed, Truth,
};
use selection::{Chosen, Shifted};
use test_inputs::{Outcome, mix, mix_all, mix_number, told};

// No value: "still", nothing, outside, free.
pub const NONE: u8 = 255;

pub const FREE: usize = 7777;

// A number alone.
pub fn of_number(no: u8) -> Outcome {
    told(no, mix_number(no))
}

pub fn of_word(word: u64) -> Outcome {
    told(0, mix(mix_number(0), word))
}

pub fn of_flag(b: bool) -> Outcome {
    of_word(b.into())
}

// A number, and two more.
fn of_two(no: u8, first: usize, second: usize) -> Outcome {
    let r = [first, second, FREE, FREE, FREE];
    told(no, mix_all(mix_number(no), &r))
}

fn of_none(no: u8) -> Outcome {
    of_two(no, FREE, FREE)
}

pub fn of_counted(c: Counted) -> Outcome {
    match c {
        Counted::Count(n) => of_two(0, n, FREE),
        Counted::Refused(no) => of_none(no),
    }
}

// The distance that is handed back beside an answer.
fn with_distance(t: Outcome, distance: f64) -> Outcome {
    told(t.number, mix_all(t.print, &[distance]))
}

pub fn of_found(f: Found) -> Outcome {
    match f {
        Found::Entry { index, distance } => with_distance(of_two(0, index, FREE), distance),
        Found::Refused(no) => with_distance(of_none(no), 1.5),
    }
}

pub fn of_choices(c: Choices) -> Outcome {
    match c {
        Choices::Free => of_none(NONE),
        Choices::Count(n) => of_two(0, n, FREE),
        Choices::Refused(no) => of_none(no),
    }
}

pub fn of_copied(c: Copied) -> Outcome {
    match c {
        Copied::Clip { w, h } => of_two(0, w, h),
        Copied::Refused(no) => of_none(no),
    }
}

pub fn of_extraction(e: Extraction) -> Outcome {
    match e {
        Extraction::Made { tiles, entries } => of_two(0, tiles, entries),
        Extraction::Refused(no) => of_none(no),
    }
}

pub fn of_truth(t: Truth) -> Outcome {
    match t {
        Truth::Is(b) => of_two(0, b.into(), FREE),
        Truth::Refused(no) => of_none(no),
    }
}

fn of_index(no: u8, index: i16) -> Outcome {
    told(no, mix_all(mix_number(no), &[index]))
}

pub fn of_got(g: Got) -> Outcome {
    match g {
        Got::Index(i) => of_index(0, i),
        Got::Outside => of_index(NONE, 0x5a5a),
        Got::Refused(no) => of_index(no, 0x5a5a),
    }
}

fn chosen_no(c: Chosen) -> u8 {
    match c {
        Chosen::Part(_) => 0,
        Chosen::Nothing => NONE,
        Chosen::Refused(no) => no,
    }
}

fn mix_chosen(print: u64, c: Chosen) -> u64 {
    match c {
        Chosen::Part(p) => mix_all(print, &[p.x, p.y, p.w, p.h]),
        _ => mix_all(print, &[FREE; 4]),
    }
}

pub fn of_chosen(c: Chosen) -> Outcome {
    let no = chosen_no(c);
    told(no, mix_chosen(mix_number(no), c))
}

// The count, what `chosen_no` says of the new selection, and that.
pub fn of_shifted(s: Shifted) -> Outcome {
    match s {
        Shifted::Changes { count, selection } => {
            let t = of_two(0, count, chosen_no(selection) as usize);
            told(0, mix_chosen(t.print, selection))
        }
        Shifted::Refused(no) => told(no, mix_chosen(of_none(no).print, Chosen::Nothing)),
    }
}

// An edit as numbers: its index; its kind, its tool, its old colour and its new one; its LAB. A lock's marks stand where the
// colours' reds do.
#[derive(Clone, Copy)]
struct Plain {
    index: usize,
    bytes: [u8; 8],
    doubles: [f64; 3],
}

fn numbers_of(e: Edit) -> Plain {
    match e {
        Edit::Pixels { tool } => Plain {
            index: FREE,
            bytes: [1, tool, 0x5a, 0x5a, 0x5a, 0x5a, 0x5a, 0x5a],
            doubles: [1.5; 3],
        },
        Edit::PaletteSet {
            index,
            old,
            new,
            old_lab,
        } => Plain {
            index,
            bytes: [2, 0x5a, old.r, old.g, old.b, new.r, new.g, new.b],
            doubles: [old_lab.l, old_lab.a, old_lab.b],
        },
        Edit::PaletteAdd { rgb } => Plain {
            index: FREE,
            bytes: [3, 0x5a, 0x5a, 0x5a, 0x5a, rgb.r, rgb.g, rgb.b],
            doubles: [1.5; 3],
        },
        Edit::PaletteRemove { index, rgb, lab } => Plain {
            index,
            bytes: [4, 0x5a, rgb.r, rgb.g, rgb.b, 0x5a, 0x5a, 0x5a],
            doubles: [lab.l, lab.a, lab.b],
        },
        Edit::PaletteLock { index, old, new } => Plain {
            index,
            bytes: [5, 0x5a, old.into(), 0x5a, 0x5a, new.into(), 0x5a, 0x5a],
            doubles: [1.5; 3],
        },
    }
}

// A number, an edit, and what is told beside it.
fn of_plain(no: u8, p: Plain, beside: [usize; 4]) -> Outcome {
    let index = mix_all(mix_number(no), &[p.index]);
    let edit = mix_all(mix_all(mix_all(index, &beside), &p.bytes), &p.doubles);
    told(no, edit)
}

fn of_edit(e: Edit, beside: [usize; 4]) -> Outcome {
    of_plain(0, numbers_of(e), beside)
}

// No edit, where one may be answered.
fn of_no_edit(no: u8, beside: [usize; 4]) -> Outcome {
    let p = Plain {
        index: FREE,
        bytes: [0x5a; 8],
        doubles: [1.5; 3],
    };
    of_plain(no, p, beside)
}

pub fn of_made(m: MadeEdit) -> Outcome {
    match m {
        MadeEdit::Edit(e) => of_edit(e, [FREE; 4]),
        MadeEdit::Refused(no) => of_no_edit(no, [FREE; 4]),
    }
}

pub fn of_removed(m: Removed) -> Outcome {
    match m {
        Removed::Made {
            edit,
            count,
            into,
            distance,
        } => with_distance(of_edit(edit, [count, into, FREE, FREE]), distance),
        Removed::Refused(no) => with_distance(of_no_edit(no, [FREE; 4]), 1.5),
    }
}

pub fn of_removal(m: Removal) -> Outcome {
    match m {
        Removal::Made { edit, count } => of_edit(edit, [count, FREE, FREE, FREE]),
        Removal::Refused(no) => of_no_edit(no, [FREE; 4]),
    }
}

// An edit that a list or a stroke was made to; of a stroke two counts are told beside it.
pub fn of_op(m: MadeOp, fresh: usize, own: usize) -> Outcome {
    match m {
        MadeOp::Op { edit, count } => of_edit(edit, [count, fresh, own, FREE]),
        MadeOp::Refused(no) => of_no_edit(no, [FREE, fresh, own, FREE]),
    }
}

pub fn of_next(n: Next) -> Outcome {
    match n {
        Next::Record {
            edit,
            start,
            length,
            list,
            count,
        } => of_edit(edit, [start, length, list, count]),
        Next::Nothing => of_no_edit(NONE, [FREE; 4]),
        Next::Refused(no) => of_no_edit(no, [FREE; 4]),
    }
}
