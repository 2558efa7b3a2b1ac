// Structs and enums as numbers in small arrays, and back, for the other `c_` crates. Of these functions it is proved
// that they are safe and end.
#![tactic(auto)]

ghost use Rattle.std.specs.Prelude.{◌≡◌};
ghost use Rattle.base.specs.Answer.{number, truth_told};

use base::{Counted, Edit, Form, Got, Handle, Lab, Rgb, Truth};
use selection::{Area, Chosen, Selection};

// No value: "still", nothing, outside, free.
pub const NONE: u8 = 255;

pub fn rgb_of(c: &[u8; 3]) -> Rgb {
    let [r, g, b] = *c;
    Rgb { r, g, b }
}

pub fn lab_of(c: &[f64; 3]) -> Lab {
    let [l, a, b] = *c;
    Lab { l, a, b }
}

// The handle's five numbers stand behind the palette count.
pub fn handle_of(state: &[usize; 6]) -> Handle {
    let [_, offset, end, position, count, saved] = *state;
    Handle {
        offset,
        end,
        position,
        count,
        saved,
    }
}

pub fn tell_handle(handle: Handle, state: &mut [usize; 6]) {
    state[1] = handle.offset;
    state[2] = handle.end;
    state[3] = handle.position;
    state[4] = handle.count;
    state[5] = handle.saved;
}

// The form of a journal: 0 coordinates, else places.
pub fn form_of(n: u8) -> Form {
    if n == 0 {
        Form::Coordinates
    } else {
        Form::Places
    }
}

pub fn part_of(s: &[u16; 4]) -> Selection {
    let [x, y, w, h] = *s;
    Selection { x, y, w, h }
}

// All where the flag says so, else the part.
pub fn area_of(whole: bool, s: &[u16; 4]) -> Area {
    if whole {
        Area::Whole
    } else {
        Area::Part(part_of(s))
    }
}

// What a wrapper returns for a kind that no edit has: none of document 01's numbers.
pub const NO_EDIT: u8 = 254;

// Whether the bytes are an edit's: of a kind from 1 to 5. Each wrapper asks it before `edit_of`.
pub fn is_edit(bytes: &[u8; 8]) -> bool {
    matches!(bytes[0], 1..=5)
}

// An edit: kind, tool, old colour and new colour in bytes; its index; its LAB. A lock's marks stand where the colours' reds do.
pub fn edit_of(bytes: &[u8; 8], index: usize, doubles: &[f64; 3]) -> Edit {
    let [kind, tool, old_r, old_g, old_b, new_r, new_g, new_b] = *bytes;
    let old = Rgb {
        r: old_r,
        g: old_g,
        b: old_b,
    };
    let new = Rgb {
        r: new_r,
        g: new_g,
        b: new_b,
    };
    match kind {
        1 => Edit::Pixels { tool },
        2 => Edit::PaletteSet {
            index,
            old,
            new,
            old_lab: lab_of(doubles),
        },
        3 => Edit::PaletteAdd { rgb: new },
        4 => Edit::PaletteRemove {
            index,
            rgb: old,
            lab: lab_of(doubles),
        },
        _ => Edit::PaletteLock {
            index,
            old: old_r != 0,
            new: new_r != 0,
        },
    }
}

pub fn tell_lab(c: Lab, doubles: &mut [f64; 3]) {
    *doubles = [c.l, c.a, c.b];
}

fn tell_old(c: Rgb, bytes: &mut [u8; 8]) {
    bytes[2] = c.r;
    bytes[3] = c.g;
    bytes[4] = c.b;
}

fn tell_new(c: Rgb, bytes: &mut [u8; 8]) {
    bytes[5] = c.r;
    bytes[6] = c.g;
    bytes[7] = c.b;
}

// The edit as `edit_of` reads it, its index in r[0].
pub fn tell_edit(e: Edit, bytes: &mut [u8; 8], doubles: &mut [f64; 3], r: &mut [usize; 5]) {
    match e {
        Edit::Pixels { tool } => {
            bytes[0] = 1;
            bytes[1] = tool;
        }
        Edit::PaletteSet {
            index,
            old,
            new,
            old_lab,
        } => {
            bytes[0] = 2;
            tell_old(old, bytes);
            tell_new(new, bytes);
            tell_lab(old_lab, doubles);
            r[0] = index;
        }
        Edit::PaletteAdd { rgb } => {
            bytes[0] = 3;
            tell_new(rgb, bytes);
        }
        Edit::PaletteRemove { index, rgb, lab } => {
            bytes[0] = 4;
            tell_old(rgb, bytes);
            tell_lab(lab, doubles);
            r[0] = index;
        }
        Edit::PaletteLock { index, old, new } => {
            bytes[0] = 5;
            bytes[2] = old.into();
            bytes[5] = new.into();
            r[0] = index;
        }
    }
}

pub fn tell_part(p: Selection, s: &mut [u16; 4]) {
    *s = [p.x, p.y, p.w, p.h];
}

pub fn tell_chosen(c: Chosen, s: &mut [u16; 4]) -> u8 {
    match c {
        Chosen::Part(p) => {
            tell_part(p, s);
            0
        }
        Chosen::Nothing => NONE,
        Chosen::Refused(n) => n,
    }
}

pub fn tell_count(c: Counted, r: &mut [usize; 5]) -> u8 {
    match c {
        Counted::Count(n) => {
            r[0] = n;
            0
        }
        Counted::Refused(n) => n,
    }
}

// r[0] is 1 for true.
pub fn tell_truth(t: Truth, r: &mut [usize; 5]) -> u8
    ensures { result ≡ number (truth_told t) }
{
    match t {
        Truth::Is(b) => {
            r[0] = b.into();
            0
        }
        Truth::Refused(n) => n,
    }
}

pub fn tell_got(g: Got, got: &mut [i16; 1]) -> u8 {
    match g {
        Got::Index(i) => {
            got[0] = i;
            0
        }
        Got::Outside => NONE,
        Got::Refused(n) => n,
    }
}
