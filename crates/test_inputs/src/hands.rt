// What a call is given, picked from its numbers once.
use crate::dealt::{
    byte, coordinate, form, height, index, kind, near, once_in, part, pick, side, width,
};
use base::Form;
use selection::{Area, Selection};

// Two places, near the sheet, with coordinates that may be far; a place from 0 on; a selection or all.
#[derive(Clone, Copy)]
pub struct Spot {
    pub x: i32,
    pub y: i32,
    pub far_y: i32,
    pub to_x: i32,
    pub to_y: i32,
    pub far_to_y: i32,
    pub across: usize,
    pub down: usize,
    pub whole: bool,
    pub part: Selection,
    pub area: Area,
}

// Two indices, two entries and a brush; whether there is a list of colours, and a curve, and its rule that is broken;
// a journal's form; an edit's kind, tool, byte and new mark; a radicand.
#[derive(Clone, Copy)]
pub struct Choice {
    pub index: i16,
    pub other: i16,
    pub from: usize,
    pub into: usize,
    pub size: usize,
    pub limited: bool,
    pub loaded: bool,
    pub rule: usize,
    pub form: Form,
    pub even: bool,
    pub kind: u8,
    pub tool: u8,
    pub byte: u8,
    pub lock: bool,
    pub radicand: f64,
}

// The sides of a picture of six pixels, of a baseline, and of any picture; a margin.
#[derive(Clone, Copy)]
pub struct Sides {
    pub w: usize,
    pub h: usize,
    pub base_w: usize,
    pub base_h: usize,
    pub base_k: usize,
    pub wide: usize,
    pub high: usize,
    pub margin: usize,
}

// The number of an applied record, where a byte of the journal may be changed, and the seeds of lists.
#[derive(Clone, Copy)]
pub struct Seeds {
    pub number: usize,
    pub hit: bool,
    pub place: usize,
    pub first: u64,
    pub seed: u64,
    pub event: u64,
    pub curve: u64,
    pub colour: u64,
    pub listed: u64,
}

#[derive(Clone, Copy)]
pub struct Hand {
    pub spot: Spot,
    pub choice: Choice,
    pub sides: Sides,
    pub seeds: Seeds,
}

// The seed of a colour: the palette's first, or another.
fn colour_seed(d: &[u64; 32]) -> u64 {
    if once_in(d[30], 2) { d[12] } else { d[30] }
}

// The seed of two permitted colours, of which the first may be that one.
fn listed_seed(d: &[u64; 32]) -> u64 {
    if once_in(d[31], 2) { d[30] } else { d[12] }
}

// What the sides of a baseline are picked by: the sheet's, mostly.
fn base_size(d: &[u64; 32]) -> u64 {
    if once_in(d[26], 8) { d[27] } else { d[8] }
}

// A margin, at the limit or past it now and then.
fn margin(x: u64) -> usize {
    match pick(x, 6) {
        0 => 65_536,
        1 => 65_537,
        _ => pick(x >> 8, 4),
    }
}

// A double in the root's range, at its ends, or past them.
fn radicand(x: u64) -> f64 {
    match pick(x, 12) {
        0 => 0.0,
        1 => 0.0078125,
        2 => 0.007812499999999999,
        3 => 2.0,
        4 => 2.0000000000000004,
        5 => -1.0,
        6 => 1.0,
        7 => 0.008856,
        8 => 0.3333333333333333,
        9 => 1.9999999999999998,
        10 => 0.125,
        _ => 0.7,
    }
}

// All, or the part.
fn area(whole: bool, part: Selection) -> Area {
    if whole { Area::Whole } else { Area::Part(part) }
}

fn deal_spot(d: &[u64; 32]) -> Spot {
    let part = part(d);
    let whole = once_in(d[14], 3);
    let area = area(whole, part);
    Spot {
        x: coordinate(d[19]),
        y: near(d[20]),
        far_y: coordinate(d[20]),
        to_x: near(d[21]),
        to_y: near(d[22]),
        far_to_y: coordinate(d[22]),
        across: pick(d[19], 8),
        down: pick(d[20], 8),
        whole,
        part,
        area,
    }
}

fn deal_choice(d: &[u64; 32]) -> Choice {
    Choice {
        index: index(d[23]),
        other: index(d[31]),
        from: pick(d[20], 4),
        into: pick(d[21], 4),
        size: pick(d[24], 5),
        limited: once_in(d[28], 3),
        loaded: once_in(d[16], 3),
        rule: pick(d[18], 12),
        form: form(d[15]),
        even: once_in(d[26], 2),
        kind: kind(d[23]),
        tool: byte(d[24]),
        byte: byte(d[25]),
        lock: once_in(d[27], 2),
        radicand: radicand(d[12]),
    }
}

fn deal_sides(d: &[u64; 32]) -> Sides {
    let size = base_size(d);
    Sides {
        w: width(d[21]),
        h: height(d[21]),
        base_w: width(size),
        base_h: height(size),
        base_k: pick(d[31], 4),
        wide: side(d[8]),
        high: side(d[9]),
        margin: margin(d[21]),
    }
}

fn deal_seeds(d: &[u64; 32]) -> Seeds {
    Seeds {
        number: pick(d[21], 4),
        hit: once_in(d[29], 12),
        place: pick(d[30], 120),
        first: d[12],
        seed: d[25],
        event: d[24],
        curve: d[17],
        colour: colour_seed(d),
        listed: listed_seed(d),
    }
}

pub fn deal(d: &[u64; 32]) -> Hand {
    Hand {
        spot: deal_spot(d),
        choice: deal_choice(d),
        sides: deal_sides(d),
        seeds: deal_seeds(d),
    }
}
