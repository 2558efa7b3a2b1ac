// The calls that are given no sheet.
use base::{Counted, Edit, Lab, Rgb, Root, Triple, Truth};
use change_stroke::Stroke;
use selection::{Chosen, Held, Selection};
use test_answers::{FREE, NONE, of_chosen, of_counted, of_flag, of_number, of_op, of_word};
use test_inputs::{
    Hand, Outcome, colour, colours, curve, fill_indices, fill_list, lent_values, mix, mix_all,
    mix_number, told,
};
use test_lists::{extend, normalize, pixels};

fn of_double(x: f64) -> Outcome {
    told(0, mix_all(mix_number(0), &[x]))
}

// The distance of two colours, which are now and then the same.
fn dist2(a: Hand) -> f64 {
    let p = editor::rgb8_to_lab(colour(a.seeds.colour));
    let q = editor::rgb8_to_lab(colour(a.seeds.first));
    editor::dist2(p, q)
}

fn rgb8_to_lab(a: Hand) -> Outcome {
    let c = editor::rgb8_to_lab(colour(a.seeds.colour));
    told(0, mix_all(mix_number(0), &[c.l, c.a, c.b]))
}

fn rgb8_to_lab_by(a: Hand) -> Outcome {
    let rule = a.choice.rule;
    let values = curve(a.seeds.curve, rule);
    let rgb = colour(a.seeds.colour);
    match editor::rgb8_to_lab_by(a.choice.loaded, lent_values(&values, rule), rgb) {
        Triple::Value(c) => told(0, mix_all(mix_number(0), &[c.l, c.a, c.b])),
        Triple::Refused(no) => told(no, mix_all(mix_number(no), &[1.5; 3])),
    }
}

fn cbrt(a: Hand) -> Outcome {
    match editor::cbrt(a.choice.radicand) {
        Root::Value(x) => told(0, mix_all(mix_number(0), &[x, 1.5, 1.5])),
        Root::Refused(no) => told(no, mix_all(mix_number(no), &[1.5; 3])),
    }
}

// A list of up to 4 bytes.
fn permitted_no(a: Hand) -> u8 {
    let list = colours(a.seeds.listed);
    sheet::permitted_no(a.choice.even, &list[..a.choice.size.min(list.len())])
}

fn check_color(a: Hand) -> u8 {
    let list = colours(a.seeds.listed);
    editor::check_color(a.choice.limited, &list, colour(a.seeds.colour)).number()
}

fn any_stray_below(a: Hand) -> bool {
    let mut indices = [0i16; 6];
    fill_indices(a.seeds.seed, 3, &mut indices);
    sheet::any_stray_below(&indices, a.choice.index)
}

// The calls that answer a selection.
fn chosen(c: usize, a: Hand) -> Chosen {
    let p = a.spot;
    let area = p.area;
    let w = a.sides.wide;
    let h = a.sides.high;
    match c {
        28 => Selection::all(w, h),
        29 => Selection::from_corners(p.x, p.far_y, p.to_x, p.far_to_y, w, h),
        32 => p.part.translated(p.x, p.far_y, w, h),
        33 => p.part.grown(a.sides.margin, w, h),
        _ => editor::region(area, w, h),
    }
}

// Inside is told as 1 with the number 0.
fn contains_i(a: Hand) -> Outcome {
    match a.spot.part.contains_i(a.spot.x, a.spot.far_y) {
        Held::Inside => of_word(1),
        Held::Outside => told(NONE, mix_all(mix_number(NONE), &[NONE])),
        Held::Refused(no) => told(no, mix_all(mix_number(no), &[no])),
    }
}

fn positions(a: Hand) -> Outcome {
    let mut out = [0x5a5a_5a5ai32; 7];
    let t = of_counted(a.spot.part.positions(&mut out));
    told(t.number, mix_all(t.print, &out))
}

fn bresenham(a: Hand) -> Outcome {
    let p = a.spot;
    let mut out = [0x5a5a_5a5ai32; 11];
    let t = of_counted(editor::bresenham(p.x, p.y, p.to_x, p.to_y, &mut out));
    told(t.number, mix_all(t.print, &out))
}

fn normalized(a: Hand) -> Outcome {
    let mut list = [0u64; 5];
    let mut scratch = [0u64; 5];
    let mut out = [0x5a5a_5a5a_5a5a_5a5au64; 4];
    fill_list(a.seeds.seed, &mut list);
    let t = of_counted(normalize(&list, &mut scratch, &mut out));
    told(t.number, mix_all(t.print, &out))
}

fn made(a: Hand) -> Outcome {
    let mut list = [0u64; 5];
    let mut scratch = [0u64; 5];
    let mut out = [0x5a5a_5a5a_5a5a_5a5au64; 4];
    fill_list(a.seeds.seed, &mut list);
    let t = of_op(
        pixels(a.choice.tool, &list, &mut scratch, &mut out),
        FREE,
        FREE,
    );
    told(t.number, mix_all(t.print, &out))
}

// An edit of the kind, with the tool, the entry, the colours or the marks that are dealt.
pub(crate) fn edit(a: Hand) -> Edit {
    let kind = a.choice.kind;
    let index = a.choice.from;
    let old = Rgb {
        r: a.choice.byte,
        g: 0,
        b: 0,
    };
    let new = colour(a.seeds.colour);
    let zero = Lab {
        l: 0.0,
        a: 0.0,
        b: 0.0,
    };
    match kind {
        1 => Edit::Pixels {
            tool: a.choice.tool,
        },
        2 => Edit::PaletteSet {
            index,
            old,
            new,
            old_lab: zero,
        },
        3 => Edit::PaletteAdd { rgb: new },
        4 => Edit::PaletteRemove {
            index,
            rgb: old,
            lab: zero,
        },
        _ => Edit::PaletteLock {
            index,
            old: a.choice.even,
            new: a.choice.lock,
        },
    }
}

fn one_if(t: Truth) -> u64 {
    match t {
        Truth::Is(b) => b.into(),
        Truth::Refused(_) => 0,
    }
}

// Beside a list of one change, and of none.
fn is_empty(a: Hand) -> Outcome {
    let e = edit(a);
    let one = one_if(editor::is_empty(e, &[0]));
    let none = one_if(editor::is_empty(e, &[]));
    told(0, mix(mix(mix_number(0), one), none))
}

// A count, or what stands in for it where it is refused.
fn count_or(c: Counted, other: usize) -> usize {
    match c {
        Counted::Count(n) => n,
        Counted::Refused(_) => other,
    }
}

// A stroke whose changes are the normal form of a list, and an event.
fn extended(a: Hand) -> Outcome {
    let mut list = [0u64; 4];
    let mut event = [0u64; 3];
    let mut scratch = [0u64; 7];
    let mut stroke = [0x5a5a_5a5a_5a5a_5a5au64; 5];
    fill_list(a.seeds.seed, &mut list);
    fill_list(a.seeds.event, &mut event);
    let count = count_or(normalize(&list, &mut scratch, &mut stroke), FREE);
    let t = of_counted(extend(&mut stroke, count, &event, &mut scratch));
    told(t.number, mix_all(t.print, &stroke))
}

// A stroke of up to four changes in normal form: at x = 0, 1, 2 and 3, from 0 to 1.
fn stroke(a: Hand) -> Outcome {
    let mut scratch = [0u64; 4];
    let mut buffer = [
        0x0001_0000_0000_0000u64,
        0x0001_0000_0000_0001u64,
        0x0001_0000_0000_0002u64,
        0x0001_0000_0000_0003u64,
    ];
    let new = Stroke::new(a.choice.tool);
    let s = Stroke {
        tool: new.tool(),
        count: a.choice.from,
    };
    let fresh = count_or(new.changes(&buffer), FREE);
    let own = count_or(s.changes(&buffer), FREE);
    of_op(s.into_op(&mut buffer, &mut scratch), fresh, own)
}

// A tile's side, two half of the time.
fn tile_side(a: Hand) -> usize {
    if a.choice.even { 2 } else { a.choice.size }
}

fn flip(a: Hand) -> Outcome {
    let mut tile = [0i16; 4];
    let mut out = [0x5a5ai16; 5];
    fill_indices(a.seeds.seed, 3, &mut tile);
    let flipped = editor::flip(
        &tile,
        tile_side(a),
        a.spot.whole,
        a.choice.limited,
        &mut out,
    );
    let t = of_counted(flipped);
    told(t.number, mix_all(t.print, &out))
}

fn listed(c: usize, a: Hand) -> Outcome {
    match c {
        34 => positions(a),
        36 => bresenham(a),
        37 => normalized(a),
        38 => made(a),
        39 => is_empty(a),
        41 => extended(a),
        42 => stroke(a),
        _ => flip(a),
    }
}

pub fn bare_answer(c: usize, a: Hand) -> Outcome {
    match c {
        26 => rgb8_to_lab(a),
        27 => cbrt(a),
        28 | 29 | 32 | 33 | 35 => of_chosen(chosen(c, a)),
        30 => of_flag(a.spot.part.contains(a.spot.across, a.spot.down)),
        31 => contains_i(a),
        40 => of_word(editor::kind(edit(a)).into()),
        43 => of_number(check_color(a)),
        59 => of_double(editor::linear(a.choice.byte)),
        60 => of_double(dist2(a)),
        61 => of_number(permitted_no(a)),
        62 => of_flag(any_stray_below(a)),
        64 => rgb8_to_lab_by(a),
        _ => listed(c, a),
    }
}
