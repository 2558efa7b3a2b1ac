// The calls over a sheet that take a curve.
use base::{Handle, NOWHERE};
use test_answers::of_copied;
use test_inputs::{Hand, Outcome, curve, fill_bytes, lent_values, mix_all, mix_number, told};

// `snap_rgba` of six pixels.
pub(crate) fn snap_rgba(
    a: Hand,
    w: usize,
    h: usize,
    k: usize,
    palette: &[u8],
    lab: &[f64],
    indices: &[i16],
) -> Outcome {
    let s = a.sides;
    let rule = a.choice.rule;
    let loaded = a.choice.loaded;
    let mut rgba = [0u8; 25];
    let mut out = [0x5a5ai16; 5];
    let values = curve(a.seeds.curve, rule);
    fill_bytes(a.seeds.seed, &mut rgba);
    let t = of_copied(editor::snap_rgba(
        w,
        h,
        k,
        palette,
        lab,
        indices,
        loaded,
        lent_values(&values, rule),
        &rgba,
        s.w,
        s.h,
        &mut out,
    ));
    told(t.number, mix_all(t.print, &out))
}

// A handle with no records, mostly; one with two or with one that is undone, or one that is not sound.
fn handle(n: usize) -> Handle {
    match n {
        0 => Handle {
            offset: 0,
            end: 8,
            position: 0,
            count: 1,
            saved: 0,
        },
        1 => Handle {
            offset: 16,
            end: 16,
            position: 2,
            count: 2,
            saved: NOWHERE,
        },
        2 => Handle {
            offset: 8,
            end: 8,
            position: 0,
            count: 0,
            saved: 0,
        },
        3 => Handle {
            offset: 0,
            end: 0,
            position: 0,
            count: 0,
            saved: NOWHERE,
        },
        _ => editor::fresh(),
    }
}

// `load_curve` beside a journal of two short records.
pub(crate) fn load_curve(
    a: Hand,
    w: usize,
    h: usize,
    k: usize,
    palette: &[u8],
    lab: &mut [f64],
    indices: &[i16],
) -> Outcome {
    let choice = a.choice;
    let form = choice.form;
    let rule = choice.rule;
    let journal = [0u8; 16];
    let values = curve(a.seeds.curve, rule);
    let no = editor::load_curve(
        w,
        h,
        k,
        palette,
        lab,
        indices,
        form,
        &journal,
        handle(a.spot.across),
        lent_values(&values, rule),
    )
    .number();
    told(no, mix_all(mix_number(no), lab))
}
