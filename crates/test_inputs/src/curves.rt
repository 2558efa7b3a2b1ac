// Curves of a maker's own (document 02, E6), dealt from a seed; some break a rule.
use crate::dealt::{next, pick};

// How far a value lies above the one before: 2^-8, 2^-9, 2^-16 or 2^-30. Sums of 255 are exact, and below 1.
fn rise(x: u64) -> f64 {
    match pick(x, 4) {
        0 => 0.00390625,
        1 => 0.001953125,
        2 => 0.0000152587890625,
        _ => 0.000000000931322574615478515625,
    }
}

// The first is 0, each greater than the one before.
fn fill_rising(seed: u64, values: &mut [f64; 256]) {
    let mut x = seed;
    let mut v = 0.0;
    for value in values.iter_mut() {
        *value = v;
        x = next(x);
        v += rise(x);
    }
}

// Breaks a rule, by its number: the last, neighbours, the first, no number. The -0.0 of 4 breaks none.
fn break_rule(rule: usize, values: &mut [f64; 256]) {
    let far = 1e300 * 1e300;
    match rule {
        0 => values[255] = 0.9999999999999999,
        1 => values[128] = values[127],
        2 => values[0] = -0.5,
        3 => values[64] = far - far,
        4 => values[0] = -0.0,
        _ => {}
    }
}

// A curve, with a rule broken where the number has one.
pub fn curve(seed: u64, rule: usize) -> [f64; 256] {
    let mut values = [0.0f64; 256];
    fill_rising(seed, &mut values);
    values[255] = 1.0;
    break_rule(rule, &mut values);
    values
}

// How many values are lent: 256, or for rule 5 one too few.
fn count(rule: usize) -> usize {
    if rule == 5 { 255 } else { 256 }
}

// The values that are lent.
pub fn lent_values(values: &[f64], rule: usize) -> &[f64] {
    &values[..count(rule).min(values.len())]
}
