// A table of published values beside what `color::rgb8_to_lab` answers.
ghost use Rattle.std.specs.Prelude.{◌≡◌, ◌+◌, ◌≤◌, length};
ghost use Rattle.test_colors.specs.Counts.{max_rows, Counts};

use base::{Lab, Rgb};

// How many rows there are, how many agree at the printed digits, and how many lie within 0.01.
#[derive(Clone, Copy)]
pub struct Tally {
    pub rows: usize,
    pub agree: usize,
    pub near: usize,
}

// Whether x and y differ by at most `most`.
fn close(x: f64, y: f64, most: f64) -> bool {
    (x - y).abs() <= most
}

// Whether each coordinate differs by at most `most`.
fn all_close(ours: Lab, printed: [f64; 3], most: f64) -> bool {
    close(ours.l, printed[0], most)
        && close(ours.a, printed[1], most)
        && close(ours.b, printed[2], most)
}

// The LAB of a colour's three bytes.
fn lab_of([r, g, b]: [u8; 3]) -> Lab {
    color::rgb8_to_lab(Rgb { r, g, b })
}

// The count of one row.
fn one_row(colour: [u8; 3], printed: [f64; 3], half: f64) -> Tally
    ensures { Counts 1 result }
{
    let ours = lab_of(colour);
    Tally {
        rows: 1,
        agree: all_close(ours, printed, half).into(),
        near: all_close(ours, printed, 0.01).into(),
    }
}

// Two counts as one.
pub fn plus(t: Tally, u: Tally) -> Tally
    requires rows_bound { t.rows + u.rows ≤ max_rows }
    requires counts { Counts t.rows t }
    requires counts_2 { Counts u.rows u }
    ensures { Counts (t.rows + u.rows) result }
{
    Tally {
        rows: t.rows + u.rows,
        agree: t.agree + u.agree,
        near: t.near + u.near,
    }
}

// The count of a table: the colours, and what is printed for each. `half` is half a unit of the last
// digit.
pub fn count(colours: &[[u8; 3]], printed: &[[f64; 3]], half: f64) -> Tally
    requires colours_len { length colours.now ≡ length printed.now }
    requires colours_len_bound { length colours.now ≤ max_rows }
    ensures { Counts (length colours.now) result }
{
    let mut t = Tally {
        rows: 0,
        agree: 0,
        near: 0,
    };
    for (colour, shown) in colours.iter().zip(printed) {
        t = plus(t, one_row(*colour, *shown, half));
    }
    t
}
