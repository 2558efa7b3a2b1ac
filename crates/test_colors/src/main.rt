// Published CIELAB (D65) values of 8-bit sRGB colours, compared with what `color::rgb8_to_lab` answers.
//
// A line for each source says how many of its rows agree at the printed digits, where each coordinate is
// off by at most half a unit of the last digit, and how many are within 0.01 in all three coordinates.
// The last line has the totals.
//
// The rows come from the tests and the documents of six packages; sources.rt names the version and the
// file of each. Only octave-image uses the matrix of color.rs. The others use one with other digits, so
// their values differ from ours, mostly in the third decimal. color-convert prints 0 or 1 decimals, too
// few to be within 0.01.
//
// The fractions of document 02, E7, in place of 0.008856 and 7.787 move no count. Two colours of the tables have a
// ratio at or below 216/24389: black, whose ratios are 0 and its f values 16/116 under either slope, and 127, 0, 0 of the
// Rust crate lab, whose b goes from 37.753817 to 37.753789, beside the printed 37.752514.
#![tactic(auto)]

mod compare;
mod sources;

ghost use Rattle.std.specs.Prelude.{IfOk};
ghost use Rattle.test_colors.specs.Counts.{Counts};

use compare::{Tally, plus};
use sources::{chroma, color_convert, farver, lindbloom, octave, rust_lab};
use std::io;

// Writes how many of the rows: "7 of 8".
fn print_share(rt: &impl Print, n: usize, rows: usize) -> io::Result<()> {
    print!(rt; "{n} of {rows}")
}

// Writes the line of a source, or of the totals.
fn print_line(rt: &impl Print, name: &str, t: Tally) -> io::Result<()> {
    print!(rt; "{name}: ")?;
    print_share(rt, t.agree, t.rows)?;
    print!(rt; " at the printed digits, ")?;
    print_share(rt, t.near, t.rows)?;
    println!(rt; " within 0.01")
}

// The source with the matrix of color.rs.
fn our_matrix(rt: &impl Print) -> io::Result<Tally>
    ensures { IfOk result (λ t. Counts 8 t) }
{
    let a = octave();
    print_line(rt, "octave-image 2.14.0, 2 decimals", a)?;
    Ok(a)
}

// The sources with Bruce Lindbloom's matrix, 0.4124564.
fn lindblooms_matrix(rt: &impl Print) -> io::Result<Tally>
    ensures { IfOk result (λ t. Counts 27 t) }
{
    let a = chroma();
    let b = lindbloom();
    let c = farver();
    print_line(rt, "chroma.js 2.4.0, 2 decimals", a)?;
    print_line(rt, "Lindbloom in scikit-image 0.19.3, 4 decimals", b)?;
    print_line(rt, "farver 2.1.1, 5 decimals", c)?;
    Ok(plus(plus(a, b), c))
}

// The sources with other matrices.
fn other_matrices(rt: &impl Print) -> io::Result<Tally>
    ensures { IfOk result (λ t. Counts 20 t) }
{
    let a = rust_lab();
    let b = color_convert();
    print_line(rt, "Rust crate lab 0.11.0, 5 decimals", a)?;
    print_line(rt, "color-convert 2.0.1, 0 or 1 decimals", b)?;
    Ok(plus(a, b))
}

fn main(rt: HostRuntime) -> io::Result<()> {
    let a = our_matrix(&rt)?;
    let b = lindblooms_matrix(&rt)?;
    let c = other_matrices(&rt)?;
    print_line(&rt, "in all", plus(plus(a, b), c))
}
