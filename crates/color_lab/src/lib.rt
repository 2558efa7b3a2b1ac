// The steps of color.rs: the sRGB curve and the conversion to CIELAB. A function
// here may ask its caller for what it needs; the calls that answer every input stand in the crates above.
#![tactic(auto)]

mod convert;
mod curve;

pub use convert::{lab_in, lab_of_linear};
pub use curve::{linear_in, table};

// A colour's three linear values, from 0 to 1.
#[derive(Clone, Copy)]
pub struct LinearRgb {
    pub r: f64,
    pub g: f64,
    pub b: f64,
}
