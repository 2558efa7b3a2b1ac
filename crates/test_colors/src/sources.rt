// The published tables, each with its source.
//
// Each table is whole: it has the rows that differ from ours too.
// A number that is written shorter than the others, as 100, 0 or 67.2, is compared at the same digit.
ghost use Rattle.test_colors.specs.Counts.{Counts};

use crate::compare::{Tally, count, plus};

// octave-image 2.14.0, rgb2lab.m: the asserts on the colours of 0 and 1, 2 decimals, "taken from the book
// by Burger" (Burger and Burge, Digitale Bildverarbeitung, third edition, 2015). Its other asserts are on
// 0.25, 0.5 and 0.75, which are no bytes. The matrix and the white of color.rs.
const OCTAVE_RGB: [[u8; 3]; 8] = [
    [0, 0, 0],
    [255, 0, 0],
    [255, 255, 0],
    [0, 255, 0],
    [0, 255, 255],
    [0, 0, 255],
    [255, 0, 255],
    [255, 255, 255],
];

const OCTAVE_LAB: [[f64; 3]; 8] = [
    [0.0, 0.0, 0.0],
    [53.24, 80.09, 67.20],
    [97.14, -21.55, 94.48],
    [87.74, -86.18, 83.18],
    [91.11, -48.09, -14.13],
    [32.30, 79.19, -107.86],
    [60.32, 98.24, -60.83],
    [100.0, 0.00, 0.00],
];

pub fn octave() -> Tally
    ensures { Counts 8 result }
{
    let rgb = OCTAVE_RGB;
    let lab = OCTAVE_LAB;
    count(&rgb, &lab, 0.005)
}

// chroma.js 2.4.0, test/rgb2lab.test.js: the whole table, 2 decimals. The matrix 0.4124564.
const CHROMA_RGB: [[u8; 3]; 9] = [
    [0, 0, 0],
    [255, 255, 255],
    [128, 128, 128],
    [255, 0, 0],
    [255, 255, 0],
    [0, 255, 0],
    [0, 255, 255],
    [0, 0, 255],
    [255, 0, 255],
];

const CHROMA_LAB: [[f64; 3]; 9] = [
    [0.0, 0.0, 0.0],
    [100.0, 0.0, 0.0],
    [53.59, 0.0, 0.0],
    [53.24, 80.09, 67.2],
    [97.14, -21.55, 94.48],
    [87.73, -86.18, 83.18],
    [91.11, -48.09, -14.13],
    [32.3, 79.19, -107.86],
    [60.32, 98.23, -60.82],
];

pub fn chroma() -> Tally
    ensures { Counts 9 result }
{
    let rgb = CHROMA_RGB;
    let lab = CHROMA_LAB;
    count(&rgb, &lab, 0.005)
}

// scikit-image 0.19.3, skimage/color/tests/test_colorconv.py, test_rgb2lab_brucelindbloom: the eight
// colour bars, 4 decimals, from Bruce Lindbloom's calculator, "with D65 white point, sRGB model and
// gamma". The matrix 0.4124564.
const LINDBLOOM_RGB: [[u8; 3]; 8] = [
    [255, 255, 255],
    [255, 255, 0],
    [0, 255, 255],
    [0, 255, 0],
    [255, 0, 255],
    [255, 0, 0],
    [0, 0, 255],
    [0, 0, 0],
];

const LINDBLOOM_LAB: [[f64; 3]; 8] = [
    [100.0, 0.0, 0.0],
    [97.1393, -21.5537, 94.4780],
    [91.1132, -48.0875, -14.1312],
    [87.7347, -86.1827, 83.1793],
    [60.3242, 98.2343, -60.8249],
    [53.2408, 80.0925, 67.2032],
    [32.2970, 79.1875, -107.8602],
    [0.0, 0.0, 0.0],
];

pub fn lindbloom() -> Tally
    ensures { Counts 8 result }
{
    let rgb = LINDBLOOM_RGB;
    let lab = LINDBLOOM_LAB;
    count(&rgb, &lab, 0.00005)
}

// farver 2.1.1, README.md: rainbow(10) by convert_colour. It prints b to 6 decimals and the others to 5;
// all three are compared at 5. The matrix 0.4124564.
const FARVER_RGB: [[u8; 3]; 10] = [
    [255, 0, 0],
    [255, 153, 0],
    [204, 255, 0],
    [51, 255, 0],
    [0, 255, 102],
    [0, 255, 255],
    [0, 102, 255],
    [51, 0, 255],
    [204, 0, 255],
    [255, 0, 153],
];

const FARVER_LAB: [[f64; 3]; 10] = [
    [53.24079, 80.09246, 67.203197],
    [72.26072, 30.16539, 77.224482],
    [93.60533, -41.94504, 90.274226],
    [88.07403, -83.10813, 83.593379],
    [88.19634, -80.27943, 57.926987],
    [91.11322, -48.08753, -14.131186],
    [47.90478, 35.19678, -82.006104],
    [33.81896, 79.70044, -105.279006],
    [51.90416, 90.99470, -74.834222],
    [55.65103, 86.52861, -9.719051],
];

pub fn farver() -> Tally
    ensures { Counts 10 result }
{
    let rgb = FARVER_RGB;
    let lab = FARVER_LAB;
    count(&rgb, &lab, 0.000005)
}

// The Rust crate lab 0.11.0, src/lib.rs: the table COLOURS of its tests. The numbers are f32, most with 5
// or 6 decimals; all are compared at 5. The matrix 0.4124108 and the white 0.9504492, 1, 1.0889166.
const RUST_LAB_RGB: [[u8; 3]; 17] = [
    [253, 120, 138],
    [127, 0, 0],
    [0, 127, 0],
    [0, 0, 127],
    [0, 127, 127],
    [127, 0, 127],
    [255, 0, 0],
    [0, 255, 0],
    [0, 0, 255],
    [0, 255, 255],
    [255, 0, 255],
    [255, 255, 0],
    [0, 0, 0],
    [64, 64, 64],
    [127, 127, 127],
    [196, 196, 196],
    [255, 255, 255],
];

const RUST_LAB_LAB: [[f64; 3]; 17] = [
    [66.637695, 52.250145, 14.858591],
    [25.299877, 47.77421, 37.752514],
    [45.87715, -51.405922, 49.61748],
    [12.809523, 47.237186, -64.33636],
    [47.892532, -28.680845, -8.428156],
    [29.525677, 58.597298, -36.28323],
    [53.238235, 80.09231, 67.202095],
    [87.73554, -86.18078, 83.18251],
    [32.298466, 79.192, -107.858345],
    [91.11428, -48.08274, -14.12958],
    [60.322693, 98.23698, -60.827957],
    [97.139, -21.556675, 94.48001],
    [0.0, 0.0, 0.0],
    [27.09341, 0.0, 0.0],
    [53.192772, 0.0, 0.0],
    [79.15698, 0.0, 0.0],
    [100.0, 0.0, 0.0],
];

pub fn rust_lab() -> Tally
    ensures { Counts 17 result }
{
    let rgb = RUST_LAB_RGB;
    let lab = RUST_LAB_LAB;
    count(&rgb, &lab, 0.000005)
}

// color-convert 2.0.1, test/basic.js: two colours in whole numbers, and the first of them again with 1
// decimal. The matrix 0.4124.
const WHOLE_RGB: [[u8; 3]; 2] = [[92, 191, 84], [0, 0, 255]];

const WHOLE_LAB: [[f64; 3]; 2] = [[70.0, -50.0, 45.0], [32.0, 79.0, -108.0]];

const TENTHS_RGB: [[u8; 3]; 1] = [[92, 191, 84]];

const TENTHS_LAB: [[f64; 3]; 1] = [[69.6, -50.1, 44.6]];

pub fn color_convert() -> Tally
    ensures { Counts 3 result }
{
    let rgb0 = WHOLE_RGB;
    let lab0 = WHOLE_LAB;
    let rgb1 = TENTHS_RGB;
    let lab1 = TENTHS_LAB;
    plus(count(&rgb0, &lab0, 0.5), count(&rgb1, &lab1, 0.05))
}
