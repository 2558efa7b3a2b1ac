// Pictures in letters: a colour's red is its letter, and a dot is transparent.
use std::io;

// Entry 0 where there is a letter.
fn index(letter: u8) -> i16 {
    if letter == b'.' { -1 } else { 0 }
}

// The pixels of all layers, a letter each.
pub(crate) fn draw(letters: &[u8; 72], indices: &mut [i16; 72]) {
    for (place, letter) in indices.iter_mut().zip(letters) {
        *place = index(*letter);
    }
}

// A pixel's letter, from its red and its alpha.
fn letter(red: u8, alpha: u8) -> u8 {
    if alpha == 0 { b'.' } else { red }
}

// The flattened picture, 4 rows of 6 pixels, into lines that end in a newline.
fn spell(out: &[u8; 96], text: &mut [u8; 28]) {
    for (line, row) in text.chunks_exact_mut(7).zip(out.chunks_exact(24)) {
        for (place, pixel) in line.iter_mut().zip(row.chunks_exact(4)) {
            *place = letter(pixel[0], pixel[3]);
        }
    }
}

// A step, the number that it answered, and the picture after it.
pub(crate) fn show(rt: &impl Print, step: &str, no: u8, out: &[u8; 96]) -> io::Result<()> {
    let mut text = [b'\n'; 28];
    spell(out, &mut text);
    println!(rt; "{step}: {no}")?;
    rt.write_all(&text)
}
