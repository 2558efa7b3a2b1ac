// The fingerprint of an answer: a number made of all the words of it, in order.
use crate::dealt::mix;

// A call's number, and the fingerprint of all that it answered and left.
#[derive(Clone, Copy)]
pub struct Outcome {
    pub number: u8,
    pub print: u64,
}

pub fn told(no: u8, print: u64) -> Outcome {
    Outcome { number: no, print }
}

pub fn mix_number(no: u8) -> u64 {
    mix(0, no.into())
}

// What a fingerprint takes in, as a word.
pub trait Word: Copy {
    fn word(self) -> u64;
}

impl Word for u64 {
    fn word(self) -> u64 {
        self
    }
}

impl Word for u32 {
    fn word(self) -> u64 {
        self.into()
    }
}

impl Word for u16 {
    fn word(self) -> u64 {
        self.into()
    }
}

impl Word for u8 {
    fn word(self) -> u64 {
        self.into()
    }
}

impl Word for usize {
    fn word(self) -> u64 {
        self as u64
    }
}

impl Word for bool {
    fn word(self) -> u64 {
        self.into()
    }
}

// The 16 bits of an index.
impl Word for i16 {
    fn word(self) -> u64 {
        self.cast_unsigned().into()
    }
}

// The 32 bits of a coordinate.
impl Word for i32 {
    fn word(self) -> u64 {
        self.cast_unsigned().into()
    }
}

// The 64 bits of a double; of one that is no number always the same.
impl Word for f64 {
    fn word(self) -> u64 {
        if self.is_nan() {
            return 0x7ff8_0000_0000_0000;
        }
        self.to_bits()
    }
}

// The words of a list taken into a running fingerprint.
pub fn mix_all<T: Word>(h: u64, list: &[T]) -> u64 {
    list.iter().fold(h, |print, x| mix(print, x.word()))
}
