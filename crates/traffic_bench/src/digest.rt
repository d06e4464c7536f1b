//! A writer that keeps a sum of its bytes, and not the bytes.

use std::io;
use std::io::Write;

/// How many sums are kept side by side, each of every fourth word: a long chain of multiplications would take longer
/// than what is measured.
const LANES: usize = 4;

/// The sum of a text, whatever the writes that it came in.
#[derive(Clone, Copy, Debug)]
pub struct Sum {
    lanes: [u64; LANES],
    /// The lane of the next word.
    lane: usize,
    bytes: u64,
    /// The bytes after the last whole word.
    rest: u64,
    held: u32,
}

/// A sum that goes on with eight bytes.
fn mixed(value: u64, word: u64) -> u64 {
    let mixed = (value ^ word).wrapping_mul(0x9e37_79b9_7f4a_7c15);
    mixed ^ (mixed >> 29)
}

/// The word at the front of some bytes.
fn first_word(bytes: &[u8]) -> u64 {
    match bytes.first_chunk::<8>() {
        Some(word) => u64::from_be_bytes(*word),
        None => 0,
    }
}

/// The word after n bytes.
fn word_after(bytes: &[u8], n: usize) -> u64 {
    match bytes.get(n..) {
        Some(bytes) => first_word(bytes),
        None => 0,
    }
}

impl Sum {
    /// The sum of the empty text.
    pub fn new() -> Sum {
        Sum {
            lanes: [0xcbf2_9ce4_8422_2325; LANES],
            lane: 0,
            bytes: 0,
            rest: 0,
            held: 0,
        }
    }

    /// How many bytes the text has.
    pub fn bytes(&self) -> u64 {
        self.bytes
    }

    /// The sum of the text.
    pub fn value(&self) -> u64 {
        let mut value = mixed(self.bytes, self.rest);
        for lane in self.lanes {
            value = mixed(value, lane);
        }
        value
    }

    /// Goes on with eight bytes.
    fn add_word(&mut self, word: u64) {
        let lane = self.lane % LANES;
        self.lanes[lane] = mixed(self.lanes[lane], word);
        self.lane = (lane + 1) % LANES;
    }

    /// Goes on with a byte.
    fn add_byte(&mut self, byte: u8) {
        self.rest = (self.rest << 8) | u64::from(byte);
        self.held = self.held.wrapping_add(1);
        if self.held == 8 {
            self.add_word(self.rest);
            self.rest = 0;
            self.held = 0;
        }
    }

    /// Goes on with the first bytes, until a word for the first lane is next, and answers the others.
    fn add_front<'a>(&mut self, bytes: &'a [u8]) -> &'a [u8] {
        let mut bytes = bytes;
        for _ in 0..32 {
            if self.held == 0 && self.lane == 0 {
                break;
            }
            let Some((byte, others)) = bytes.split_first() else {
                break;
            };
            self.add_byte(*byte);
            bytes = others;
        }
        bytes
    }

    /// Goes on with whole rows of words, one for each lane, and answers what follows them.
    fn add_rows<'a>(&mut self, bytes: &'a [u8]) -> &'a [u8] {
        let rows = bytes.chunks_exact(32);
        let others = rows.remainder();
        let [mut first, mut second, mut third, mut fourth] = self.lanes;
        for row in rows {
            first = mixed(first, first_word(row));
            second = mixed(second, word_after(row, 8));
            third = mixed(third, word_after(row, 16));
            fourth = mixed(fourth, word_after(row, 24));
        }
        self.lanes = [first, second, third, fourth];
        others
    }

    /// Goes on with these bytes.
    pub fn add(&mut self, bytes: &[u8]) {
        self.bytes = self.bytes.wrapping_add(bytes.len() as u64);
        let bytes = self.add_front(bytes);
        for byte in self.add_rows(bytes) {
            self.add_byte(*byte);
        }
    }
}

/// A writer that sums what it is given.
#[derive(Drop)]
pub struct Digest<'a> {
    sum: &'a mut Sum,
}

impl<'a> Digest<'a> {
    /// A writer that goes on with this sum.
    pub fn new(sum: &'a mut Sum) -> Digest<'a> {
        Digest { sum }
    }
}

impl<'a> Write for Digest<'a> {
    fn write(&mut self, bytes: &[u8]) -> io::Result<usize> {
        self.sum.add(bytes);
        Ok(bytes.len())
    }

    fn flush(&mut self) -> io::Result<()> {
        Ok(())
    }
}
