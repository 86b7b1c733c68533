//! The digest of what a job gives.

use std::fmt;

/// A checksum of all bytes in their order, and their number. Four lanes keep it cheap beside the work that it judges.
/// No step multiplies: the compiler makes a multiplication of 64 bits by vectors in one program and not in another, and
/// the digest would then be a part of the difference.
#[derive(Drop)]
pub(crate) struct Digest {
    sums: [u64; 4],
    count: u64,
}

impl Digest {
    pub(crate) fn new() -> Self {
        Digest {
            sums: [1, 2, 3, 4],
            count: 0,
        }
    }

    /// Adds the bytes of one call.
    pub(crate) fn add(&mut self, bytes: &[u8]) {
        let [mut first, mut second, mut third, mut fourth] = self.sums;
        let mut chunks = bytes.chunks_exact(32);
        for chunk in &mut chunks {
            first = mix(first, word(chunk, 0));
            second = mix(second, word(chunk, 8));
            third = mix(third, word(chunk, 16));
            fourth = mix(fourth, word(chunk, 24));
        }
        for byte in chunks.remainder() {
            first = mix(first, *byte as u64);
        }
        self.sums = [mix(first, bytes.len() as u64), second, third, fourth];
        self.count = self.count.wrapping_add(bytes.len() as u64);
    }

    /// Adds a number.
    pub(crate) fn note(&mut self, number: u64) {
        let [first, second, third, fourth] = self.sums;
        self.sums = [first, mix(second, number), third, fourth];
    }
}

// A sum and one more word. Another word, or another sum, gives another result.
fn mix(sum: u64, word: u64) -> u64 {
    let mixed = sum ^ word;
    mixed.wrapping_add(mixed << 5).rotate_left(29)
}

// The eight bytes at an offset as a number, and 0 where there are fewer.
fn word(bytes: &[u8], at: usize) -> u64 {
    match bytes.get(at..) {
        Some([a, b, c, d, e, f, g, h, ..]) => u64::from_le_bytes([*a, *b, *c, *d, *e, *f, *g, *h]),
        _ => 0,
    }
}

impl fmt::Display for Digest {
    fn fmt<W: fmt::Write>(&self, f: &mut fmt::Formatter<W>) -> fmt::Result {
        let [first, second, third, fourth] = self.sums;
        let sum = mix(mix(mix(first, second), third), fourth);
        let count = self.count;
        write!(f, "{count} bytes, sum {sum:016x}")
    }
}
