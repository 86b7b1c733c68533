//! The rounds of a measurement.

use crate::faults::Fault;
use enc_index::IndexSet;
use enc_labels::output_of;
use enc_model::{Encoding, Mode};
use enc_stream::Transcoder;
use std::alloc::Global;
use std::time::Instant;

// How many bytes a server reads at a time.
const PIECE: usize = 4096;

/// A round transcodes a whole text from one encoding to another.
#[derive(Drop)]
pub(crate) struct Round<'a> {
    from: Encoding,
    to: Encoding,
    indexes: &'a IndexSet,
}

/// The result of the best round.
#[derive(Drop)]
pub(crate) struct Outcome {
    /// The length of the text in bytes.
    pub(crate) written: usize,
    /// A checksum of the text, by which two programs can be compared.
    pub(crate) sum: u64,
    /// The time of the quickest round in nanoseconds.
    pub(crate) nanos: u128,
}

impl<'a> Round<'a> {
    pub(crate) fn new(from: Encoding, to: Encoding, indexes: &'a IndexSet) -> Self {
        Round { from, to, indexes }
    }

    // Transcodes the bytes, and appends the text to `out`.
    fn transcode(&self, bytes: &[u8], out: &mut Vec<u8>) -> Result<(), Fault> {
        let mut transcoder = Transcoder::new(self.from, output_of(self.to), Mode::Html);
        for piece in bytes.chunks(PIECE) {
            transcoder.feed(self.indexes, piece, out)?;
        }
        transcoder.finish(self.indexes, out)?;
        Ok(())
    }
}

/// The quickest of `rounds` rounds, and at least one.
pub(crate) fn best_round(
    rt: &HostRuntime,
    alloc: Global,
    round: &Round,
    bytes: &[u8],
    rounds: u32,
) -> Result<Outcome, Fault> {
    let mut out = Vec::new(alloc);
    let mut nanos = u128::MAX;
    for _ in 0..rounds.max(1) {
        out.clear();
        let start = Instant::now(rt)?;
        round.transcode(bytes, &mut out)?;
        nanos = nanos.min(start.elapsed(rt)?.as_nanos());
    }
    Ok(Outcome {
        written: out.len(),
        sum: sum_of(&out),
        nanos,
    })
}

// The checksum of some bytes, modulo 2^64.
fn sum_of(bytes: &[u8]) -> u64 {
    bytes.iter().fold(
        0,
        |sum: u64, byte| sum.wrapping_mul(31).wrapping_add(*byte as u64),
    )
}
