//! Texts in their encodings.

use crate::faults::Fault;
use crate::random::Random;
use crate::tongues::Tongue;
use crate::words::Material;
use enc_labels::output_of;
use enc_model::{Encoding, Mode};
use enc_stream::Transcoder;
use std::alloc::{AllocError, Global};

/// Lines of text in an encoding, of which longer texts are put together.
#[derive(Drop)]
pub(crate) struct Sample {
    bytes: Vec<u8>,
    /// Where each line begins, and the end.
    starts: Vec<usize>,
}

/// A sample of at least `len` bytes in each of these tongues.
pub(crate) fn samples(
    alloc: Global,
    tongues: &[Tongue],
    len: usize,
    material: &Material,
    random: &mut Random,
) -> Result<Vec<(Tongue, Sample)>, Fault> {
    let mut samples = Vec::new(alloc);
    for tongue in tongues {
        let sample = Sample::new(alloc, *tongue, len, material, random)?;
        samples.push((*tongue, sample))?;
    }
    Ok(samples)
}

impl Sample {
    /// At least `len` bytes of lines. A character that the encoding lacks is a numeric reference.
    pub(crate) fn new(
        alloc: Global,
        tongue: Tongue,
        len: usize,
        material: &Material,
        random: &mut Random,
    ) -> Result<Self, Fault> {
        let words = material.words(alloc, tongue.language)?;
        let mut sample = Sample {
            bytes: Vec::new(alloc),
            starts: Vec::new(alloc),
        };
        let mut line = String::new(alloc);
        for _ in 0..len {
            if sample.bytes.len() >= len {
                break;
            }
            sample.starts.push(sample.bytes.len())?;
            line.clear();
            words.put_line(random, &mut line)?;
            put_encoded(tongue.encoding, line.as_str(), material, &mut sample.bytes)?;
        }
        sample.starts.push(sample.bytes.len())?;
        Ok(sample)
    }

    /// Whole lines that follow one another, at least one and about `len` bytes, from a place that is drawn.
    pub(crate) fn draw(&self, len: usize, random: &mut Random) -> &[u8] {
        let lines = self.starts.len().saturating_sub(1);
        if lines == 0 {
            return &[];
        }
        let at = random.below(lines);
        let from = self.starts.get(at).copied().unwrap_or(0);
        let wanted = from.saturating_add(len);
        let last = self.starts.partition_point(|start| *start < wanted);
        let to = self.starts.get(last).copied().unwrap_or(self.bytes.len());
        self.bytes.get(from..to).unwrap_or(&[])
    }
}

// Appends a text in an encoding.
fn put_encoded(
    encoding: Encoding,
    text: &str,
    material: &Material,
    out: &mut Vec<u8>,
) -> Result<(), Fault> {
    if matches!(encoding, Encoding::Utf16Le) {
        return Ok(put_utf16(text, out)?);
    }
    let mut transcoder = Transcoder::new(Encoding::Utf8, output_of(encoding), Mode::Html);
    transcoder.feed(&material.indexes, text.as_bytes(), out)?;
    transcoder.finish(&material.indexes, out)?;
    Ok(())
}

// Appends a text of the basic plane in UTF-16LE.
fn put_utf16(text: &str, out: &mut Vec<u8>) -> Result<(), AllocError> {
    for c in text.chars() {
        let unit = u16::try_from(c as u32).unwrap_or(0xFFFD);
        out.extend_from_slice(&unit.to_le_bytes())?;
    }
    Ok(())
}
