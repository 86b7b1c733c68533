//! An encoder as a sink of decoded text.

ghost use Rattle.std.specs.Prelude.{◌≡◌};
ghost use Rattle.enc_encode.specs.Sinks.{SinkState, SinkTook, SinkRefused};
ghost use Rattle.enc_encode.specs.SinkLaws.{encoder_sink};

use crate::encoder::Encoder;
use crate::error::EncodeError;
use enc_feed::Sink;
use enc_index::IndexSet;
use std::marker::Model;

/// An encoder and the vector that it writes to, as a sink of decoded text.
///
/// It owns both for as long as text comes: put a lent vector in by `mem::replace`, and take both out by `into_parts`.
#[derive(Drop)]
pub struct EncoderSink<'a> {
    encoder: Encoder,
    set: &'a IndexSet,
    out: Vec<u8>,
}

impl<'a> Model for EncoderSink<'a> {
    ghost Value = { SinkState };

    ghost view = { λ s. record { encoder = s.encoder; set = s.set.now; out = s.out } };
}

impl<'a> EncoderSink<'a> {
    /// A sink that encodes with these index files and appends to `out`.
    pub fn new(encoder: Encoder, set: &'a IndexSet, out: Vec<u8>) -> Self
        ensures { result ≡ record { encoder = encoder; set = set.now; out = out } }
    {
        EncoderSink { encoder, set, out }
    }

    /// The encoder, in the state that it has come to, and the vector.
    pub fn into_parts(self) -> (Encoder, Vec<u8>)
        ensures encoder { result.0 ≡ self.entry.encoder }
        ensures out { result.1 ≡ self.entry.out }
    {
        let EncoderSink {
            encoder,
            set: _,
            out,
        } = self;
        (encoder, out)
    }
}

impl Sink for EncoderSink<'_> {
    type Refusal = EncodeError;

    ghost takes = { SinkTook };

    ghost refuses = { SinkRefused };

    fn put(&mut self, c: char) -> Result<(), EncodeError> {
        self.encoder.put(self.set, c, &mut self.out)
    }

    fn ascii(&mut self, run: &[u8]) -> Result<(), EncodeError> {
        self.encoder.put_ascii(run, &mut self.out)
    }

    fn text(&mut self, run: &str) -> Result<(), EncodeError> {
        self.encoder.put_text(self.set, run, &mut self.out)
    }

    ghost is_sink = { encoder_sink };
}
