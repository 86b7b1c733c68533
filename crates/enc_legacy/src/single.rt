//! The single-byte decoder.

ghost use Rattle.std.specs.Prelude.{◌≡◌, ◌<◌, ◌≤◌, ℕ, OnOk, IfOk, IfErr, true, false, ◌-◌, [], None, Some};
ghost use Rattle.std.specs.Prelude.{length, take, slice_index};
ghost use Rattle.enc_index.specs.Bytes.{byte_char};
ghost use Rattle.enc_model.specs.Stream.{steps};
ghost use Rattle.enc_model.specs.Sink.{Given};
ghost use Rattle.enc_model.specs.Japanese.{single};
ghost use Rattle.enc_model.specs.Indexes.{tables};
ghost use Rattle.enc_legacy.specs.Singles.{single_in, single_start};
ghost use Rattle.enc_legacy.specs.SinglesCalm.{single_in_calm};

use crate::kana::answer_for;
use enc_feed::{Batch, Decoder, ROOM, Sink, feed_each, finish};
use enc_index::{IndexSet, Kind};
use enc_model::{Answer, Encoding, Restored, Utf8Char};
use lane_kernels::{AsciiLanes, ascii_front};
use std::marker::Model;

/// The single-byte decoder (Encoding Standard, section 9.1). It has no state besides its encoding.
#[derive(Drop)]
pub struct SingleState {
    encoding: Encoding,
}

impl Model for SingleState {
    ghost use Rattle.enc_model.specs.declared.Encoding.{Encoding};

    ghost Value = { Encoding };

    ghost view = { λ s. s.encoding };
}

impl Decoder for SingleState {
    type Tables = IndexSet;

    ghost handler = { λ t. single_in (tables t) };

    #[inline(always)]
    #[tactic(auto, unfolding(crate::specs::Singles::single_in))]
    fn read(&mut self, indexes: &IndexSet, byte: Option<u8>) -> (Answer, Restored) {
        let answer = match byte {
            None => Answer::Finished,
            Some(b) if b < 0x80 => Answer::Point(b as char),
            Some(b) => answer_for(indexes.code(Kind::Single(self.encoding), (b - 0x80) as u32)),
        };
        (answer, Restored::Zero)
    }

    ghost calm = { λ t. single_in_calm (tables t) };
}

/// How many bytes are decoded at once: the batch has room for four bytes of each.
const MANY: usize = ROOM / 4;

impl SingleState {
    /// Decodes the next part of a piece by a table of all bytes. Returns its length.
    #[inline(always)]
    fn advance<S: Sink>(
        &self,
        indexes: &IndexSet,
        chars: &[Utf8Char],
        rest: &[u8],
        batch: &mut Batch,
        sink: &mut S,
    ) -> Result<usize, S::Refusal>
        requires some { 0 < length rest.now }
        requires long { length chars.now ≡ 256 }
        requires chars { (b : ℕ) → b < 256
            → slice_index chars.now b ≡ byte_char ((tables indexes.now).single self.now) b }
        ensures some { IfOk result (λ n. (0 < n) × (n ≤ length rest.now)) }
        ensures taken { IfOk result (λ n. S.takes sink.old
            (steps (single_in (tables indexes.now)) false self.now (take n rest.now)).text sink.new) }
        ensures refused { IfErr result
            (λ e. S.refuses sink.old (steps (single_in (tables indexes.now)) false self.now rest.now).text e sink.new) }
    {
        let end = MANY.min(rest.len());
        batch.clear();
        batch.push_bytes(&AsciiLanes, chars, &rest[..end]);
        sink.text(batch.as_str())?;
        Ok(end)
    }

    /// Decodes a piece by a table of all bytes.
    fn feed_blocks<S: Sink>(
        &self,
        indexes: &IndexSet,
        chars: &[Utf8Char],
        piece: &[u8],
        sink: &mut S,
    ) -> Result<(), S::Refusal>
        requires long { length chars.now ≡ 256 }
        requires chars { (b : ℕ) → b < 256
            → slice_index chars.now b ≡ byte_char ((tables indexes.now).single self.now) b }
        ensures { Given S.takes S.refuses sink.old
            (steps (single_in (tables indexes.now)) false self.now piece.now).text sink.new result }
    {
        let mut batch = Batch::new();
        let mut at = 0;
        while at < piece.len() {
            at += self.advance(indexes, chars, &piece[at..], &mut batch, sink)?;
        }
        Ok(())
    }

    /// Decodes a piece by a table of all bytes. Leading ASCII goes to the sink as it is.
    fn feed_ready<S: Sink>(
        &self,
        indexes: &IndexSet,
        chars: &[Utf8Char],
        piece: &[u8],
        sink: &mut S,
    ) -> Result<(), S::Refusal>
        requires long { length chars.now ≡ 256 }
        requires chars { (b : ℕ) → b < 256
            → slice_index chars.now b ≡ byte_char ((tables indexes.now).single self.now) b }
        ensures { Given S.takes S.refuses sink.old
            (steps (single_in (tables indexes.now)) false self.now piece.now).text sink.new result }
    {
        let prefix = ascii_front(piece);
        sink.ascii(&piece[..prefix])?;
        if prefix == piece.len() {
            return Ok(());
        }
        self.feed_blocks(indexes, chars, &piece[prefix..], sink)
    }
}

impl SingleState {
    /// A decoder of one of the fifteen single-byte encodings.
    pub fn new(encoding: Encoding) -> Self
        ensures { result ≡ encoding }
    {
        SingleState { encoding }
    }

    /// The encoding.
    pub fn encoding(&self) -> Encoding
        ensures { result ≡ self.now }
    {
        self.encoding
    }

    /// A copy of the state.
    pub fn copy(&self) -> Self
        ensures { result ≡ self.now }
    {
        SingleState {
            encoding: self.encoding,
        }
    }

    /// Decodes a piece into the sink.
    ///
    /// # Errors
    ///
    /// The sink's refusal, at once; nothing is known of the state afterwards.
    #[tactic(auto, using(crate::proofs::SinglesSteps::single_in_steps, crate::proofs::SinglesSteps::same_encoding))]
    pub fn feed<S: Sink>(
        &mut self,
        indexes: &IndexSet,
        piece: &[u8],
        sink: &mut S,
    ) -> Result<(), S::Refusal>
        ensures given { Given S.takes S.refuses sink.old
            (steps (single ((tables indexes.now).single self.old)) false single_start piece.now).text sink.new result }
        ensures state { OnOk result (self.new ≡ self.old) }
    {
        match indexes.ready_bytes(self.encoding) {
            Some(chars) => self.feed_ready(indexes, chars, piece, sink),
            None => feed_each(self, indexes, piece, sink),
        }
    }

    /// Decodes the end.
    ///
    /// # Errors
    ///
    /// The sink's refusal, at once; nothing is known of the state afterwards.
    #[tactic(auto, using(crate::proofs::SinglesSteps::single_in_steps, crate::proofs::SinglesSteps::same_encoding))]
    pub fn finish<S: Sink>(&mut self, indexes: &IndexSet, sink: &mut S) -> Result<(), S::Refusal>
        ensures given { Given S.takes S.refuses sink.old
            (steps (single ((tables indexes.now).single self.old)) true single_start []).text sink.new result }
        ensures state { OnOk result (self.new ≡ self.old) }
    {
        finish(self, indexes, sink)
    }
}
