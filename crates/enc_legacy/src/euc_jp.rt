//! The EUC-JP decoder.

ghost use Rattle.std.specs.Prelude.{◌≡◌, ◌↔◌, OnOk, IsTrue, false, true, []};
ghost use Rattle.enc_legacy.specs.EucJpState.{IsBegun, IsEucJpPair, IsEucJpState, begun_state};
ghost use Rattle.enc_model.specs.Stream.{steps};
ghost use Rattle.enc_model.specs.Sink.{Given};
ghost use Rattle.enc_model.specs.Japanese.{EucJp, euc_jp, euc_jp_start, euc_jp_pair};
ghost use Rattle.enc_model.specs.Indexes.{tables};
ghost use Rattle.enc_model.proofs.Calm.{euc_jp_calm};

use crate::euc_bytes::row_pointer;
use crate::kana::{half_width, pair_answer};
use crate::pairs::{ready_rows, row_char};
use crate::stride::{PairDecoder, Strider, decode_strides, read_run};
use enc_feed::{Batch, BlockDecoder, Decoder, PairReader, Sink, feed, finish};
use enc_index::{IndexSet, Kind};
use enc_model::{Answer, Restored, Utf8Char};
use lane_kernels::{ascii_front, ascii_lanes};
use std::marker::Model;

/// What was read of a character that isn't complete.
#[derive(Clone, Copy)]
pub(crate) enum Begun {
    /// Nothing.
    Nothing,
    /// The byte 8E, before a half-width katakana.
    HalfWidth,
    /// The byte 8F, before a pair of jis0212.
    Jis0212,
    /// The lead byte of a pair, and whether the pair is one of jis0212.
    Row(u8, bool),
}

/// The EUC-JP decoder (Encoding Standard, section 12.1.1). Its state is what has begun.
#[derive(Drop)]
pub struct EucJpState {
    begun: Begun,
}

impl Model for EucJpState {
    ghost Value = { EucJp };

    ghost view = { λ s. begun_state s.begun };

    ghost invariant = { λ s. IsBegun s.begun };
}

/// The code point of a lead byte and the byte after it.
fn euc_jp_char(indexes: &IndexSet, flag: bool, lead: u8, b: u8) -> Option<char>
    ensures { result ≡ euc_jp_pair (tables indexes.now).jis0208 (tables indexes.now).jis0212 flag lead b }
{
    if lead < 0xA1 || 0xFE < lead || b < 0xA1 || 0xFE < b {
        return None;
    }
    let pointer = (lead as u32 - 0xA1) * 94 + (b as u32 - 0xA1);
    if flag {
        indexes.code(Kind::Jis0212, pointer)
    } else {
        indexes.code(Kind::Jis0208, pointer)
    }
}

impl EucJpState {
    /// A decoder that has read nothing.
    pub fn new() -> Self
        ensures { result ≡ euc_jp_start }
    {
        EucJpState {
            begun: Begun::Nothing,
        }
    }
}

impl Decoder for EucJpState {
    type Tables = IndexSet;

    ghost handler = { λ t. euc_jp (tables t).jis0208 (tables t).jis0212 };

    #[inline(always)]
    #[tactic(auto, unfolding(enc_model::specs::Japanese::euc_jp))]
    fn read(&mut self, indexes: &IndexSet, byte: Option<u8>) -> (Answer, Restored) {
        let begun = self.begun;
        *self = Self::new();
        let Some(b) = byte else {
            return match begun {
                Begun::Nothing => (Answer::Finished, Restored::Zero),
                _ => (Answer::Error, Restored::Zero),
            };
        };
        match (begun, b) {
            (Begun::Nothing, 0..=0x7F) => (Answer::Point(b as char), Restored::Zero),
            (Begun::Nothing, 0x8E | 0x8F | 0xA1..=0xFE) => {
                *self = Self::in_state(b, false);
                (Answer::Nothing, Restored::Zero)
            }
            (Begun::Nothing, _) => (Answer::Error, Restored::Zero),
            (Begun::HalfWidth, 0xA1..=0xDF) => (half_width(b - 0xA1), Restored::Zero),
            (Begun::Jis0212, 0xA1..=0xFE) => {
                *self = Self::in_state(b, true);
                (Answer::Nothing, Restored::Zero)
            }
            (Begun::HalfWidth | Begun::Jis0212, _) => pair_answer(None, b),
            (Begun::Row(lead, flag), _) => pair_answer(euc_jp_char(indexes, flag, lead, b), b),
        }
    }

    ghost calm = { λ t. euc_jp_calm (tables t).jis0208 (tables t).jis0212 };
}

impl PairReader for EucJpState {
    ghost represent = { IsEucJpPair };

    #[inline(always)]
    #[tactic(auto, using(crate::proofs::EucBytes::euc_read))]
    fn ready_pair<'a>(
        &self,
        ready: &'a [Option<Utf8Char>],
        first: u8,
        second: u8,
    ) -> Option<&'a Utf8Char> {
        row_char(ready, row_pointer(first, second))
    }
}

impl PairDecoder for EucJpState {
    #[inline(always)]
    #[tactic(auto, using(enc_feed::proofs::Prefixes::prefix_none, crate::proofs::Prefixes::euc_prefix))]
    fn ascii(&self, _indexes: &IndexSet, bytes: &[u8]) -> usize {
        if self.is_at_start() {
            ascii_front(bytes)
        } else {
            0
        }
    }

    #[inline(always)]
    #[tactic(auto, using(enc_feed::proofs::Prefixes::prefix_none, crate::proofs::Prefixes::euc_prefix))]
    fn ascii_lanes(&self, _indexes: &IndexSet, bytes: &[u8]) -> usize {
        if self.is_at_start() {
            ascii_lanes(bytes)
        } else {
            0
        }
    }

    #[inline(always)]
    fn ready<'a>(&self, indexes: &'a IndexSet) -> Option<&'a [Option<Utf8Char>]> {
        if !self.is_at_start() {
            return None;
        }
        ready_rows(indexes)
    }
}

impl Strider for EucJpState {
    #[inline(always)]
    fn stride(&mut self, indexes: &IndexSet, rest: &[u8], batch: &mut Batch) -> usize {
        read_run(self, indexes, rest, batch)
    }
}

impl BlockDecoder for EucJpState {
    fn prefix(&self, indexes: &IndexSet, bytes: &[u8]) -> usize {
        self.ascii(indexes, bytes)
    }

    fn decode_block(&mut self, indexes: &IndexSet, block: &[u8], batch: &mut Batch) {
        decode_strides(self, indexes, block, batch);
    }
}

impl EucJpState {
    /// A decoder with this lead byte, or with none if it is 0. The flag means that the pair is one of jis0212.
    pub fn in_state(lead: u8, flag: bool) -> Self
        requires { IsEucJpState lead flag }
        ensures { result ≡ record { lead = lead; flag = flag } }
    {
        let begun = match lead {
            0 => Begun::Nothing,
            0x8E => Begun::HalfWidth,
            0x8F => Begun::Jis0212,
            _ => Begun::Row(lead, flag),
        };
        EucJpState { begun }
    }

    /// Whether nothing has begun.
    #[inline(always)]
    fn is_at_start(&self) -> bool
        ensures { IsTrue result ↔ (self.now ≡ euc_jp_start) }
    {
        matches!(self.begun, Begun::Nothing)
    }

    /// The lead byte, or 0, and whether the pair is one of jis0212.
    pub fn parts(&self) -> (u8, bool)
        ensures lead { result.0 ≡ self.now.lead }
        ensures flag { result.1 ≡ self.now.flag }
        ensures valid { IsEucJpState result.0 result.1 }
    {
        match self.begun {
            Begun::Nothing => (0, false),
            Begun::HalfWidth => (0x8E, false),
            Begun::Jis0212 => (0x8F, false),
            Begun::Row(lead, flag) => (lead, flag),
        }
    }

    /// A copy of the state.
    pub fn copy(&self) -> Self
        ensures { result ≡ self.now }
    {
        EucJpState { begun: self.begun }
    }

    /// Decodes a piece into the sink.
    ///
    /// # Errors
    ///
    /// The sink's refusal, at once; nothing is known of the state afterwards.
    pub fn feed<S: Sink>(
        &mut self,
        indexes: &IndexSet,
        piece: &[u8],
        sink: &mut S,
    ) -> Result<(), S::Refusal>
        ensures given { Given S.takes S.refuses sink.old
            (steps (euc_jp (tables indexes.now).jis0208 (tables indexes.now).jis0212) false self.old piece.now).text
            sink.new result }
        ensures state { OnOk result
            (self.new ≡ (steps (euc_jp (tables indexes.now).jis0208 (tables indexes.now).jis0212) false self.old
            piece.now).state) }
    {
        feed(self, indexes, piece, sink)
    }

    /// Decodes the end.
    ///
    /// # Errors
    ///
    /// The sink's refusal, at once; nothing is known of the state afterwards.
    pub fn finish<S: Sink>(&mut self, indexes: &IndexSet, sink: &mut S) -> Result<(), S::Refusal>
        ensures given { Given S.takes S.refuses sink.old
            (steps (euc_jp (tables indexes.now).jis0208 (tables indexes.now).jis0212) true self.old []).text sink.new
            result }
        ensures state { OnOk result (self.new
            ≡ (steps (euc_jp (tables indexes.now).jis0208 (tables indexes.now).jis0212) true self.old []).state) }
    {
        finish(self, indexes, sink)
    }
}
