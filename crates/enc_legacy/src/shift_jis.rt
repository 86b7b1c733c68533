//! The Shift_JIS decoder.

ghost use Rattle.std.specs.Prelude.{◌≡◌, ◌↔◌, OnOk, IfSome, IsTrue, true, false, ◌<◌, ◌≤◌, ◌+◌, ℕ, [], Some, None};
ghost use Rattle.enc_legacy.specs.ShiftJis.{IsShiftJisLead, IsShiftJisPair, IsShiftJisState, lead_or_zero};
ghost use Rattle.enc_model.specs.Index.{Index, code};
ghost use Rattle.enc_model.specs.Stream.{steps};
ghost use Rattle.enc_model.specs.Sink.{Given};
ghost use Rattle.enc_model.specs.Japanese.{shift_jis, shift_jis_at, shift_jis_pair};
ghost use Rattle.enc_model.specs.Indexes.{tables};
ghost use Rattle.enc_model.proofs.Calm.{shift_jis_calm};

use crate::kana::{half_width, pair_answer};
use crate::pairs::{NO_PAIR, TRAILS, ready_rows, row_char};
use crate::sjis_bytes::PAIRS;
use crate::stride::{PairDecoder, Strider, decode_strides, read_run};
use enc_feed::{Batch, BlockDecoder, Decoder, PairReader, Sink, feed, finish};
use enc_index::{IndexSet, Kind};
use enc_model::{Answer, Restored, Utf8Char};
use lane_kernels::{ascii_front, ascii_lanes};
use std::marker::Model;

/// The Shift_JIS decoder (Encoding Standard, section 12.3.1). Its state is the lead byte, if one was read.
#[derive(Drop)]
pub struct ShiftJisState {
    lead: Option<u8>,
}

impl Model for ShiftJisState {
    ghost Value = { ℕ };

    ghost view = { λ s. lead_or_zero s.lead };

    ghost invariant = { λ s. IfSome s.lead IsShiftJisLead };
}

/// The pointer of a lead and a trail byte.
fn shift_jis_pointer(lead: u8, b: u8) -> u32
    requires lead { IsShiftJisLead lead }
    requires trail { 0x40 ≤ b }
    ensures { result ≡ shift_jis_at lead b }
{
    let offset: u32 = if b < 0x7F { 0x40 } else { 0x41 };
    let lead_offset: u32 = if lead < 0xA0 { 0x81 } else { 0xC1 };
    (lead as u32 - lead_offset) * 188 + b as u32 - offset
}

/// The code point of a lead byte and the byte after it.
fn shift_jis_char(indexes: &IndexSet, lead: u8, b: u8) -> Option<char>
    requires lead { IsShiftJisLead lead }
    ensures { result ≡ shift_jis_pair (tables indexes.now).jis0208 lead b }
{
    if b < 0x40 || b == 0x7F || 0xFC < b {
        return None;
    }
    let pointer = shift_jis_pointer(lead, b);
    if 8836 <= pointer && pointer <= 10715 {
        return char::from_u32(0xE000 + (pointer - 8836));
    }
    indexes.code(Kind::Jis0208, pointer)
}

impl Decoder for ShiftJisState {
    type Tables = IndexSet;

    ghost handler = { λ t. shift_jis (tables t).jis0208 };

    #[inline(always)]
    #[tactic(auto, unfolding(enc_model::specs::Japanese::shift_jis))]
    fn read(&mut self, indexes: &IndexSet, byte: Option<u8>) -> (Answer, Restored) {
        let lead = self.lead;
        *self = Self::new();
        let Some(b) = byte else {
            return match lead {
                None => (Answer::Finished, Restored::Zero),
                Some(_) => (Answer::Error, Restored::Zero),
            };
        };
        if let Some(lead) = lead {
            return pair_answer(shift_jis_char(indexes, lead, b), b);
        }
        match b {
            0..=0x80 => (Answer::Point(b as char), Restored::Zero),
            0xA1..=0xDF => (half_width(b - 0xA1), Restored::Zero),
            0x81..=0x9F | 0xE0..=0xFC => {
                *self = Self::in_state(b);
                (Answer::Nothing, Restored::Zero)
            }
            _ => (Answer::Error, Restored::Zero),
        }
    }

    ghost calm = { λ t. shift_jis_calm (tables t).jis0208 };
}

/// The pointer of two bytes in jis0208, or a number of at least `NO_PAIR` if they have none.
#[inline(always)]
fn pair_pointer(lead: u8, b: u8) -> u32
    ensures lead { result < NO_PAIR → IsShiftJisLead lead }
    ensures pair { result < NO_PAIR → (i : Index) → shift_jis_pair i lead b ≡ code i result }
{
    PAIRS[lead as usize] + PAIRS[TRAILS + b as usize]
}

impl PairReader for ShiftJisState {
    ghost represent = { IsShiftJisPair };

    #[inline(always)]
    #[tactic(auto, using(crate::proofs::SjisBytes::sjis_read))]
    fn ready_pair<'a>(
        &self,
        ready: &'a [Option<Utf8Char>],
        first: u8,
        second: u8,
    ) -> Option<&'a Utf8Char> {
        row_char(ready, pair_pointer(first, second))
    }
}

impl PairDecoder for ShiftJisState {
    #[inline(always)]
    #[tactic(auto, using(enc_feed::proofs::Prefixes::prefix_none, crate::proofs::Prefixes::sjis_prefix))]
    fn ascii(&self, _indexes: &IndexSet, bytes: &[u8]) -> usize {
        if self.is_at_start() {
            ascii_front(bytes)
        } else {
            0
        }
    }

    #[inline(always)]
    #[tactic(auto, using(enc_feed::proofs::Prefixes::prefix_none, crate::proofs::Prefixes::sjis_prefix))]
    fn ascii_lanes(&self, _indexes: &IndexSet, bytes: &[u8]) -> usize {
        if self.is_at_start() {
            ascii_lanes(bytes)
        } else {
            0
        }
    }

    #[inline(always)]
    fn ready<'a>(&self, indexes: &'a IndexSet) -> Option<&'a [Option<Utf8Char>]> {
        if !self.is_at_start() {
            return None;
        }
        ready_rows(indexes)
    }
}

impl Strider for ShiftJisState {
    #[inline(always)]
    fn stride(&mut self, indexes: &IndexSet, rest: &[u8], batch: &mut Batch) -> usize {
        read_run(self, indexes, rest, batch)
    }
}

impl BlockDecoder for ShiftJisState {
    fn prefix(&self, indexes: &IndexSet, bytes: &[u8]) -> usize {
        self.ascii(indexes, bytes)
    }

    fn decode_block(&mut self, indexes: &IndexSet, block: &[u8], batch: &mut Batch) {
        decode_strides(self, indexes, block, batch);
    }
}

impl ShiftJisState {
    /// A decoder that has read nothing.
    pub fn new() -> Self
        ensures { result ≡ 0 }
    {
        ShiftJisState { lead: None }
    }

    /// A decoder with this lead byte, or with none if it is 0.
    pub fn in_state(lead: u8) -> Self
        requires { IsShiftJisState lead }
        ensures { result ≡ lead }
    {
        ShiftJisState {
            lead: if lead == 0 { None } else { Some(lead) },
        }
    }

    /// Whether no lead byte was read.
    #[inline(always)]
    fn is_at_start(&self) -> bool
        ensures { IsTrue result ↔ (self.now ≡ 0) }
    {
        self.lead.is_none()
    }

    /// The lead byte, or 0.
    pub fn lead(&self) -> u8
        ensures value { result ≡ self.now }
        ensures valid { IsShiftJisState result }
    {
        self.lead.unwrap_or(0)
    }

    /// A copy of the state.
    pub fn copy(&self) -> Self
        ensures { result ≡ self.now }
    {
        ShiftJisState { lead: self.lead }
    }

    /// Decodes a piece into the sink.
    ///
    /// # Errors
    ///
    /// The sink's refusal, at once; nothing is known of the state afterwards.
    pub fn feed<S: Sink>(
        &mut self,
        indexes: &IndexSet,
        piece: &[u8],
        sink: &mut S,
    ) -> Result<(), S::Refusal>
        ensures given { Given S.takes S.refuses sink.old
            (steps (shift_jis (tables indexes.now).jis0208) false self.old piece.now).text sink.new result }
        ensures state { OnOk result
            (self.new ≡ (steps (shift_jis (tables indexes.now).jis0208) false self.old piece.now).state) }
    {
        feed(self, indexes, piece, sink)
    }

    /// Decodes the end.
    ///
    /// # Errors
    ///
    /// The sink's refusal, at once; nothing is known of the state afterwards.
    pub fn finish<S: Sink>(&mut self, indexes: &IndexSet, sink: &mut S) -> Result<(), S::Refusal>
        ensures given { Given S.takes S.refuses sink.old
            (steps (shift_jis (tables indexes.now).jis0208) true self.old []).text sink.new result }
        ensures state { OnOk result
            (self.new ≡ (steps (shift_jis (tables indexes.now).jis0208) true self.old []).state) }
    {
        finish(self, indexes, sink)
    }
}
