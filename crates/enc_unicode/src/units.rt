//! UTF-16's handler and its state, in either byte order.

ghost use Rattle.std.specs.Prelude.{◌≡◌, IfOk, IfErr, OnOk, false, ◌<◌, ◌≤◌, [], None, length, take};
ghost use Rattle.std.specs.Bool.{OnTrue};
ghost use Rattle.lane_kernels.specs.Orders.{is_big};
ghost use Rattle.lane_kernels.specs.Units.{IsCarried};
ghost use Rattle.enc_model.specs.Stream.{restored_bytes, steps};
ghost use Rattle.enc_model.specs.Sink.{Given};
ghost use Rattle.enc_model.specs.Utf16.{Utf16, utf16, utf16_start, utf16_unit, utf16_end};
ghost use Rattle.enc_model.proofs.Calm.{utf16_calm};

use crate::blocks::decode_block;
use crate::runs::{CODE, write_text};
use enc_feed::{BLOCK, Batch, BlockDecoder, Decoder, Sink, feed};
use enc_model::{Answer, Restored};
use lane_kernels::{Order, Pairing, paired, unit_in};
use std::marker::Model;
use std::str::from_utf8_unchecked;

/// The handler's state.
#[derive(Drop)]
pub struct Units {
    /// The first byte of a unit.
    pub byte: Option<u8>,
    /// A lead surrogate.
    pub lead: Option<u16>,
}

impl Model for Units {
    ghost Value = { Utf16 };

    ghost view = { λ s. record { byte = s.byte; lead = s.lead } };

    ghost invariant = { λ s. IsCarried s.lead };
}

impl Units {
    /// The state before the first byte.
    pub fn new() -> Self
        ensures { result ≡ utf16_start }
    {
        Units {
            byte: None,
            lead: None,
        }
    }

    /// A copy of the state.
    pub fn copy(&self) -> Self
        ensures { result ≡ self.now }
    {
        Units {
            byte: self.byte,
            lead: self.lead,
        }
    }

    /// Reads a unit; no byte is pending.
    fn unit(&mut self, unit: u16, first: u8, second: u8) -> (Answer, Restored)
        requires { self.old.byte ≡ None }
        ensures answer { result.0 ≡ (utf16_unit self.old.lead unit first second).answer }
        ensures restored { restored_bytes result.1 ≡ (utf16_unit self.old.lead unit first second).restored }
        ensures state { self.new ≡ (utf16_unit self.old.lead unit first second).state }
    {
        if let Some(lead) = self.lead {
            self.lead = None;
            return match unit {
                0xDC00..=0xDFFF => (Answer::Point(paired(lead, unit)), Restored::Zero),
                _ => (Answer::Error, Restored::Two(first, second)),
            };
        }
        match unit {
            0xD800..=0xDBFF => {
                self.lead = Some(unit);
                (Answer::Nothing, Restored::Zero)
            }
            0xDC00..=0xDFFF => (Answer::Error, Restored::Zero),
            _ => match char::from_u32(unit as u32) {
                Some(c) => (Answer::Point(c), Restored::Zero),
                None => unreachable!(),
            },
        }
    }

    /// Reads the end.
    fn end(&mut self) -> Answer
        ensures answer { result ≡ (utf16_end self.old.byte self.old.lead).answer }
        ensures restored { (utf16_end self.old.byte self.old.lead).restored ≡ [] }
        ensures state { self.new ≡ (utf16_end self.old.byte self.old.lead).state }
    {
        let answer = match (self.byte, self.lead) {
            (None, None) => Answer::Finished,
            _ => Answer::Error,
        };
        *self = Self::new();
        answer
    }
}

impl Decoder for Units {
    type Tables = Order;

    ghost handler = { λ order. utf16 (is_big order) };

    #[tactic(auto, unfolding(enc_model::specs::Utf16::utf16))]
    fn read(&mut self, order: &Order, byte: Option<u8>) -> (Answer, Restored) {
        let Some(second) = byte else {
            return (self.end(), Restored::Zero);
        };
        match self.byte {
            None => {
                self.byte = Some(second);
                (Answer::Nothing, Restored::Zero)
            }
            Some(first) => {
                self.byte = None;
                self.unit(unit_in(*order, first, second), first, second)
            }
        }
    }

    ghost calm = { λ order. utf16_calm (is_big order) };
}

impl BlockDecoder for Units {
    #[tactic(auto, using(enc_feed::proofs::Prefixes::prefix_none))]
    fn prefix(&self, _order: &Order, _bytes: &[u8]) -> usize {
        0
    }

    fn decode_block(&mut self, order: &Order, block: &[u8], batch: &mut Batch) {
        let mut pairing = Pairing::carrying(self.byte, self.lead);
        decode_block(&mut pairing, *order, block, batch);
        self.byte = pairing.odd();
        self.lead = pairing.lead();
    }
}

impl Units {
    /// Whether neither a byte nor a lead is pending.
    fn is_empty(&self) -> bool
        ensures { OnTrue result (self.now ≡ utf16_start) }
    {
        self.byte.is_none() && self.lead.is_none()
    }

    /// How many bytes to decode as a block if no run begins: those that complete a pending unit or pair, or else a
    /// whole block.
    fn count(&self, rest: &[u8]) -> usize
        requires { 0 < length rest.now }
        ensures { (0 < result) × (result ≤ length rest.now) }
    {
        let wanted = match (self.byte, self.lead) {
            (Some(_), _) => 1,
            (None, Some(_)) => 2,
            (None, None) => BLOCK,
        };
        wanted.min(rest.len())
    }

    /// Decodes the next part of a piece: a run without surrogates, or a block. Returns its length.
    fn advance<S: Sink>(
        &mut self,
        order: Order,
        rest: &[u8],
        sink: &mut S,
    ) -> Result<usize, S::Refusal>
        requires some { 0 < length rest.now }
        ensures some { IfOk result (λ n. (0 < n) × (n ≤ length rest.now)) }
        ensures taken { IfOk result
            (λ n. S.takes sink.old (steps (utf16 (is_big order)) false self.old (take n rest.now)).text sink.new) }
        ensures refused { IfErr result
            (λ e. S.refuses sink.old (steps (utf16 (is_big order)) false self.old rest.now).text e sink.new) }
        ensures state { IfOk result
            (λ n. self.new ≡ (steps (utf16 (is_big order)) false self.old (take n rest.now)).state) }
    {
        if self.is_empty() {
            let mut code = [0; CODE];
            let (read, len) = write_text(order, rest, &mut code);
            if 0 < read {
                sink.text(unsafe { from_utf8_unchecked(&code[..len]) })?;
                return Ok(read);
            }
        }
        let count = self.count(rest);
        feed(self, &order, &rest[..count], sink)?;
        Ok(count)
    }

    /// Decodes a piece by runs without surrogates and by blocks.
    pub fn feed_runs<S: Sink>(
        &mut self,
        order: Order,
        piece: &[u8],
        sink: &mut S,
    ) -> Result<(), S::Refusal>
        ensures given { Given S.takes S.refuses sink.old (steps (utf16 (is_big order)) false self.old piece.now).text
            sink.new result }
        ensures state { OnOk result (self.new ≡ (steps (utf16 (is_big order)) false self.old piece.now).state) }
    {
        let mut at = 0;
        while at < piece.len() {
            at += self.advance(order, &piece[at..], sink)?;
        }
        Ok(())
    }
}
