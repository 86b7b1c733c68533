//! The UTF-8 decoder.

ghost use Rattle.std.specs.Prelude.{◌≡◌, ◌≢◌, IfSome, IfNone, IfOk, IfErr, OnOk, true, false, ◌<◌, ◌≤◌, ◌+◌, ◌*◌, []};
ghost use Rattle.std.specs.Prelude.{◌∷◌, length, take, Some};
ghost use Rattle.enc_unicode.specs.Utf8State.{IsUtf8State, IsUnfinishedState, utf8_after};
ghost use Rattle.enc_model.specs.Stream.{steps};
ghost use Rattle.enc_model.specs.Sink.{Given};
ghost use Rattle.enc_feed.specs.Batches.{BatchTook};
ghost use Rattle.enc_model.specs.Index.{within};
ghost use Rattle.enc_model.specs.Utf8.{Utf8, utf8, utf8_start, utf8_first, utf8_next};
ghost use Rattle.enc_model.proofs.Calm.{utf8_calm};

use crate::by_characters::text_before_fault;
use crate::cuts::{push_cuts, trail_len};
use crate::faults::push_few;
use crate::nowhere::Nowhere;
use crate::well_formed::{Look, text_found};
use enc_feed::{BLOCK, Batch, Decoder, ROOM, Sink, decode_each, finish};
use enc_model::{Answer, Restored};
use std::marker::Model;

/// The most bytes of an unfinished character at a piece's end.
const CUT: usize = 3;

/// The UTF-8 decoder (Encoding Standard, section 8.1.1): how many bytes are still needed, the bounds of the next one,
/// the code point so far, and the bytes that it came from. `faulty` is set if the last piece had faults; it only
/// chooses the strategy for the next one.
#[derive(Drop)]
pub struct Utf8State {
    needed: u8,
    lower: u8,
    upper: u8,
    point: u32,
    partial: [u8; 3],
    current: u8,
    faulty: bool,
}

impl Model for Utf8State {
    ghost Value = { Utf8 };

    ghost view = { λ s. record
        { needed = s.needed; lower = s.lower; upper = s.upper; point = s.point; partial = take s.current s.partial } };

    ghost invariant = { λ s. IsUtf8State s.needed s.lower s.upper s.point s.current × IsUnfinishedState
        (record {
          needed = s.needed;
          lower = s.lower;
          upper = s.upper;
          point = s.point;
          partial = take s.current s.partial;
        }) };
}

impl Utf8State {
    /// A decoder that has read nothing.
    #[tactic(auto, using(crate::proofs::After::after_none))]
    pub fn new() -> Self
        ensures { result ≡ utf8_start }
    {
        Self::needs(0, 0x80, 0xBF, 0, 0, 0)
    }

    /// A copy of the state.
    pub fn copy(&self) -> Self
        ensures { result ≡ self.now }
    {
        Utf8State {
            needed: self.needed,
            lower: self.lower,
            upper: self.upper,
            point: self.point,
            partial: self.partial,
            current: self.current,
            faulty: self.faulty,
        }
    }

    /// The bytes of an unfinished character. The state is the one after them.
    pub fn partial(&self) -> &[u8]
        ensures bytes { result.now ≡ self.now.partial }
        ensures after { IsUnfinishedState self.now }
        ensures few { length result.now ≤ 3 }
    {
        &self.partial[..self.current as usize]
    }

    /// The decoder state after these bytes, or None if they are not all of one unfinished character.
    pub fn after(bytes: &[u8]) -> Option<Self>
        ensures some { IfSome result (λ s. (s ≡ utf8_after bytes.now) × (s.partial ≡ bytes.now)) }
        ensures none { IfNone result ((utf8_after bytes.now).partial ≢ bytes.now) }
    {
        let mut state = Self::new();
        match state.feed(bytes, &mut Nowhere) {
            Ok(()) if state.partial() == bytes => Some(state),
            _ => None,
        }
    }

    /// A decoder that needs more bytes after a lead byte.
    fn needs(needed: u8, lower: u8, upper: u8, point: u32, lead: u8, current: u8) -> Self
        requires valid { IsUtf8State needed lower upper point current }
        requires after { IsUnfinishedState
            (record {
              needed = needed;
              lower = lower;
              upper = upper;
              point = point;
              partial = take current (lead ∷ []);
            }) }
        requires few { current ≤ 1 }
        ensures { result ≡ record
            { needed = needed; lower = lower; upper = upper; point = point; partial = take current (lead ∷ []) } }
    {
        Utf8State {
            needed,
            lower,
            upper,
            point,
            partial: [lead, 0, 0],
            current,
            faulty: false,
        }
    }

    /// Reads the first byte of a character.
    #[inline(always)]
    fn first(&mut self, b: u8) -> Answer
        requires { self.old.needed ≡ 0 }
        ensures answer { result ≡ (utf8_first b).answer }
        ensures state { self.new ≡ (utf8_first b).state }
    {
        prove!(self.needed == 0);
        match b {
            0..=0x7F => Answer::Point(b as char),
            0xC2..=0xDF => {
                *self = Self::needs(1, 0x80, 0xBF, (b - 0xC0) as u32, b, 1);
                Answer::Nothing
            }
            0xE0..=0xEF => {
                let lower = if b == 0xE0 { 0xA0 } else { 0x80 };
                let upper = if b == 0xED { 0x9F } else { 0xBF };
                *self = Self::needs(2, lower, upper, (b - 0xE0) as u32, b, 1);
                Answer::Nothing
            }
            0xF0..=0xF4 => {
                let lower = if b == 0xF0 { 0x90 } else { 0x80 };
                let upper = if b == 0xF4 { 0x8F } else { 0xBF };
                *self = Self::needs(3, lower, upper, (b - 0xF0) as u32, b, 1);
                Answer::Nothing
            }
            _ => Answer::Error,
        }
    }

    /// Reads a byte within the bounds.
    fn next(&mut self, b: u8) -> Answer
        requires needed { 0 < self.old.needed }
        requires within { (self.old.lower ≤ b) × (b ≤ self.old.upper) }
        ensures answer { result ≡ (utf8_next self.old b).answer }
        ensures state { self.new ≡ (utf8_next self.old b).state }
    {
        let point = self.point * 64 + (b - 0x80) as u32;
        if self.needed == 1 {
            *self = Self::new();
            return match char::from_u32(point) {
                Some(c) => Answer::Point(c),
                None => unreachable!(),
            };
        }
        self.partial[self.current as usize] = b;
        self.current += 1;
        self.needed -= 1;
        self.lower = 0x80;
        self.upper = 0xBF;
        self.point = point;
        Answer::Nothing
    }
}

impl Decoder for Utf8State {
    type Tables = ();

    ghost handler = { λ t. utf8 };

    #[inline(always)]
    #[tactic(auto, unfolding(enc_model::specs::Utf8::utf8))]
    fn read(&mut self, _tables: &(), byte: Option<u8>) -> (Answer, Restored) {
        let Some(b) = byte else {
            if self.needed == 0 {
                return (Answer::Finished, Restored::Zero);
            }
            *self = Self::new();
            return (Answer::Error, Restored::Zero);
        };
        if self.needed == 0 {
            return (self.first(b), Restored::Zero);
        }
        if b < self.lower || self.upper < b {
            *self = Self::new();
            return (Answer::Error, Restored::One(b));
        }
        (self.next(b), Restored::Zero)
    }

    ghost calm = { λ t. utf8_calm };
}

impl Utf8State {
    /// Decodes a piece into the sink.
    ///
    /// # Errors
    ///
    /// The sink's refusal, at once; nothing is known of the state afterwards.
    pub fn feed<S: Sink>(&mut self, piece: &[u8], sink: &mut S) -> Result<(), S::Refusal>
        ensures given { Given S.takes S.refuses sink.old (steps utf8 false self.old piece.now).text sink.new result }
        ensures state { OnOk result (self.new ≡ (steps utf8 false self.old piece.now).state) }
    {
        let prefix = self.give_texts(piece, sink)?;
        if prefix == piece.len() {
            return Ok(());
        }
        self.feed_parts(&piece[prefix..], sink)
    }

    /// Gives the sink the well-formed texts that the bytes begin with, window by window, and returns their length.
    /// After a faulty piece it gives none.
    fn give_texts<S: Sink>(&self, bytes: &[u8], sink: &mut S) -> Result<usize, S::Refusal>
        ensures within { IfOk result (λ n. n ≤ length bytes.now) }
        ensures taken { IfOk result
            (λ n. S.takes sink.old (steps utf8 false self.now (take n bytes.now)).text sink.new) }
        ensures refused { IfErr result (λ e. S.refuses sink.old (steps utf8 false self.now bytes.now).text e sink.new) }
        ensures state { IfOk result (λ n. self.now ≡ (steps utf8 false self.now (take n bytes.now)).state) }
    {
        let mut at = 0;
        let mut look = Look::first();
        'by_windows: while at < bytes.len() && !self.faulty {
            let found = self.text_at_start(&bytes[at..], look);
            if found.is_empty() {
                break;
            }
            sink.text(found)?;
            at += found.len();
            look = look.after_text(found.len());
        }
        Ok(at)
    }

    /// Decodes the rest of a piece after `give_texts`. Where no text begins, a block is decoded.
    fn feed_parts<S: Sink>(&mut self, piece: &[u8], sink: &mut S) -> Result<(), S::Refusal>
        ensures given { Given S.takes S.refuses sink.old (steps utf8 false self.old piece.now).text sink.new result }
        ensures state { OnOk result (self.new ≡ (steps utf8 false self.old piece.now).state) }
    {
        let mut batch = Batch::new();
        let mut at = 0;
        let mut look = self.first_look();
        let mut faulty = false;
        while at < piece.len() {
            let text = self.text_at_start(&piece[at..], look);
            faulty = faulty || self.is_fault(text, &piece[at..]);
            let start = at;
            at += self.advance(&piece[at..], text, look, &mut batch, sink)?;
            look = look.after(text.len(), at - start, batch.as_str().len());
        }
        self.faulty = faulty;
        Ok(())
    }

    /// The first strategy after `give_texts`.
    fn first_look(&self) -> Look {
        if self.faulty {
            Look::Resumed
        } else if self.needed == 0 {
            Look::AtFault
        } else {
            Look::first()
        }
    }

    /// Whether the bytes, which begin with this text, begin with a fault. A character cut by the end of the piece
    /// doesn't count.
    fn is_fault(&self, text: &str, bytes: &[u8]) -> bool {
        text.is_empty() && self.needed == 0 && CUT < bytes.len()
    }

    /// A well-formed text that the bytes begin with. It is empty within a character.
    fn text_at_start<'a>(&self, bytes: &'a [u8], look: Look) -> &'a str
        ensures prefix { result.now ≡ take (length result.now) bytes.now }
        ensures start { 0 < length result.now → self.now ≡ utf8_start }
    {
        if self.needed == 0 {
            text_found(bytes, look)
        } else {
            ""
        }
    }

    /// Decodes the next part of a piece: the text that it begins with, or a block if that is empty. Returns its length.
    fn advance<S: Sink>(
        &mut self,
        rest: &[u8],
        text: &str,
        look: Look,
        batch: &mut Batch,
        sink: &mut S,
    ) -> Result<usize, S::Refusal>
        requires some { 0 < length rest.now }
        requires prefix { text.now ≡ take (length text.now) rest.now }
        requires start { 0 < length text.now → self.old ≡ utf8_start }
        ensures some { IfOk result (λ n. (0 < n) × (n ≤ length rest.now)) }
        ensures taken { IfOk result
            (λ n. S.takes sink.old (steps utf8 false self.old (take n rest.now)).text sink.new) }
        ensures refused { IfErr result (λ e. S.refuses sink.old (steps utf8 false self.old rest.now).text e sink.new) }
        ensures state { IfOk result (λ n. self.new ≡ (steps utf8 false self.old (take n rest.now)).state) }
    {
        if !text.is_empty() {
            sink.text(text)?;
            return Ok(text.len());
        }
        let count = self.count(rest, look);
        batch.clear();
        self.decode_block(&rest[..count], batch);
        sink.text(batch.as_str())?;
        Ok(count)
    }

    /// How many bytes to decode as a block if no text begins: those that continue a character, or else a whole block.
    fn count(&self, rest: &[u8], look: Look) -> usize
        requires { 0 < length rest.now }
        ensures some { (0 < result) × (result ≤ length rest.now) }
        ensures few { result ≤ BLOCK }
    {
        match trail_len(rest, self.needed as usize) {
            0 => look.block_len(rest),
            len => len,
        }
    }

    /// Decodes a block, for which the batch has room.
    fn decode_block(&mut self, block: &[u8], batch: &mut Batch)
        requires { length batch.old + 12 * length block.now ≤ ROOM }
        ensures text { BatchTook batch.old (steps utf8 false self.old block.now).text batch.new }
        ensures state { self.new ≡ (steps utf8 false self.old block.now).state }
    {
        let mut at = 0;
        while at < block.len() {
            at += self.decode_some(&block[at..], batch);
        }
    }

    /// Decodes the next part of a block: a well-formed text, or else cut characters and one byte. Returns its length.
    fn decode_some(&mut self, rest: &[u8], batch: &mut Batch) -> usize
        requires some { 0 < length rest.now }
        requires room { length batch.old + 12 * length rest.now ≤ ROOM }
        ensures some { (0 < result) × (result ≤ length rest.now) }
        ensures text { BatchTook batch.old (steps utf8 false self.old (take result rest.now)).text batch.new }
        ensures state { self.new ≡ (steps utf8 false self.old (take result rest.now)).state }
    {
        if self.needed != 0 {
            return self.decode_unfinished(rest, batch);
        }
        let few = push_few(rest, batch);
        if 0 < few {
            return few;
        }
        let text = text_before_fault(rest);
        if !text.is_empty() {
            batch.push_str(text);
            return text.len();
        }
        self.decode_cuts(rest, batch)
    }

    /// Decodes within a character: one byte that continues it, or cut characters that follow. Returns how many bytes.
    fn decode_unfinished(&mut self, rest: &[u8], batch: &mut Batch) -> usize
        requires needed { 0 < self.old.needed }
        requires some { 0 < length rest.now }
        requires room { length batch.old + 12 * length rest.now ≤ ROOM }
        ensures some { (0 < result) × (result ≤ length rest.now) }
        ensures text { BatchTook batch.old (steps utf8 false self.old (take result rest.now)).text batch.new }
        ensures state { self.new ≡ (steps utf8 false self.old (take result rest.now)).state }
    {
        if rest.len() < 2 || self.goes_on(rest[0]) {
            decode_each(self, &(), &rest[..1], batch);
            return 1;
        }
        *self = Self::new();
        batch.push('\u{FFFD}');
        self.decode_cuts(rest, batch)
    }

    /// Whether this byte continues the character.
    #[inline(always)]
    fn goes_on(&self, b: u8) -> bool
        ensures { result ≡ within self.now.lower self.now.upper b }
    {
        self.lower <= b && b <= self.upper
    }

    /// Decodes cut characters and the byte after them. Returns how many bytes.
    #[inline(always)]
    fn decode_cuts(&mut self, rest: &[u8], batch: &mut Batch) -> usize
        requires start { self.old ≡ utf8_start }
        requires some { 0 < length rest.now }
        requires room { length batch.old + 4 * length rest.now + 8 ≤ ROOM }
        ensures some { (0 < result) × (result ≤ length rest.now) }
        ensures text { BatchTook batch.old (steps utf8 false utf8_start (take result rest.now)).text batch.new }
        ensures state { self.new ≡ (steps utf8 false utf8_start (take result rest.now)).state }
    {
        let cut = push_cuts(rest, batch);
        decode_each(self, &(), &rest[cut..cut + 1], batch);
        cut + 1
    }

    /// Decodes the end.
    ///
    /// # Errors
    ///
    /// The sink's refusal, at once; nothing is known of the state afterwards.
    pub fn finish<S: Sink>(&mut self, sink: &mut S) -> Result<(), S::Refusal>
        ensures given { Given S.takes S.refuses sink.old (steps utf8 true self.old []).text sink.new result }
        ensures state { OnOk result (self.new ≡ (steps utf8 true self.old []).state) }
    {
        finish(self, &(), sink)
    }
}
