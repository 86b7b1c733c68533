//! The ISO-2022-JP decoder.

ghost use Rattle.std.specs.Prelude.{◌≡◌, OnOk, ◌+◌, ◌*◌, true, ◌≤◌, false, [], length, take};
ghost use Rattle.enc_legacy.specs.Iso2022State.{IsIso2022State, IsIso2022Pair};
ghost use Rattle.enc_feed.specs.Batches.{BatchTook};
ghost use Rattle.enc_model.specs.declared.Charset.TheVariants.{Ascii, Lead};
ghost use Rattle.enc_model.specs.declared.Place.TheVariants.{In};
ghost use Rattle.enc_model.specs.Stream.{restored_bytes, steps};
ghost use Rattle.enc_model.specs.Sink.{Given};
ghost use Rattle.enc_model.specs.Japanese.{Iso2022, iso2022, iso2022_start, iso2022_byte, iso2022_end, iso2022_plain};
ghost use Rattle.enc_model.proofs.Calm.{iso2022_calm};
ghost use Rattle.enc_model.specs.Indexes.{tables};

use crate::escapes::{byte_of, escape, plain_answer};
use crate::euc_bytes::row_pointer;
use crate::kana::answer_for;
use crate::pairs::{ready_rows, row_char};
use crate::stride::{Strider, decode_strides};
use enc_feed::{Batch, BlockDecoder, Decoder, PairReader, ROOM, Sink, decode_each, feed, finish};
use enc_index::{IndexSet, Kind};
use enc_model::{Answer, Charset, Introducer, Place, Restored, Utf8Char};
use lane_kernels::plain_front_2022;
use std::marker::Model;

/// The ISO-2022-JP decoder (Encoding Standard, section 12.2.1). Its state is the place, the output state and the output
/// flag. An unknown escape sequence returns to the output state. The flag is set between an escape sequence and the
/// next byte.
#[derive(Drop)]
pub struct Iso2022State {
    place: Place,
    output: Charset,
    flag: bool,
}

impl Model for Iso2022State {
    ghost Value = { Iso2022 };

    ghost view = { λ s. record { place = s.place; output = s.output; flag = s.flag } };

    ghost invariant = { λ s. IsIso2022State s.place s.output s.flag };
}

impl Iso2022State {
    /// A decoder that has read nothing.
    pub fn new() -> Self
        ensures { result ≡ iso2022_start }
    {
        Iso2022State {
            place: Place::In(Charset::Ascii),
            output: Charset::Ascii,
            flag: false,
        }
    }

    /// Returns to the output state.
    fn back(&mut self)
        ensures { self.new ≡ record { place = Place.In self.old.output; output = self.old.output; flag = false } }
    {
        self.place = Place::In(self.output);
        self.flag = false;
    }

    /// Reads the end.
    fn end(&mut self) -> (Answer, Restored)
        ensures answer { result.0 ≡ (iso2022_end self.old.place self.old.output self.old.flag).answer }
        ensures restored { restored_bytes result.1
            ≡ (iso2022_end self.old.place self.old.output self.old.flag).restored }
        ensures state { self.new ≡ (iso2022_end self.old.place self.old.output self.old.flag).state }
    {
        match self.place {
            Place::In(_) => (Answer::Finished, Restored::Zero),
            Place::Trail(_) => {
                self.place = Place::In(Charset::Lead);
                (Answer::Error, Restored::Zero)
            }
            Place::EscapeStart => {
                self.back();
                (Answer::Error, Restored::Zero)
            }
            Place::Escape(lead) => {
                self.back();
                (Answer::Error, Restored::One(byte_of(lead)))
            }
        }
    }

    /// Reads the byte after 1B.
    #[inline(always)]
    fn introduced(&mut self, b: u8) -> (Answer, Restored)
        ensures answer { result.0 ≡ (iso2022_byte [] Place.EscapeStart self.old.output self.old.flag b).answer }
        ensures restored { restored_bytes
            result.1 ≡ (iso2022_byte [] Place.EscapeStart self.old.output self.old.flag b).restored }
        ensures state { self.new ≡ (iso2022_byte [] Place.EscapeStart self.old.output self.old.flag b).state }
    {
        match b {
            0x24 => {
                self.place = Place::Escape(Introducer::Dollar);
                (Answer::Nothing, Restored::Zero)
            }
            0x28 => {
                self.place = Place::Escape(Introducer::Paren);
                (Answer::Nothing, Restored::Zero)
            }
            _ => {
                self.back();
                (Answer::Error, Restored::One(b))
            }
        }
    }

    /// Reads the last byte of an escape sequence.
    fn escaped(&mut self, lead: Introducer, b: u8) -> (Answer, Restored)
        ensures answer { result.0 ≡ (iso2022_byte [] (Place.Escape lead) self.old.output self.old.flag b).answer }
        ensures restored { restored_bytes
            result.1 ≡ (iso2022_byte [] (Place.Escape lead) self.old.output self.old.flag b).restored }
        ensures state { self.new ≡ (iso2022_byte [] (Place.Escape lead) self.old.output self.old.flag b).state }
    {
        match escape(lead, b) {
            Some(set) => {
                let answer = if self.flag {
                    Answer::Error
                } else {
                    Answer::Nothing
                };
                self.place = Place::In(set);
                self.output = set;
                self.flag = true;
                (answer, Restored::Zero)
            }
            None => {
                self.back();
                (Answer::Error, Restored::Two(byte_of(lead), b))
            }
        }
    }

    /// Reads a byte other than 1B in a character set.
    fn plain(&mut self, set: Charset, b: u8) -> Answer
        requires { self.old.output ≡ set }
        ensures answer { result ≡ (iso2022_plain set self.old.output b).answer }
        ensures state { self.new ≡ (iso2022_plain set self.old.output b).state }
    {
        let answer = plain_answer(set, b);
        self.flag = false;
        self.place = match (set, answer) {
            (Charset::Lead, Answer::Nothing) => Place::Trail(b),
            _ => Place::In(set),
        };
        answer
    }
}

impl Decoder for Iso2022State {
    type Tables = IndexSet;

    ghost handler = { λ t. iso2022 (tables t).jis0208 };

    #[inline(always)]
    #[tactic(auto, unfolding(enc_model::specs::Japanese::iso2022))]
    fn read(&mut self, indexes: &IndexSet, byte: Option<u8>) -> (Answer, Restored) {
        let Some(b) = byte else {
            return self.end();
        };
        match self.place {
            Place::In(set) => {
                if b == 0x1B {
                    self.place = Place::EscapeStart;
                    (Answer::Nothing, Restored::Zero)
                } else {
                    (self.plain(set, b), Restored::Zero)
                }
            }
            Place::Trail(lead) => {
                if b == 0x1B {
                    self.place = Place::EscapeStart;
                    return (Answer::Error, Restored::Zero);
                }
                self.place = Place::In(Charset::Lead);
                if b < 0x21 || 0x7E < b {
                    return (Answer::Error, Restored::Zero);
                }
                let pointer = (lead as u32 - 0x21) * 94 + (b as u32 - 0x21);
                let code = indexes.code(Kind::Jis0208, pointer);
                (answer_for(code), Restored::Zero)
            }
            Place::EscapeStart => self.introduced(b),
            Place::Escape(lead) => self.escaped(lead, b),
        }
    }

    ghost calm = { λ t. iso2022_calm (tables t).jis0208 };
}

impl PairReader for Iso2022State {
    ghost represent = { IsIso2022Pair };

    // The bytes are those of EUC-JP without the top bit.
    #[inline(always)]
    #[tactic(auto, using(crate::proofs::EucBytes::iso_read))]
    fn ready_pair<'a>(
        &self,
        ready: &'a [Option<Utf8Char>],
        first: u8,
        second: u8,
    ) -> Option<&'a Utf8Char> {
        row_char(
            ready,
            row_pointer(first.wrapping_add(0x80), second.wrapping_add(0x80)),
        )
    }
}

impl Iso2022State {
    /// Decodes leading ASCII, and returns its length.
    #[inline(always)]
    #[tactic(auto, using(crate::proofs::Strides::text_begins, crate::proofs::Strides::state_begins))]
    fn read_ascii(&mut self, _indexes: &IndexSet, rest: &[u8], batch: &mut Batch) -> usize
        requires place { self.old.place ≡ In Ascii }
        requires room { length batch.old + 12 * length rest.now ≤ ROOM }
        ensures within { result ≤ length rest.now }
        ensures text { BatchTook batch.old
            (steps (iso2022 (tables _indexes.now).jis0208) false self.old (take result rest.now)).text batch.new }
        ensures state { self.new
            ≡ (steps (iso2022 (tables _indexes.now).jis0208) false self.old (take result rest.now)).state }
    {
        let run = plain_front_2022(rest);
        if run == 0 {
            return 0;
        }
        batch.push_ascii(&rest[..run]);
        self.flag = false;
        run
    }

    /// Decodes leading pairs of jis0208 while they are ready, and returns how many bytes they are.
    #[inline(always)]
    #[tactic(auto, using(crate::proofs::Strides::text_begins, crate::proofs::Strides::state_begins))]
    fn read_pairs(&mut self, indexes: &IndexSet, rest: &[u8], batch: &mut Batch) -> usize
        requires place { self.old.place ≡ In Lead }
        requires room { length batch.old + 12 * length rest.now ≤ ROOM }
        ensures within { result ≤ length rest.now }
        ensures text { BatchTook batch.old
            (steps (iso2022 (tables indexes.now).jis0208) false self.old (take result rest.now)).text batch.new }
        ensures state { self.new
            ≡ (steps (iso2022 (tables indexes.now).jis0208) false self.old (take result rest.now)).state }
    {
        let Some(ready) = ready_rows(indexes) else {
            return 0;
        };
        let run = batch.push_pairs(self, ready, rest);
        if run == 0 {
            return 0;
        }
        self.flag = false;
        run
    }

    /// Decodes a run of ASCII or of pairs, and returns its length.
    #[inline(always)]
    #[tactic(auto, using(crate::proofs::Strides::text_begins, crate::proofs::Strides::state_begins))]
    fn read_run(&mut self, indexes: &IndexSet, rest: &[u8], batch: &mut Batch) -> usize
        requires room { length batch.old + 12 * length rest.now ≤ ROOM }
        ensures within { result ≤ length rest.now }
        ensures text { BatchTook batch.old
            (steps (iso2022 (tables indexes.now).jis0208) false self.old (take result rest.now)).text batch.new }
        ensures state { self.new
            ≡ (steps (iso2022 (tables indexes.now).jis0208) false self.old (take result rest.now)).state }
    {
        match self.place {
            Place::In(Charset::Ascii) => self.read_ascii(indexes, rest, batch),
            Place::In(Charset::Lead) => self.read_pairs(indexes, rest, batch),
            _ => 0,
        }
    }
}

impl Strider for Iso2022State {
    #[inline(always)]
    fn stride(&mut self, indexes: &IndexSet, rest: &[u8], batch: &mut Batch) -> usize {
        let run = self.read_run(indexes, rest, batch);
        if run > 0 {
            return run;
        }
        decode_each(self, indexes, &rest[..1], batch);
        1
    }
}

impl BlockDecoder for Iso2022State {
    #[tactic(auto, using(enc_feed::proofs::Prefixes::prefix_none))]
    fn prefix(&self, _indexes: &IndexSet, _bytes: &[u8]) -> usize {
        0
    }

    fn decode_block(&mut self, indexes: &IndexSet, block: &[u8], batch: &mut Batch) {
        decode_strides(self, indexes, block, batch);
    }
}

impl Iso2022State {
    /// A decoder with this place, output state and flag.
    pub fn in_state(place: Place, output: Charset, flag: bool) -> Self
        requires { IsIso2022State place output flag }
        ensures { result ≡ record { place = place; output = output; flag = flag } }
    {
        Iso2022State {
            place,
            output,
            flag,
        }
    }

    /// The place, the output state and the flag.
    pub fn parts(&self) -> (Place, Charset, bool)
        ensures value { self.now ≡ record { place = result.0; output = result.1; flag = result.2 } }
        ensures valid { IsIso2022State result.0 result.1 result.2 }
    {
        (self.place, self.output, self.flag)
    }

    /// A copy of the state.
    pub fn copy(&self) -> Self
        ensures { result ≡ self.now }
    {
        Iso2022State {
            place: self.place,
            output: self.output,
            flag: self.flag,
        }
    }

    /// Decodes a piece into the sink.
    ///
    /// # Errors
    ///
    /// The sink's refusal, at once; nothing is known of the state afterwards.
    pub fn feed<S: Sink>(
        &mut self,
        indexes: &IndexSet,
        piece: &[u8],
        sink: &mut S,
    ) -> Result<(), S::Refusal>
        ensures given { Given S.takes S.refuses sink.old
            (steps (iso2022 (tables indexes.now).jis0208) false self.old piece.now).text sink.new result }
        ensures state { OnOk result
            (self.new ≡ (steps (iso2022 (tables indexes.now).jis0208) false self.old piece.now).state) }
    {
        feed(self, indexes, piece, sink)
    }

    /// Decodes the end.
    ///
    /// # Errors
    ///
    /// The sink's refusal, at once; nothing is known of the state afterwards.
    pub fn finish<S: Sink>(&mut self, indexes: &IndexSet, sink: &mut S) -> Result<(), S::Refusal>
        ensures given { Given S.takes S.refuses sink.old
            (steps (iso2022 (tables indexes.now).jis0208) true self.old []).text sink.new result }
        ensures state { OnOk result (self.new ≡ (steps (iso2022 (tables indexes.now).jis0208) true self.old []).state) }
    {
        finish(self, indexes, sink)
    }
}
