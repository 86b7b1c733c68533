//! The decoders of all encodings as one enum.

ghost use Rattle.std.specs.Prelude.{◌≡◌, OnOk, IfSome, MatchOption, true, false, []};
ghost use Rattle.enc_model.specs.Decode.{Decoding, decoding, decoding_start};
ghost use Rattle.enc_model.specs.Indexes.{tables};
ghost use Rattle.enc_model.specs.Sink.{Given};
ghost use Rattle.enc_stream.specs.AnyDecoder.{decoding_of};
ghost use Rattle.enc_stream.specs.StateBytes.{IsOwn, IsReached, decoded_encoding, decoder_bytes, padded};

use crate::states::{
    euc_jp_at, euc_jp_bytes, iso2022_at, iso2022_bytes, shift_jis_at, utf8_at, utf8_bytes,
    utf16_at, utf16_bytes,
};
use enc_feed::Sink;
use enc_index::IndexSet;
use enc_legacy::{EucJpState, Iso2022State, ShiftJisState, SingleState};
use enc_model::Encoding;
use enc_unicode::{Order, Utf8State, Utf16State};

/// A decoder's state, with its encoding.
#[derive(Drop)]
pub enum AnyDecoder {
    Utf8(Utf8State),
    Utf16(Utf16State),
    ShiftJis(ShiftJisState),
    EucJp(EucJpState),
    Iso2022(Iso2022State),
    Single(SingleState),
}

impl AnyDecoder {
    /// A decoder that has read nothing.
    pub fn new(encoding: Encoding) -> Self
        ensures { decoding_of result ≡ decoding_start encoding }
    {
        match encoding {
            Encoding::Utf8 => AnyDecoder::Utf8(Utf8State::new()),
            Encoding::Utf16Be => AnyDecoder::Utf16(Utf16State::new(Order::Big)),
            Encoding::Utf16Le => AnyDecoder::Utf16(Utf16State::new(Order::Little)),
            Encoding::ShiftJis => AnyDecoder::ShiftJis(ShiftJisState::new()),
            Encoding::EucJp => AnyDecoder::EucJp(EucJpState::new()),
            Encoding::Iso2022Jp => AnyDecoder::Iso2022(Iso2022State::new()),
            single => AnyDecoder::Single(SingleState::new(single)),
        }
    }

    /// A copy of the state.
    pub fn copy(&self) -> Self
        ensures { decoding_of result ≡ decoding_of self.now }
    {
        match self {
            AnyDecoder::Utf8(state) => AnyDecoder::Utf8(state.copy()),
            AnyDecoder::Utf16(state) => AnyDecoder::Utf16(state.copy()),
            AnyDecoder::ShiftJis(state) => AnyDecoder::ShiftJis(state.copy()),
            AnyDecoder::EucJp(state) => AnyDecoder::EucJp(state.copy()),
            AnyDecoder::Iso2022(state) => AnyDecoder::Iso2022(state.copy()),
            AnyDecoder::Single(state) => AnyDecoder::Single(state.copy()),
        }
    }

    /// Decodes a piece into the sink. If the sink refuses, nothing is known of the state afterwards.
    #[tactic(auto, unfolding(enc_model::specs::Decode::decoding), using(crate::proofs::Singles::only_state))]
    pub fn feed<S: Sink>(
        &mut self,
        set: &IndexSet,
        piece: &[u8],
        sink: &mut S,
    ) -> Result<(), S::Refusal>
        ensures given { Given S.takes S.refuses sink.old
            (decoding (tables set.now) false (decoding_of self.old) piece.now).text sink.new result }
        ensures state { OnOk result
            (decoding_of self.new ≡ (decoding (tables set.now) false (decoding_of self.old) piece.now).state) }
    {
        match self {
            AnyDecoder::Utf8(state) => state.feed(piece, sink),
            AnyDecoder::Utf16(state) => state.feed(piece, sink),
            AnyDecoder::ShiftJis(state) => state.feed(set, piece, sink),
            AnyDecoder::EucJp(state) => state.feed(set, piece, sink),
            AnyDecoder::Iso2022(state) => state.feed(set, piece, sink),
            AnyDecoder::Single(state) => state.feed(set, piece, sink),
        }
    }

    /// Decodes the end of the bytes. If the sink refuses, nothing is known of the state afterwards.
    #[tactic(auto, unfolding(enc_model::specs::Decode::decoding))]
    pub fn finish<S: Sink>(&mut self, set: &IndexSet, sink: &mut S) -> Result<(), S::Refusal>
        ensures { Given S.takes S.refuses sink.old (decoding (tables set.now) true (decoding_of self.old) []).text
            sink.new result }
    {
        match self {
            AnyDecoder::Utf8(state) => state.finish(sink),
            AnyDecoder::Utf16(state) => state.finish(sink),
            AnyDecoder::ShiftJis(state) => state.finish(set, sink),
            AnyDecoder::EucJp(state) => state.finish(set, sink),
            AnyDecoder::Iso2022(state) => state.finish(set, sink),
            AnyDecoder::Single(state) => state.finish(set, sink),
        }
    }

    /// The encoding that it decodes.
    pub fn encoding(&self) -> Encoding
        ensures { result ≡ decoded_encoding (decoding_of self.now) }
    {
        match self {
            AnyDecoder::Utf8(_) => Encoding::Utf8,
            AnyDecoder::Utf16(state) => match state.order() {
                Order::Big => Encoding::Utf16Be,
                Order::Little => Encoding::Utf16Le,
            },
            AnyDecoder::ShiftJis(_) => Encoding::ShiftJis,
            AnyDecoder::EucJp(_) => Encoding::EucJp,
            AnyDecoder::Iso2022(_) => Encoding::Iso2022Jp,
            AnyDecoder::Single(state) => state.encoding(),
        }
    }

    /// The state as bytes, without the encoding.
    pub fn pack(&self) -> [u8; 4]
        ensures bytes { result ≡ padded 4 (decoder_bytes (decoding_of self.now)) }
        ensures reached { IsReached (decoding_of self.now) }
    {
        match self {
            AnyDecoder::Utf8(state) => utf8_bytes(state),
            AnyDecoder::Utf16(state) => utf16_bytes(state),
            AnyDecoder::ShiftJis(state) => [state.lead(), 0, 0, 0],
            AnyDecoder::EucJp(state) => euc_jp_bytes(state),
            AnyDecoder::Iso2022(state) => iso2022_bytes(state),
            AnyDecoder::Single(_) => [0; 4],
        }
    }

    /// The decoder with this state. Bytes that no decoder packs may be taken for another state's; `Transcoder::unpack`
    /// compares.
    pub fn unpack(encoding: Encoding, bytes: [u8; 4]) -> Option<Self>
        ensures encoding { IfSome result (λ d. IsOwn (decoding_of d) × (decoded_encoding (decoding_of d) ≡ encoding)) }
        ensures same { (s : Decoding) → IsOwn s → IsReached s → decoded_encoding s ≡ encoding
            → padded 4 (decoder_bytes s) ≡ bytes → MatchOption result ⊥ (λ d. decoding_of d ≡ s) }
    {
        Some(match encoding {
            Encoding::Utf8 => AnyDecoder::Utf8(utf8_at(bytes)?),
            Encoding::Utf16Be => AnyDecoder::Utf16(utf16_at(Order::Big, bytes)?),
            Encoding::Utf16Le => AnyDecoder::Utf16(utf16_at(Order::Little, bytes)?),
            Encoding::ShiftJis => AnyDecoder::ShiftJis(shift_jis_at(bytes[0])?),
            Encoding::EucJp => AnyDecoder::EucJp(euc_jp_at(bytes[0], bytes[1])?),
            Encoding::Iso2022Jp => AnyDecoder::Iso2022(iso2022_at(bytes)?),
            single => AnyDecoder::Single(SingleState::new(single)),
        })
    }
}
