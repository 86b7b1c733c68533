//! Decoding over pieces, which begins with BOM sniffing.

ghost use Rattle.std.specs.Prelude.{◌≡◌, ◌++◌, ◌↔◌, IfOk, IsTrue, false};
ghost use Rattle.enc_model.specs.Decode.{decoding, decoding_start};
ghost use Rattle.enc_model.specs.Indexes.{tables};
ghost use Rattle.enc_model.specs.Sink.{Given};
ghost use Rattle.enc_model.specs.Transcode.{Before, fed_text, fed_end};
ghost use Rattle.enc_stream.specs.AnyDecoder.{decoding_of};
ghost use Rattle.enc_stream.specs.Sniff.{held_bytes, Sniffs};
ghost use Rattle.enc_stream.specs.Stage.{phase_at, is_done_at, is_spent_at};
ghost use Rattle.enc_stream.specs.StateBytes.{IsInEffect};

use crate::decoder::AnyDecoder;
use crate::numbers::{encoding_at, number_of_encoding};
use crate::progress::Progress;
use crate::sniff::{Held, Sniffed, bytes_of, held_at, held_packed, sniff};
use enc_feed::Sink;
use enc_index::IndexSet;
use enc_model::Encoding;

/// The stage of a transcoder.
#[derive(Drop)]
pub enum Stage {
    /// A BOM may still come.
    Before(Held),
    /// The encoding in effect is known.
    During(AnyDecoder),
    /// The end was decoded.
    Over,
    /// A call was refused.
    Spent,
}

impl Stage {
    ghost use Rattle.std.specs.Prelude.{◌≡◌, false, IfSome, MatchOption};
    ghost use Rattle.enc_model.specs.Transcode.{Phase};
    ghost use Rattle.enc_stream.specs.Stage.{phase_at, is_spent_at};
    ghost use Rattle.enc_stream.specs.Progress.{progress_of};
    ghost use Rattle.enc_stream.specs.StateBytes.{IsPhaseOf, IsReachedIn, phase_number, phase_bytes, padded};

    /// A copy of the stage.
    pub fn copy(&self) -> Self
        ensures phase { phase_at result ≡ phase_at self.now }
        ensures spent { is_spent_at result ≡ is_spent_at self.now }
    {
        match self {
            Stage::Before(held) => Stage::Before(*held),
            Stage::During(decoder) => Stage::During(decoder.copy()),
            Stage::Over => Stage::Over,
            Stage::Spent => Stage::Spent,
        }
    }

    /// How far it has come.
    pub fn progress(&self) -> Progress
        ensures { result ≡ progress_of (phase_at self.now) }
    {
        match self {
            Stage::Before(held) => Progress::Holding(bytes_of(*held).len()),
            Stage::During(_) => Progress::Decoding,
            Stage::Over | Stage::Spent => Progress::Ended,
        }
    }

    /// The number of its phase.
    pub fn phase(&self) -> u8
        ensures { result ≡ phase_number (phase_at self.now) }
    {
        match self {
            Stage::Before(_) => 0,
            Stage::During(_) => 1,
            Stage::Over | Stage::Spent => 2,
        }
    }

    /// The state of the stage as bytes.
    pub fn pack(&self) -> [u8; 5]
        ensures bytes { result ≡ padded 5 (phase_bytes (phase_at self.now)) }
        ensures reached { IsReachedIn (phase_at self.now) }
    {
        match self {
            Stage::Before(held) => held_packed(*held),
            Stage::During(decoder) => {
                let [first, second, third, fourth] = decoder.pack();
                let encoding = number_of_encoding(decoder.encoding());
                [encoding, first, second, third, fourth]
            }
            Stage::Over | Stage::Spent => [0; 5],
        }
    }

    /// The stage of this phase with this state. Bytes that no stage packs may be taken for another's;
    /// `Transcoder::unpack` compares.
    pub fn unpack(from: Encoding, phase: u8, partial: [u8; 5]) -> Option<Self>
        ensures fits { IfSome result (λ stage. IsPhaseOf from (phase_at stage) × (is_spent_at stage ≡ false)) }
        ensures same { (p : Phase) → IsPhaseOf from p → IsReachedIn p → phase_number p ≡ phase
            → padded 5 (phase_bytes p) ≡ partial
            → MatchOption result ⊥ (λ stage. phase_at stage ≡ p) }
    {
        let [first, second, third, fourth, fifth] = partial;
        match phase {
            0 => Some(Stage::Before(held_at(first, second, third)?)),
            1 => {
                let encoding = encoding_at(first)?;
                if !is_in_effect(from, encoding) {
                    return None;
                }
                let decoder = AnyDecoder::unpack(encoding, [second, third, fourth, fifth])?;
                Some(Stage::During(decoder))
            }
            2 => Some(Stage::Over),
            _ => None,
        }
    }
}

/// Whether this may be the encoding in effect: the one of the label, or the one of a BOM.
fn is_in_effect(from: Encoding, encoding: Encoding) -> bool
    ensures { IsTrue result ↔ IsInEffect from encoding }
{
    encoding == from
        || matches!(
            encoding,
            Encoding::Utf8 | Encoding::Utf16Be | Encoding::Utf16Le
        )
}

/// Decodes the first piece after a BOM.
fn begin<S: Sink>(
    encoding: Encoding,
    set: &IndexSet,
    piece: &[u8],
    sink: &mut S,
) -> Result<AnyDecoder, S::Refusal>
    ensures given { Given S.takes S.refuses sink.old
        (decoding (tables set.now) false (decoding_start encoding) piece.now).text sink.new result }
    ensures state { IfOk result
        (λ d. decoding_of d ≡ (decoding (tables set.now) false (decoding_start encoding) piece.now).state) }
{
    let mut decoder = AnyDecoder::new(encoding);
    decoder.feed(set, piece, sink)?;
    Ok(decoder)
}

/// Decodes held bytes that aren't a BOM, and the piece after them.
fn begin_plain<S: Sink>(
    from: Encoding,
    held: Held,
    set: &IndexSet,
    piece: &[u8],
    sink: &mut S,
) -> Result<AnyDecoder, S::Refusal>
    ensures given { Given S.takes S.refuses sink.old
        (decoding (tables set.now) false (decoding_start from) (held_bytes held ++ piece.now)).text sink.new result }
    ensures state { IfOk result
        (λ d. decoding_of d ≡ (decoding (tables set.now) false (decoding_start from)
        (held_bytes held ++ piece.now)).state) }
{
    let mut decoder = begin(from, set, bytes_of(held), sink)?;
    decoder.feed(set, piece, sink)?;
    Ok(decoder)
}

/// Sniffs a piece after held bytes, and decodes it once the encoding is known.
fn decide<S: Sink>(
    from: Encoding,
    held: Held,
    set: &IndexSet,
    piece: &[u8],
    sink: &mut S,
) -> Result<Stage, S::Refusal>
    ensures given { Given S.takes S.refuses sink.old
        (fed_text (tables set.now) from (Before (held_bytes held)) piece.now).text sink.new result }
    ensures phase { IfOk result
        (λ stage. (phase_at stage ≡ (fed_text (tables set.now) from (Before (held_bytes held)) piece.now).phase) ×
        (is_spent_at stage ≡ false)) }
{
    match sniff(held, piece) {
        Sniffed::Still(next) => Ok(Stage::Before(next)),
        Sniffed::Bom(encoding, skip) => {
            let decoder = begin(encoding, set, &piece[skip..], sink)?;
            Ok(Stage::During(decoder))
        }
        Sniffed::Plain => {
            let decoder = begin_plain(from, held, set, piece, sink)?;
            Ok(Stage::During(decoder))
        }
    }
}

/// Decodes a piece. The stage is neither `Over` nor `Spent`.
#[tactic(auto, unfolding(enc_model::specs::Transcode::fed_text))]
pub fn go_on<S: Sink>(
    stage: Stage,
    from: Encoding,
    set: &IndexSet,
    piece: &[u8],
    sink: &mut S,
) -> Result<Stage, S::Refusal>
    requires { is_done_at stage ≡ false }
    ensures given { Given S.takes S.refuses sink.old (fed_text (tables set.now) from (phase_at stage) piece.now).text
        sink.new result }
    ensures phase { IfOk result
        (λ next. (phase_at next ≡ (fed_text (tables set.now) from (phase_at stage) piece.now).phase) × (is_spent_at
        next ≡ false)) }
{
    match stage {
        Stage::Before(held) => decide(from, held, set, piece, sink),
        Stage::During(mut decoder) => {
            decoder.feed(set, piece, sink)?;
            Ok(Stage::During(decoder))
        }
        Stage::Over | Stage::Spent => unreachable!(),
    }
}

/// Decodes held bytes as the whole input, and the end.
fn conclude_held<S: Sink>(
    from: Encoding,
    held: Held,
    set: &IndexSet,
    sink: &mut S,
) -> Result<(), S::Refusal>
    ensures { Given S.takes S.refuses sink.old (fed_end (tables set.now) from (Before (held_bytes held))) sink.new
        result }
{
    let mut decoder = begin(from, set, bytes_of(held), sink)?;
    decoder.finish(set, sink)
}

/// Decodes the end. The stage is neither `Over` nor `Spent`.
#[tactic(auto, unfolding(enc_model::specs::Transcode::fed_end))]
pub fn conclude<S: Sink>(
    stage: Stage,
    from: Encoding,
    set: &IndexSet,
    sink: &mut S,
) -> Result<(), S::Refusal>
    requires { is_done_at stage ≡ false }
    ensures { Given S.takes S.refuses sink.old (fed_end (tables set.now) from (phase_at stage)) sink.new result }
{
    match stage {
        Stage::Before(held) => conclude_held(from, held, set, sink),
        Stage::During(mut decoder) => decoder.finish(set, sink),
        Stage::Over | Stage::Spent => unreachable!(),
    }
}
