//! Encoding what is decoded.

ghost use Rattle.std.specs.Prelude.{◌≡◌, ◌<◌, ◌≤◌, false, OnOk, IfOk, IfErr, vec_capacity};
ghost use Rattle.enc_encode.specs.State.{shifted, code_from};
ghost use Rattle.enc_model.specs.Encode.{InAscii, ended_coded};
ghost use Rattle.enc_model.specs.Indexes.{tables};
ghost use Rattle.enc_model.specs.Transcode.{fed_text, fed_end};
ghost use Rattle.enc_stream.specs.Stage.{phase_at, is_done_at, is_spent_at};
ghost use Rattle.enc_stream.specs.TranscoderState.{IsPartWritten, IsAllWritten};

use crate::error::TranscodeError;
use crate::stage::{Stage, conclude, go_on};
use enc_encode::{Encoder, EncoderSink};
use enc_index::IndexSet;
use enc_model::Encoding;
use std::mem;

/// Decodes a piece and appends its encoded text. The stage is neither `Over` nor `Spent`. Returns the next stage and
/// the encoder.
#[tactic(auto, using(crate::proofs::Refusals::sink_wrote))]
pub fn transcode(
    stage: Stage,
    from: Encoding,
    encoder: Encoder,
    set: &IndexSet,
    piece: &[u8],
    out: &mut Vec<u8>,
) -> Result<(Stage, Encoder), TranscodeError>
    requires { is_done_at stage ≡ false }
    ensures written { let code = code_from (tables set.now) encoder
        (fed_text (tables set.now) from (phase_at stage) piece.now).text in
        IfOk result (λ next. IsAllWritten code out.old out.new × (next.1 ≡ shifted encoder code.state)) }
    ensures phase { IfOk result
        (λ next. (phase_at next.0 ≡ (fed_text (tables set.now) from (phase_at stage) piece.now).phase) × (is_spent_at
        next.0 ≡ false)) }
    ensures stopped { IfErr result
        (λ e. IsPartWritten e (code_from (tables set.now) encoder
        (fed_text (tables set.now) from (phase_at stage) piece.now).text) out.old out.new) }
{
    let alloc = *out.allocator();
    let bytes = mem::replace(out, Vec::new(alloc));
    let mut sink = EncoderSink::new(encoder, set, bytes);
    let outcome = go_on(stage, from, set, piece, &mut sink);
    let (encoder, bytes) = sink.into_parts();
    *out = bytes;
    Ok((outcome?, encoder))
}

/// Decodes the end and appends its encoded text, without the encoder's final bytes. Returns the encoder.
#[tactic(auto, using(crate::proofs::Refusals::sink_wrote))]
fn transcode_end(
    stage: Stage,
    from: Encoding,
    encoder: Encoder,
    set: &IndexSet,
    out: &mut Vec<u8>,
) -> Result<Encoder, TranscodeError>
    requires { is_done_at stage ≡ false }
    ensures written { let code = code_from (tables set.now) encoder (fed_end (tables set.now) from (phase_at stage)) in
        IfOk result (λ next. IsAllWritten code out.old out.new × (next ≡ shifted encoder code.state)) }
    ensures capacity { OnOk result (vec_capacity out.old ≤ vec_capacity out.new) }
    ensures stopped { IfErr result
        (λ e. IsPartWritten e (code_from (tables set.now) encoder (fed_end (tables set.now) from (phase_at stage)))
        out.old
        out.new) }
{
    let alloc = *out.allocator();
    let bytes = mem::replace(out, Vec::new(alloc));
    let mut sink = EncoderSink::new(encoder, set, bytes);
    let outcome = conclude(stage, from, set, &mut sink);
    let (encoder, bytes) = sink.into_parts();
    *out = bytes;
    outcome?;
    Ok(encoder)
}

/// Decodes the end, and appends its encoded text and the encoder's final bytes. Returns the encoder.
#[tactic(auto, using(crate::proofs::Ends::end_written, crate::proofs::Ends::stopped_before))]
pub fn write_end(
    stage: Stage,
    from: Encoding,
    encoder: Encoder,
    set: &IndexSet,
    out: &mut Vec<u8>,
) -> Result<Encoder, TranscodeError>
    requires { is_done_at stage ≡ false }
    ensures written { let code = ended_coded
        (code_from (tables set.now) encoder (fed_end (tables set.now) from (phase_at stage))) in
        IfOk result (λ next. IsAllWritten code out.old out.new × (next ≡ shifted encoder InAscii)) }
    ensures stopped { IfErr result
        (λ e. IsPartWritten e (ended_coded
        (code_from (tables set.now) encoder (fed_end (tables set.now) from (phase_at stage)))) out.old out.new) }
{
    let mut encoder = transcode_end(stage, from, encoder, set, out)?;
    encoder.finish(out)?;
    Ok(encoder)
}
