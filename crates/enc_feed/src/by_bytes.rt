//! A decoder's handler over a piece, byte by byte.

ghost use Rattle.std.specs.Prelude.{◌≡◌, ◌≤◌, length, [], ◌∷◌, true, false, OnOk, ◌+◌, ◌*◌};
ghost use Rattle.enc_feed.specs.Batches.{BatchTook};
ghost use Rattle.enc_model.specs.Stream.{restored_bytes, points_of, steps, quick, all_bytes, end_to};
ghost use Rattle.enc_model.specs.Sink.{Given};

use crate::Sink;
use crate::batch::Batch;
use crate::decoder::Decoder;
use crate::room::ROOM;
use enc_model::{Answer, Restored};

/// Gives the sink the character of an answer; an error gives U+FFFD.
#[inline(always)]
fn emit<S: Sink>(answer: Answer, sink: &mut S) -> Result<(), S::Refusal>
    ensures { Given S.takes S.refuses sink.old (points_of answer) sink.new result }
{
    match answer {
        Answer::Point(c) => sink.put(c),
        Answer::Error => sink.put('\u{FFFD}'),
        Answer::Nothing | Answer::Finished => Ok(()),
    }
}

/// Reads a restored byte, which restores nothing itself.
#[cold]
fn again<D: Decoder, S: Sink>(
    state: &mut D,
    tables: &D::Tables,
    byte: u8,
    sink: &mut S,
) -> Result<(), S::Refusal>
    ensures given { Given S.takes S.refuses sink.old (quick (D.handler tables.now) state.old byte).text sink.new
        result }
    ensures state { OnOk result (state.new ≡ (quick (D.handler tables.now) state.old byte).state) }
{
    let (answer, _restored) = state.read(tables, Some(byte));
    emit(answer, sink)
}

/// Reads the restored bytes.
#[inline(always)]
fn reread<D: Decoder, S: Sink>(
    state: &mut D,
    tables: &D::Tables,
    restored: Restored,
    sink: &mut S,
) -> Result<(), S::Refusal>
    ensures given { Given S.takes S.refuses sink.old
        (all_bytes (quick (D.handler tables.now)) state.old (restored_bytes restored)).text sink.new result }
    ensures state { OnOk result
        (state.new ≡ (all_bytes (quick (D.handler tables.now)) state.old (restored_bytes restored)).state) }
{
    match restored {
        Restored::Zero => Ok(()),
        Restored::One(first) => again(state, tables, first, sink),
        Restored::Two(first, second) => {
            again(state, tables, first, sink)?;
            again(state, tables, second, sink)
        }
    }
}

/// Reads a byte, and then the bytes that it restores.
#[inline(always)]
fn step<D: Decoder, S: Sink>(
    state: &mut D,
    tables: &D::Tables,
    byte: u8,
    sink: &mut S,
) -> Result<(), S::Refusal>
    ensures given { Given S.takes S.refuses sink.old (steps (D.handler tables.now) false state.old (byte ∷ [])).text
        sink.new result }
    ensures state { OnOk result (state.new ≡ (steps (D.handler tables.now) false state.old (byte ∷ [])).state) }
{
    let (answer, restored) = state.read(tables, Some(byte));
    emit(answer, sink)?;
    reread(state, tables, restored, sink)
}

/// Decodes a piece, one character at a time.
///
/// # Errors
///
/// The sink's refusal, at once; nothing is known of the state afterwards.
pub fn feed_each<D: Decoder, S: Sink>(
    state: &mut D,
    tables: &D::Tables,
    piece: &[u8],
    sink: &mut S,
) -> Result<(), S::Refusal>
    ensures given { Given S.takes S.refuses sink.old (steps (D.handler tables.now) false state.old piece.now).text
        sink.new result }
    ensures state { OnOk result (state.new ≡ (steps (D.handler tables.now) false state.old piece.now).state) }
{
    for byte in piece {
        step(state, tables, *byte, sink)?;
    }
    Ok(())
}

/// Decodes bytes into a batch that has room for them, one character at a time.
#[inline(always)]
pub fn decode_each<D: Decoder>(state: &mut D, tables: &D::Tables, bytes: &[u8], batch: &mut Batch)
    requires { length batch.old + 12 * length bytes.now ≤ ROOM }
    ensures text { BatchTook batch.old (steps (D.handler tables.now) false state.old bytes.now).text batch.new }
    ensures state { state.new ≡ (steps (D.handler tables.now) false state.old bytes.now).state }
{
    match feed_each(state, tables, bytes, batch) {
        Ok(()) => {}
        Err(_) => unreachable!(),
    }
}

/// Decodes the end, with at most `calls` answers before it is finished.
fn finish_within<D: Decoder, S: Sink>(
    state: &mut D,
    tables: &D::Tables,
    calls: u8,
    sink: &mut S,
) -> Result<(), S::Refusal>
    ensures given { Given S.takes S.refuses sink.old (end_to calls (D.handler tables.now) state.old).text sink.new
        result }
    ensures state { OnOk result (state.new ≡ (end_to calls (D.handler tables.now) state.old).state) }
{
    if calls == 0 {
        return Ok(());
    }
    let (answer, restored) = state.read(tables, None);
    if let Answer::Finished = answer {
        return Ok(());
    }
    emit(answer, sink)?;
    reread(state, tables, restored, sink)?;
    finish_within(state, tables, calls - 1, sink)
}

/// Decodes the end.
///
/// # Errors
///
/// The sink's refusal, at once; nothing is known of the state afterwards.
pub fn finish<D: Decoder, S: Sink>(
    state: &mut D,
    tables: &D::Tables,
    sink: &mut S,
) -> Result<(), S::Refusal>
    ensures given { Given S.takes S.refuses sink.old (steps (D.handler tables.now) true state.old []).text sink.new
        result }
    ensures state { OnOk result (state.new ≡ (steps (D.handler tables.now) true state.old []).state) }
{
    finish_within(state, tables, 4, sink)
}
