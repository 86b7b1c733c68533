//! A decoder over a piece, by its ASCII and by blocks.

ghost use Rattle.std.specs.Prelude.{◌≡◌, ◌≤◌, length, ◌<◌, false, OnOk, IfOk, IfErr, take};
ghost use Rattle.enc_feed.specs.AsciiPrefix.{IsAsciiPrefix};
ghost use Rattle.enc_model.specs.Stream.{steps};
ghost use Rattle.enc_model.specs.Sink.{Given};

use crate::Sink;
use crate::batch::{BLOCK, Batch};
use crate::decoder::BlockDecoder;

/// An ASCII prefix of at least this many bytes goes to the sink as it is.
const LONG_PREFIX: usize = 64;

/// The most bytes of an ASCII prefix that go to the sink at once: few enough to be still in the L1 cache when the sink
/// copies them.
const PREFIX_STEP: usize = 4096;

/// The length of an ASCII prefix that decodes to itself, at most `PREFIX_STEP`.
#[inline(always)]
fn next_prefix<D: BlockDecoder>(state: &D, tables: &D::Tables, rest: &[u8]) -> usize
    ensures { IsAsciiPrefix (D.handler tables.now) state.now rest.now result }
{
    let end = PREFIX_STEP.min(rest.len());
    state.prefix(tables, &rest[..end])
}

/// Decodes the next part of a piece: a long ASCII prefix, or a block. Returns its length.
fn advance<D: BlockDecoder, S: Sink>(
    state: &mut D,
    tables: &D::Tables,
    rest: &[u8],
    batch: &mut Batch,
    sink: &mut S,
) -> Result<usize, S::Refusal>
    requires { 0 < length rest.now }
    ensures some { IfOk result (λ n. (0 < n) × (n ≤ length rest.now)) }
    ensures taken { IfOk result
        (λ n. S.takes sink.old (steps (D.handler tables.now) false state.old (take n rest.now)).text sink.new) }
    ensures refused { IfErr result
        (λ e. S.refuses sink.old (steps (D.handler tables.now) false state.old rest.now).text e sink.new) }
    ensures state { IfOk result
        (λ n. state.new ≡ (steps (D.handler tables.now) false state.old (take n rest.now)).state) }
{
    let prefix = next_prefix(state, tables, rest);
    if LONG_PREFIX <= prefix {
        sink.ascii(&rest[..prefix])?;
        return Ok(prefix);
    }
    let end = BLOCK.min(rest.len());
    batch.clear();
    state.decode_block(tables, &rest[..end], batch);
    sink.text(batch.as_str())?;
    Ok(end)
}

/// Decodes a piece by ASCII prefixes and blocks.
fn feed_blocks<D: BlockDecoder, S: Sink>(
    state: &mut D,
    tables: &D::Tables,
    piece: &[u8],
    sink: &mut S,
) -> Result<(), S::Refusal>
    ensures given { Given S.takes S.refuses sink.old (steps (D.handler tables.now) false state.old piece.now).text
        sink.new result }
    ensures state { OnOk result (state.new ≡ (steps (D.handler tables.now) false state.old piece.now).state) }
{
    let mut batch = Batch::new();
    let mut at = 0;
    while at < piece.len() {
        at += advance(state, tables, &piece[at..], &mut batch, sink)?;
    }
    Ok(())
}

/// Gives the sink the long ASCII prefixes of a piece, and a shorter one if it is all that is left. Returns their
/// length.
fn give_prefixes<D: BlockDecoder, S: Sink>(
    state: &D,
    tables: &D::Tables,
    piece: &[u8],
    sink: &mut S,
) -> Result<usize, S::Refusal>
    ensures within { IfOk result (λ n. n ≤ length piece.now) }
    ensures taken { IfOk result
        (λ n. S.takes sink.old (steps (D.handler tables.now) false state.now (take n piece.now)).text sink.new) }
    ensures refused { IfErr result
        (λ e. S.refuses sink.old (steps (D.handler tables.now) false state.now piece.now).text e sink.new) }
    ensures state { IfOk result
        (λ n. state.now ≡ (steps (D.handler tables.now) false state.now (take n piece.now)).state) }
{
    let mut at = 0;
    while at < piece.len() {
        let rest = &piece[at..];
        let prefix = next_prefix(state, tables, rest);
        if prefix < LONG_PREFIX.min(rest.len()) {
            return Ok(at);
        }
        sink.ascii(&rest[..prefix])?;
        at += prefix;
    }
    Ok(at)
}

/// Decodes a piece. A batch is only made if the piece isn't all ASCII.
///
/// # Errors
///
/// The sink's refusal, at once; nothing is known of the state afterwards.
#[tactic(auto, using(crate::proofs::Parts::rest_given, crate::proofs::Parts::rest_state))]
pub fn feed<D: BlockDecoder, S: Sink>(
    state: &mut D,
    tables: &D::Tables,
    piece: &[u8],
    sink: &mut S,
) -> Result<(), S::Refusal>
    ensures given { Given S.takes S.refuses sink.old (steps (D.handler tables.now) false state.old piece.now).text
        sink.new result }
    ensures state { OnOk result (state.new ≡ (steps (D.handler tables.now) false state.old piece.now).state) }
{
    let prefix = give_prefixes(state, tables, piece, sink)?;
    if prefix == piece.len() {
        return Ok(());
    }
    feed_blocks(state, tables, &piece[prefix..], sink)
}
