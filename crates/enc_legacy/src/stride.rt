//! Decoding a block in strides.

ghost use Rattle.std.specs.Prelude.{◌≡◌, ◌≤◌, ◌<◌, ◌+◌, ◌*◌, ◌∷◌, [], ℕ, false, length, take, IfSome, List, Option};
ghost use Rattle.std.specs.Prelude.{All, slice_index};
ghost use Rattle.std.specs.Bool.{OnTrue, OnFalse};
ghost use Rattle.enc_feed.specs.Batches.{BatchTook};
ghost use Rattle.enc_feed.specs.AsciiPrefix.{IsAsciiPrefix};
ghost use Rattle.enc_model.specs.Stream.{steps};

use enc_feed::{Batch, Decoder, LANES, PairReader, ROOM, decode_each};
use enc_model::Utf8Char;

/// A decoder that reads some bytes at once: a run, the bytes of a character, or one byte.
pub trait Strider: Decoder {
    /// Decodes some leading bytes, for which the batch has room. Returns their count.
    fn stride(&mut self, tables: &Self::Tables, rest: &[u8], batch: &mut Batch) -> usize
        requires some { 0 < length rest.now }
        requires room { length batch.old + 12 * length rest.now ≤ ROOM }
        ensures some { 0 < result }
        ensures within { result ≤ length rest.now }
        ensures text { BatchTook batch.old (steps (Self.handler tables.now) false self.old (take result rest.now)).text
            batch.new }
        ensures state { self.new ≡ (steps (Self.handler tables.now) false self.old (take result rest.now)).state };
}

/// A decoder that reads ASCII and two-byte characters at once when it has no lead byte.
pub trait PairDecoder: Decoder + PairReader {
    /// The length of the leading ASCII that decodes to itself.
    fn ascii(&self, tables: &Self::Tables, bytes: &[u8]) -> usize
        ensures { IsAsciiPrefix (Self.handler tables.now) self.now bytes.now result };

    /// The same among the first 32 bytes.
    fn ascii_lanes(&self, tables: &Self::Tables, bytes: &[u8]) -> usize
        requires { LANES ≤ length bytes.now }
        ensures few { result ≤ LANES }
        ensures prefix { IsAsciiPrefix (Self.handler tables.now) self.now bytes.now result };

    /// The characters by their pointers, if they are ready and the state is one in which pairs begin.
    fn ready<'a>(&self, tables: &'a Self::Tables) -> Option<&'a [Option<Utf8Char>]>
        ensures { IfSome result (λ r. (a b c : ℕ) → Self.represent r.now a b c
            → steps (Self.handler tables.now) false self.now (a ∷ b ∷ []) ≡ record {
              text = c ∷ [];
              state = self.now;
            }) };
}

/// Decodes leading pairs while they are ready, and returns how many bytes they are.
#[inline(always)]
#[tactic(auto, using(crate::proofs::Strides::text_begins, crate::proofs::Strides::state_begins))]
fn read_pairs<D: PairDecoder>(
    state: &D,
    tables: &D::Tables,
    rest: &[u8],
    batch: &mut Batch,
) -> usize
    requires { length batch.old + 12 * length rest.now ≤ ROOM }
    ensures within { result ≤ length rest.now }
    ensures text { BatchTook batch.old (steps (D.handler tables.now) false state.now (take result rest.now)).text
        batch.new }
    ensures state { state.now ≡ (steps (D.handler tables.now) false state.now (take result rest.now)).state }
{
    match state.ready(tables) {
        Some(ready) => batch.push_pairs(state, ready, rest),
        None => 0,
    }
}

/// Decodes some of the leading ASCII, and returns its length.
#[inline(always)]
fn read_ascii<D: PairDecoder>(
    state: &D,
    tables: &D::Tables,
    rest: &[u8],
    batch: &mut Batch,
) -> usize
    requires { length batch.old + 12 * length rest.now ≤ ROOM }
    ensures within { result ≤ length rest.now }
    ensures text { BatchTook batch.old (steps (D.handler tables.now) false state.now (take result rest.now)).text
        batch.new }
    ensures state { state.now ≡ (steps (D.handler tables.now) false state.now (take result rest.now)).state }
{
    if rest.len() < LANES {
        let run = state.ascii(tables, rest);
        batch.push_ascii(&rest[..run]);
        return run;
    }
    let run = state.ascii_lanes(tables, rest);
    batch.push_prefix(rest, run);
    run
}

/// Decodes leading ASCII, or leading pairs while they are ready. Returns how many bytes they are.
#[inline(always)]
fn read_ready<D: PairDecoder>(
    state: &D,
    tables: &D::Tables,
    rest: &[u8],
    batch: &mut Batch,
) -> usize
    requires some { 0 < length rest.now }
    requires room { length batch.old + 12 * length rest.now ≤ ROOM }
    ensures within { result ≤ length rest.now }
    ensures text { BatchTook batch.old (steps (D.handler tables.now) false state.now (take result rest.now)).text
        batch.new }
    ensures state { state.now ≡ (steps (D.handler tables.now) false state.now (take result rest.now)).state }
{
    if rest[0] >= 0x80 {
        return read_pairs(state, tables, rest, batch);
    }
    read_ascii(state, tables, rest, batch)
}

/// Decodes leading ASCII, or ready pairs, or else one byte. Returns how many bytes.
#[inline(always)]
#[tactic(auto, using(crate::proofs::Strides::after_nothing))]
pub fn read_run<D: PairDecoder>(
    state: &mut D,
    tables: &D::Tables,
    rest: &[u8],
    batch: &mut Batch,
) -> usize
    requires some { 0 < length rest.now }
    requires room { length batch.old + 12 * length rest.now ≤ ROOM }
    ensures some { 0 < result }
    ensures within { result ≤ length rest.now }
    ensures text { BatchTook batch.old (steps (D.handler tables.now) false state.old (take result rest.now)).text
        batch.new }
    ensures state { state.new ≡ (steps (D.handler tables.now) false state.old (take result rest.now)).state }
{
    let run = read_ready(state, tables, rest, batch);
    if run > 0 {
        return run;
    }
    decode_each(state, tables, &rest[..1], batch);
    1
}

/// Decodes a block, for which the batch has room.
#[inline(always)]
#[tactic(auto, using(crate::proofs::Strides::text_begins, crate::proofs::Strides::state_begins))]
pub fn decode_strides<D: Strider>(
    state: &mut D,
    tables: &D::Tables,
    block: &[u8],
    batch: &mut Batch,
)
    requires { length batch.old + 12 * length block.now ≤ ROOM }
    ensures text { BatchTook batch.old (steps (D.handler tables.now) false state.old block.now).text batch.new }
    ensures state { state.new ≡ (steps (D.handler tables.now) false state.old block.now).state }
{
    let mut at = 0;
    while at < block.len() {
        at += state.stride(tables, &block[at..], batch);
    }
}
