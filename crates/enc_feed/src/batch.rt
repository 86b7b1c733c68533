//! A buffer for decoded text, so that a sink takes many characters at once.

ghost use Rattle.std.specs.Prelude.{◌≡◌, ◌≤◌, ◌<◌, ◌+◌, ◌*◌, ◌∷◌, [], ℕ, List, All, length, take, true, map};
ghost use Rattle.std.specs.Prelude.{slice_index};
ghost use Rattle.std.specs.Str.{chars, is_utf8};
ghost use Rattle.enc_feed.specs.Batches.{ArePairs, BatchTook, BatchRefused};
ghost use Rattle.enc_feed.specs.BatchLaws.{batch_sink};

use crate::Sink;
use crate::room::{AsciiFinder, LANES, PairReader, ROOM, Room};
use enc_model::Utf8Char;
use std::marker::Model;
use std::str::from_utf8_unchecked;

/// A block's length in bytes. A byte gives at most three characters: one itself, and one for each of the two bytes that
/// it may restore.
pub const BLOCK: usize = 256;

/// Decoded text up to a fixed length, as a sink that refuses what it has no room for.
#[derive(Drop)]
pub struct Batch {
    room: Room,
}

impl Model for Batch {
    ghost use Rattle.std.specs.Prelude.{◌≡◌, ℕ, List, true};
    ghost use Rattle.std.specs.Str.{is_utf8};

    ghost Value = { List ℕ };

    ghost view = { λ b. b.room };

    ghost invariant = { λ b. is_utf8 b.room ≡ true };
}

/// The batch has no room.
#[derive(Clone, Copy, Debug)]
pub struct Full;

impl Batch {
    /// An empty batch.
    #[tactic(auto, using(crate::proofs::Gathered::nothing))]
    pub fn new() -> Self
        ensures { result ≡ [] }
    {
        Batch { room: Room::new() }
    }

    /// Empties the batch.
    #[tactic(auto, using(crate::proofs::Gathered::nothing))]
    pub fn clear(&mut self)
        ensures { self.new ≡ [] }
    {
        self.room.clear();
    }

    /// The text.
    pub fn as_str(&self) -> &str
        ensures { result.now ≡ self.now }
    {
        unsafe { from_utf8_unchecked(self.room.as_slice()) }
    }

    /// How many more bytes of UTF-8 fit into the batch.
    #[inline(always)]
    pub fn left(&self) -> usize
        ensures { result + length self.now ≡ ROOM }
    {
        self.room.left()
    }

    /// Appends a character that is ready in UTF-8.
    #[inline(always)]
    pub fn push_code(&mut self, code: &Utf8Char)
        requires { length self.old + 4 ≤ ROOM }
        ensures { BatchTook self.old (code.now ∷ []) self.new }
    {
        self.room.store(code);
    }

    /// Appends a character.
    #[inline(always)]
    pub fn push(&mut self, c: char)
        requires { length self.old + 4 ≤ ROOM }
        ensures { BatchTook self.old (c ∷ []) self.new }
    {
        self.push_code(&Utf8Char::of(c));
    }

    /// Appends the characters of these bytes. Those below 80 represent themselves.
    #[inline(always)]
    pub fn push_bytes<F: AsciiFinder>(&mut self, prefixes: &F, chars: &[Utf8Char], bytes: &[u8])
        requires long { length chars.now ≡ 256 }
        requires own { (b : ℕ) → b < 128 → slice_index chars.now b ≡ b }
        requires room { length self.old + 4 * length bytes.now ≤ ROOM }
        ensures { BatchTook self.old (map (λ b. slice_index chars.now b) bytes.now) self.new }
    {
        self.room.store_bytes(prefixes, chars, bytes);
    }

    /// Appends the first `prefix` bytes, which are ASCII; 32 are stored at once.
    #[inline(always)]
    pub fn push_prefix(&mut self, bytes: &[u8], prefix: usize)
        requires many { LANES ≤ length bytes.now }
        requires within { prefix ≤ LANES }
        requires ascii { All (λ b. b < 128) (take prefix bytes.now) }
        requires room { length self.old + LANES ≤ ROOM }
        ensures { BatchTook self.old (take prefix bytes.now) self.new }
    {
        self.room.store_prefix(bytes, prefix);
    }

    /// Appends the characters of leading pairs while they are ready, and returns how many bytes they are.
    #[inline(always)]
    pub fn push_pairs<P: PairReader>(
        &mut self,
        reader: &P,
        ready: &[Option<Utf8Char>],
        bytes: &[u8],
    ) -> usize
        requires room { length self.old + 4 * length bytes.now ≤ ROOM }
        ensures within { result ≤ length bytes.now }
        ensures took { (given : List ℕ) × ArePairs (P.represent ready.now) (take result bytes.now) given
            × BatchTook self.old given self.new }
    {
        self.room.store_pairs(reader, ready, bytes)
    }

    /// Appends a text.
    #[inline(always)]
    pub fn push_str(&mut self, run: &str)
        requires { length self.old + length run.now ≤ ROOM }
        ensures { BatchTook self.old (chars run.now) self.new }
    {
        self.room.append(run.as_bytes());
    }

    /// Appends ASCII.
    #[inline(always)]
    #[tactic(auto, using(enc_model::proofs::Utf8Bytes::ascii_utf8, enc_model::proofs::Utf8Bytes::ascii_chars))]
    pub fn push_ascii(&mut self, run: &[u8])
        requires ascii { All (λ b. b < 128) run.now }
        requires room { length self.old + length run.now ≤ ROOM }
        ensures { BatchTook self.old run.now self.new }
    {
        self.push_str(unsafe { from_utf8_unchecked(run) });
    }
}

impl Sink for Batch {
    type Refusal = Full;

    ghost takes = { BatchTook };

    ghost refuses = { BatchRefused };

    #[inline(always)]
    fn put(&mut self, c: char) -> Result<(), Full> {
        if self.left() < 4 {
            return Err(Full);
        }
        self.push(c);
        Ok(())
    }

    fn ascii(&mut self, run: &[u8]) -> Result<(), Full> {
        if self.left() < run.len() {
            return Err(Full);
        }
        self.push_ascii(run);
        Ok(())
    }

    #[tactic(auto, using(crate::proofs::Gathered::chars_size))]
    fn text(&mut self, run: &str) -> Result<(), Full> {
        if self.left() < run.len() {
            return Err(Full);
        }
        self.push_str(run);
        Ok(())
    }

    ghost is_sink = { batch_sink };
}
