//! Room for a batch's text, of a fixed size.

ghost use Rattle.std.specs.Prelude.{◌≡◌, ◌≤◌, ◌<◌, ◌+◌, ◌*◌, ◌++◌, [], ℕ, List, All, length, take, true, map};
ghost use Rattle.std.specs.Prelude.{slice_index, encode_utf8, Option, IfSome};
ghost use Rattle.std.specs.Char.{IsScalar};
ghost use Rattle.std.specs.Str.{chars, is_utf8};
ghost use Rattle.enc_feed.specs.Batches.{ArePairs, BatchTook};

use enc_model::Utf8Char;
use std::marker::Model;

/// The bytes of UTF-8 that a batch has room for: 12 for each byte of a block.
pub const ROOM: usize = 3072;

/// How many bytes are compared and stored at once while they are ASCII.
pub const LANES: usize = 32;

/// A finder of ASCII prefixes.
pub trait AsciiFinder {
    /// The length of the ASCII prefix of the first 32 bytes. None if so few are ASCII that a lookup of each byte is
    /// faster.
    fn prefix(&self, bytes: &[u8]) -> Option<usize>
        requires { LANES ≤ length bytes.now }
        ensures within { IfSome result (λ n. n ≤ LANES) }
        ensures ascii { IfSome result (λ n. All (λ b. b < 128) (take n bytes.now)) };
}

/// A reader of double-byte characters.
pub trait PairReader {
    // These two bytes represent this character, by the characters that are ready for pointers.
    ghost represent: { List (Option ℕ) → ℕ → ℕ → ℕ → Type 0 };

    /// The character of two bytes, if it is ready.
    fn ready_pair<'a>(
        &self,
        ready: &'a [Option<Utf8Char>],
        first: u8,
        second: u8,
    ) -> Option<&'a Utf8Char>
        ensures { IfSome result (λ c. represent ready.now first second c.now) };
}

/// Bytes, up to a fixed count.
#[derive(Drop)]
pub struct Room {
    bytes: [u8; ROOM],
    len: usize,
}

impl Model for Room {
    ghost use Rattle.std.specs.Prelude.{◌≤◌, ℕ, List, take};

    ghost Value = { List ℕ };

    ghost view = { λ r. take r.len r.bytes };

    ghost invariant = { λ r. r.len ≤ 3072 };
}

/// Stores a character at `len`, and returns the length after it. Four bytes are written whatever the character's
/// length, which saves a branch.
#[inline(always)]
fn store_code(bytes: &mut [u8; ROOM], len: usize, code: &Utf8Char) -> usize
    requires { len + 4 ≤ ROOM }
    ensures code { take result bytes.new ≡ take len bytes.old ++ encode_utf8 code.now }
    ensures scalar { IsScalar code.now }
    ensures few { result ≤ len + 4 }
{
    let (code, count) = code.parts();
    let end = len + 4;
    bytes[len..end].copy_from_slice(&code);
    len + count as usize
}

/// Stores the character of each byte from `from` on, and returns the length after them.
#[inline(always)]
fn store_each(room: &mut [u8; ROOM], from: usize, chars: &[Utf8Char], bytes: &[u8]) -> usize
    requires text { is_utf8 (take from room.old) ≡ true }
    requires long { length chars.now ≡ 256 }
    requires room { from + 4 * length bytes.now ≤ ROOM }
    ensures took { BatchTook (take from room.old) (map (λ b. slice_index chars.now b) bytes.now)
        (take result room.new) }
    ensures text { is_utf8 (take result room.new) ≡ true }
    ensures few { result ≤ from + 4 * length bytes.now }
{
    let mut len = from;
    for byte in bytes {
        len = store_code(room, len, &chars[*byte as usize]);
    }
    len
}

/// Stores bytes at `from`.
#[inline(always)]
fn store_part(room: &mut [u8; ROOM], from: usize, part: &[u8])
    requires { from + length part.now ≤ ROOM }
    ensures { take (from + length part.now) room.new ≡ take from room.old ++ part.now }
{
    let end = from + part.len();
    room[from..end].copy_from_slice(part);
}

/// Stores the ASCII prefix of the bytes at `from`, and returns the length after it. 32 bytes are written; only the
/// prefix counts.
#[inline(always)]
fn store_prefix(room: &mut [u8; ROOM], from: usize, bytes: &[u8], prefix: usize) -> usize
    requires text { is_utf8 (take from room.old) ≡ true }
    requires many { LANES ≤ length bytes.now }
    requires within { prefix ≤ LANES }
    requires ascii { All (λ b. b < 128) (take prefix bytes.now) }
    requires room { from + LANES ≤ ROOM }
    ensures took { BatchTook (take from room.old) (take prefix bytes.now) (take result room.new) }
    ensures text { is_utf8 (take result room.new) ≡ true }
    ensures end { result ≡ from + prefix }
{
    store_part(room, from, &bytes[..LANES]);
    from + prefix
}

/// Stores the characters of some bytes at `from`: an ASCII prefix and the byte after it, or 32 bytes one by one.
/// Returns how many bytes it took, and the length after them.
#[inline(always)]
fn store_some<F: AsciiFinder>(
    room: &mut [u8; ROOM],
    from: usize,
    prefixes: &F,
    chars: &[Utf8Char],
    bytes: &[u8],
) -> (usize, usize)
    requires text { is_utf8 (take from room.old) ≡ true }
    requires long { length chars.now ≡ 256 }
    requires own { (b : ℕ) → b < 128 → slice_index chars.now b ≡ b }
    requires many { LANES ≤ length bytes.now }
    requires room { from + 4 * length bytes.now ≤ ROOM }
    ensures some { 0 < result.0 }
    ensures within { result.0 ≤ length bytes.now }
    ensures took { BatchTook (take from room.old) (map (λ b. slice_index chars.now b) (take result.0 bytes.now))
        (take result.1 room.new) }
    ensures text { is_utf8 (take result.1 room.new) ≡ true }
    ensures few { result.1 ≤ from + 4 * result.0 }
{
    let Some(prefix) = prefixes.prefix(bytes) else {
        return (LANES, store_each(room, from, chars, &bytes[..LANES]));
    };
    let end = store_prefix(room, from, bytes, prefix);
    if prefix == LANES {
        return (LANES, end);
    }
    (
        prefix + 1,
        store_code(room, end, &chars[bytes[prefix] as usize]),
    )
}

impl Room {
    /// No bytes.
    pub fn new() -> Self
        ensures { result ≡ [] }
    {
        Room {
            bytes: [0; ROOM],
            len: 0,
        }
    }

    /// How many bytes still fit.
    pub fn left(&self) -> usize
        ensures { result + length self.now ≡ ROOM }
    {
        ROOM - self.len
    }

    /// Stores a character.
    #[inline(always)]
    pub fn store(&mut self, code: &Utf8Char)
        requires { length self.old + 4 ≤ ROOM }
        ensures code { self.new ≡ self.old ++ encode_utf8 code.now }
        ensures scalar { IsScalar code.now }
    {
        self.len = store_code(&mut self.bytes, self.len, code);
    }

    /// Stores the characters of the bytes. Here and in `store_pairs` the length is a local variable of the loop, so
    /// that it stays in a register.
    #[inline(always)]
    pub fn store_bytes<F: AsciiFinder>(&mut self, prefixes: &F, chars: &[Utf8Char], bytes: &[u8])
        requires text { is_utf8 self.old ≡ true }
        requires long { length chars.now ≡ 256 }
        requires own { (b : ℕ) → b < 128 → slice_index chars.now b ≡ b }
        requires room { length self.old + 4 * length bytes.now ≤ ROOM }
        ensures took { BatchTook self.old (map (λ b. slice_index chars.now b) bytes.now) self.new }
        ensures text { is_utf8 self.new ≡ true }
    {
        let mut len = self.len;
        let mut at = 0;
        while bytes.len() - at >= LANES {
            let (count, end) = store_some(&mut self.bytes, len, prefixes, chars, &bytes[at..]);
            len = end;
            at += count;
        }
        self.len = store_each(&mut self.bytes, len, chars, &bytes[at..]);
    }

    /// Stores the characters of leading pairs while they are ready, and returns how many bytes they are.
    #[inline(always)]
    pub fn store_pairs<P: PairReader>(
        &mut self,
        reader: &P,
        ready: &[Option<Utf8Char>],
        bytes: &[u8],
    ) -> usize
        requires text { is_utf8 self.old ≡ true }
        requires room { length self.old + 4 * length bytes.now ≤ ROOM }
        ensures within { result ≤ length bytes.now }
        ensures took { (given : List ℕ) × ArePairs (P.represent ready.now) (take result bytes.now) given
            × BatchTook self.old given self.new }
        ensures text { is_utf8 self.new ≡ true }
    {
        let mut len = self.len;
        let mut at = 0;
        while bytes.len() - at >= 2 {
            let Some(code) = reader.ready_pair(ready, bytes[at], bytes[at + 1]) else {
                break;
            };
            len = store_code(&mut self.bytes, len, code);
            at += 2;
        }
        self.len = len;
        at
    }

    /// Stores the first `prefix` bytes, which are ASCII.
    #[inline(always)]
    pub fn store_prefix(&mut self, bytes: &[u8], prefix: usize)
        requires text { is_utf8 self.old ≡ true }
        requires many { LANES ≤ length bytes.now }
        requires within { prefix ≤ LANES }
        requires ascii { All (λ b. b < 128) (take prefix bytes.now) }
        requires room { length self.old + LANES ≤ ROOM }
        ensures took { BatchTook self.old (take prefix bytes.now) self.new }
        ensures text { is_utf8 self.new ≡ true }
    {
        self.len = store_prefix(&mut self.bytes, self.len, bytes, prefix);
    }

    /// Stores bytes after the others.
    pub fn append(&mut self, run: &[u8])
        requires { length self.old + length run.now ≤ ROOM }
        ensures { self.new ≡ self.old ++ run.now }
    {
        store_part(&mut self.bytes, self.len, run);
        self.len += run.len();
    }

    /// Forgets all bytes.
    pub fn clear(&mut self)
        ensures { self.new ≡ [] }
    {
        self.len = 0;
    }

    /// The stored bytes.
    pub fn as_slice(&self) -> &[u8]
        ensures { result.now ≡ self.now }
    {
        &self.bytes[..self.len]
    }
}
