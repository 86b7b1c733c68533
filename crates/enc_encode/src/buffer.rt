//! Bytes that are gathered before they are appended.

ghost use Rattle.std.specs.Prelude.{◌≡◌, ◌<◌, ◌≤◌, ◌+◌, ◌++◌, [], ℕ, OnOk, OnErr, IfSome, length};
ghost use Rattle.std.specs.Prelude.{◌↔◌, IsSomeAnd, IsTrue, slice_get, take, vec_capacity};
ghost use Rattle.enc_encode.specs.Code.{code_bytes};
ghost use Rattle.enc_encode.specs.Growth.{Appended, Stopped};
ghost use Rattle.enc_encode.specs.Held.{Passed};
ghost use Rattle.enc_encode.specs.Letters.{AreLetters};
ghost use Rattle.enc_encode.specs.Runs.{IsCoded, RunPrefix, Stays};
ghost use Rattle.enc_encode.specs.Singles.{AreSingles, FewPointers, IsSingleByte};
ghost use Rattle.enc_encode.specs.State.{shift_of};
ghost use Rattle.enc_model.specs.declared.Mode.TheVariants.{Html};
ghost use Rattle.enc_model.specs.Encode.{encoder, reference};
ghost use Rattle.enc_model.specs.Indexes.{tables};

use crate::append::append;
use crate::letters::Letters;
use crate::pair_runs::put_pairs;
use crate::reference::put_reference;
use crate::reference_runs::put_references;
use crate::shift::ShiftState;
use crate::single_runs::{put_last_ascii, put_run};
use crate::written::Bytes;
use enc_index::{IndexSet, Pointers};
use enc_model::Encoding;
use std::alloc::AllocError;
use std::marker::Model;

/// How many bytes a buffer has room for.
pub const ROOM: usize = 2048;

/// How many bytes are put in at once at most.
pub const LANES: usize = 32;

/// Bytes on their way to a vector.
#[derive(Drop)]
pub struct Buffer {
    bytes: [u8; ROOM],
    len: usize,
}

impl Model for Buffer {
    ghost use Rattle.std.specs.Prelude.{◌≤◌, ℕ, List, take};

    ghost Value = { List ℕ };

    ghost view = { λ b. take b.len b.bytes };

    ghost invariant = { λ b. b.len ≤ 2048 };
}

/// After a round that put the bytes from `from` to `end`: whether another round can put more. Only if ASCII follows,
/// since what isn't ASCII has just been refused.
#[inline(always)]
fn goes_on(from: usize, end: usize, rest: &str) -> bool
    ensures { IsTrue result ↔ (from < end) × IsSomeAnd (slice_get rest.now 0) (λ b. b < 0x80) }
{
    match rest.as_bytes().first() {
        Some(byte) => from < end && *byte < 0x80,
        None => false,
    }
}

impl Buffer {
    /// A buffer without a byte.
    #[inline(always)]
    pub fn new() -> Self
        ensures { result ≡ [] }
    {
        Buffer {
            bytes: [0; ROOM],
            len: 0,
        }
    }

    /// Puts some bytes after the others.
    #[inline(always)]
    fn store<const N: usize>(&mut self, bytes: [u8; N])
        requires { length self.old + N ≤ ROOM }
        ensures { self.new ≡ self.old ++ bytes.entry }
    {
        let end = self.len + N;
        self.bytes[self.len..end].copy_from_slice(&bytes);
        self.len = end;
    }

    /// Puts the bytes of a character after the others.
    #[inline(always)]
    fn push(&mut self, bytes: Bytes)
        requires { length self.old + 5 ≤ ROOM }
        ensures put { self.new ≡ self.old ++ code_bytes bytes }
        ensures few { length self.new ≤ length self.old + 5 }
    {
        match bytes {
            Bytes::Zero => {}
            Bytes::One(bytes) => self.store(bytes),
            Bytes::Two(bytes) => self.store(bytes),
            Bytes::Three(bytes) => self.store(bytes),
            Bytes::Four(bytes) => self.store(bytes),
            Bytes::Five(bytes) => self.store(bytes),
        }
    }

    /// Appends all bytes to a vector, and is empty then; or if memory ends, as many of them as there is memory for.
    pub fn flush(&mut self, out: &mut Vec<u8>) -> Result<(), AllocError>
        ensures ok { OnOk result (Appended out.old self.old out.new × (self.new ≡ [])) }
        ensures err { OnErr result (Stopped out.old self.old out.new) }
        ensures full { OnErr result (vec_capacity out.old ≤ length out.new.items) }
    {
        append(&self.bytes[..self.len], out)?;
        self.len = 0;
        Ok(())
    }

    /// Puts the first so many bytes of some lanes after the others. All lanes are stored, so that nothing depends on
    /// how many.
    #[inline(always)]
    pub fn push_prefix(&mut self, lanes: [u8; LANES], count: usize)
        requires few { count ≤ LANES }
        requires room { length self.old + LANES ≤ ROOM }
        ensures { self.new ≡ self.old ++ take count lanes }
    {
        let end = self.len + LANES;
        self.bytes[self.len..end].copy_from_slice(&lanes);
        self.len += count;
    }

    /// Puts the bytes of a text's start after the others: of ASCII, and of characters of two bytes that a single-byte
    /// encoding has, as far as there is room. Gives the rest of the text. The length is a local of the loop, which a
    /// register can hold.
    #[inline(always)]
    pub fn push_singles<'a>(
        &mut self,
        letters: Letters,
        pointers: &Pointers,
        text: &'a str,
    ) -> &'a str
        requires few { FewPointers pointers.now }
        requires letters { AreLetters pointers.now letters.low letters.byte letters.count }
        ensures { RunPrefix (IsSingleByte pointers.now) text.now result.now self.old self.new }
    {
        let mut len = self.len;
        let mut rest = text;
        while len < ROOM {
            let (after, end) = put_run(&mut self.bytes, len, letters, pointers, rest);
            let stops = !goes_on(len, end, after);
            len = end;
            rest = after;
            if stops {
                break;
            }
        }
        let (left, end) = put_last_ascii(&mut self.bytes, len, rest);
        self.len = end;
        left
    }

    /// Puts the bytes of characters at a text's start after the others: as many as `pair` has one after the other, and
    /// as there is room for. Gives the rest of the text.
    #[inline(always)]
    pub fn push_pairs<'a>(
        &mut self,
        set: &IndexSet,
        to: Encoding,
        shift: ShiftState,
        text: &'a str,
    ) -> &'a str
        ensures { RunPrefix (Stays (encoder (tables set.now) to) (shift_of shift)) text.now result.now self.old
            self.new }
    {
        let (rest, end) = put_pairs(&mut self.bytes, self.len, set, to, shift, text);
        self.len = end;
        rest
    }

    /// Puts the bytes of characters at a text's start after the others: those that a single-byte encoding has, by the
    /// table of its pointers, or else pairs. Gives the rest of the text.
    #[inline(always)]
    pub fn push_run<'a>(
        &mut self,
        to: Encoding,
        set: &IndexSet,
        singles: Option<&Pointers>,
        letters: Letters,
        shift: ShiftState,
        text: &'a str,
    ) -> &'a str
        requires singles { IfSome singles (λ p. AreSingles (encoder (tables set.now) to) p.now) }
        requires few { IfSome singles (λ p. FewPointers p.now) }
        requires letters { IfSome singles (λ p. AreLetters p.now letters.low letters.byte letters.count) }
        ensures { RunPrefix (Stays (encoder (tables set.now) to) (shift_of shift)) text.now result.now self.old
            self.new }
    {
        match singles {
            Some(pointers) => self.push_singles(letters, pointers, text),
            None => self.push_pairs(set, to, shift, text),
        }
    }

    /// Puts the references of characters at a text's start after the others, in html mode: of as many as are
    /// unmappable one after the other, and as there is room for. Gives the rest of the text.
    #[inline(always)]
    fn push_references<'a>(
        &mut self,
        set: &IndexSet,
        to: Encoding,
        shift: ShiftState,
        text: &'a str,
    ) -> &'a str
        ensures { RunPrefix (IsCoded (tables set.now) to Html (shift_of shift)) text.now result.now self.old self.new }
    {
        let (rest, len) = put_references(&mut self.bytes, self.len, set, to, shift, text);
        self.len = len;
        rest
    }

    /// Puts the codes of characters at a text's start after the others, in html mode: references of unmappable ones,
    /// and by turns with them bytes of those that a single-byte encoding has. Gives the rest of the text.
    #[inline(always)]
    fn push_turns<'a>(
        &mut self,
        to: Encoding,
        set: &IndexSet,
        pointers: &Pointers,
        letters: Letters,
        shift: ShiftState,
        text: &'a str,
    ) -> &'a str
        requires singles { AreSingles (encoder (tables set.now) to) pointers.now }
        requires few { FewPointers pointers.now }
        requires letters { AreLetters pointers.now letters.low letters.byte letters.count }
        ensures { RunPrefix (IsCoded (tables set.now) to Html (shift_of shift)) text.now result.now self.old self.new }
    {
        let mut rest = text;
        let mut after = self.push_references(set, to, shift, rest);
        while after.len() < rest.len() {
            rest = self.push_singles(letters, pointers, after);
            after = self.push_references(set, to, shift, rest);
        }
        after
    }

    /// Puts the codes of characters that follow a reference, or bytes that switch in ISO-2022-JP, after the others, in
    /// html mode: references of unmappable ones, and bytes between them in a single-byte encoding. Gives the rest of
    /// the text. Texts that need neither never come here, so it is outside their loop.
    #[inline(never)]
    pub fn push_coded<'a>(
        &mut self,
        to: Encoding,
        set: &IndexSet,
        singles: Option<&Pointers>,
        letters: Letters,
        shift: ShiftState,
        text: &'a str,
    ) -> &'a str
        requires singles { IfSome singles (λ p. AreSingles (encoder (tables set.now) to) p.now) }
        requires few { IfSome singles (λ p. FewPointers p.now) }
        requires letters { IfSome singles (λ p. AreLetters p.now letters.low letters.byte letters.count) }
        ensures { RunPrefix (IsCoded (tables set.now) to Html (shift_of shift)) text.now result.now self.old self.new }
    {
        match singles {
            Some(pointers) => self.push_turns(to, set, pointers, letters, shift, text),
            None => self.push_references(set, to, shift, text),
        }
    }

    /// Sees to room for so many bytes as are put in at once.
    #[inline(always)]
    pub fn make_room(&mut self, out: &mut Vec<u8>) -> Result<(), AllocError>
        ensures room { OnOk result (length self.new + LANES ≤ ROOM) }
        ensures ok { OnOk result (Passed out.old self.old [] out.new self.new) }
        ensures err { OnErr result (Stopped out.old self.old out.new) }
    {
        if ROOM - self.len < LANES {
            return self.flush(out);
        }
        Ok(())
    }

    /// Puts the bytes of a character after the others, after it has seen to room.
    #[inline(always)]
    #[tactic(auto, using(crate::proofs::Helds::held_more))]
    pub fn hold(&mut self, bytes: Bytes, out: &mut Vec<u8>) -> Result<(), AllocError>
        ensures ok { OnOk result (Passed out.old self.old (code_bytes bytes) out.new self.new) }
        ensures err { OnErr result (Stopped out.old self.old out.new) }
    {
        self.make_room(out)?;
        self.push(bytes);
        Ok(())
    }

    /// Puts some bytes and a character's reference after the others, after it has seen to room.
    #[inline(never)]
    pub fn hold_reference(
        &mut self,
        bytes: Bytes,
        c: char,
        out: &mut Vec<u8>,
    ) -> Result<(), AllocError>
        ensures ok { OnOk result (Passed out.old self.old (code_bytes bytes ++ reference c) out.new self.new) }
        ensures err { OnErr result (Stopped out.old self.old out.new) }
    {
        self.make_room(out)?;
        self.push(bytes);
        self.len = put_reference(&mut self.bytes, self.len, c);
        Ok(())
    }
}
