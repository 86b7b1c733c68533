//! An index with its lookup tables.

ghost use Rattle.std.specs.Prelude.{◌≡◌, ℕ, ◌<◌, IfOk, None, length, slice_index, slice_index_or};
ghost use Rattle.enc_model.specs.Index.{Index, code, pointer, pointer_sjis};
ghost use Rattle.enc_index.specs.Entries.{pairs_from, found_pointer, AreAgreed};
ghost use Rattle.enc_index.specs.Bytes.{byte_char};

use crate::pointers::Pointers;
use crate::ready::{ready, ready_bytes};
use crate::usable::Usable;
use enc_model::Utf8Char;
use std::alloc::{AllocError, Global};
use std::marker::Model;

/// An index, with tables for both directions. A lookup takes one step, by pointer or by code point.
#[derive(Drop)]
pub struct IndexTables {
    /// The code point at each pointer.
    codes: Vec<Option<char>>,
    /// The same as UTF-8.
    ready: Vec<Option<Utf8Char>>,
    /// The character of each byte as UTF-8, if this is the index of a single-byte encoding.
    ready_bytes: Vec<Utf8Char>,
    /// The least pointer of each code point.
    pointers: Pointers,
    /// The least pointer of each code point that the Shift_JIS encoder may use.
    sjis_pointers: Pointers,
}

impl Model for IndexTables {
    ghost Value = { Index };

    ghost view = { λ t. pairs_from 0 t.codes.items };

    ghost invariant = { λ t. AreAgreed t.codes.items t.ready.items t.ready_bytes.items t.pointers t.sjis_pointers };
}

impl IndexTables {
    /// The table of these code points, each at its pointer.
    ///
    /// # Errors
    ///
    /// `AllocError` when out of memory.
    pub fn new(alloc: Global, codes: Vec<Option<char>>) -> Result<IndexTables, AllocError>
        requires { length codes.items < 0xFFFF }
        ensures { IfOk result (λ table. table ≡ pairs_from 0 codes.items) }
    {
        let ready = ready(alloc, &codes)?;
        let ready_bytes = ready_bytes(alloc, &codes)?;
        let pointers = Pointers::least(alloc, &codes, Usable::All)?;
        let sjis_pointers = Pointers::least(alloc, &codes, Usable::OfShiftJis)?;
        Ok(IndexTables {
            codes,
            ready,
            ready_bytes,
            pointers,
            sjis_pointers,
        })
    }

    /// The code point at a pointer.
    #[tactic(auto, using(crate::proofs::Lookups::code_entry))]
    #[inline(always)]
    pub fn code(&self, pointer: u32) -> Option<char>
        ensures { result ≡ code self.now pointer }
    {
        match self.codes.get(pointer as usize) {
            Some(entry) => *entry,
            None => None,
        }
    }

    /// The code points as UTF-8, by pointer.
    #[tactic(auto, using(crate::proofs::Lookups::code_entry))]
    #[inline(always)]
    pub fn ready(&self) -> &[Option<Utf8Char>]
        ensures { (p : ℕ) → slice_index_or result.now p None ≡ code self.now p }
    {
        &self.ready
    }

    /// The characters as UTF-8, by byte, if this is the index of a single-byte encoding.
    #[inline(always)]
    pub fn ready_bytes(&self) -> &[Utf8Char]
        ensures long { length result.now ≡ 256 }
        ensures chars { (b : ℕ) → b < 256 → slice_index result.now b ≡ byte_char self.now b }
    {
        &self.ready_bytes
    }

    /// The least pointers by code point.
    #[inline(always)]
    pub fn pointers(&self) -> &Pointers
        ensures { (c : ℕ) → found_pointer result.now c ≡ pointer self.now c }
    {
        &self.pointers
    }

    /// The least pointers by code point outside 8272 to 8835, which the Shift_JIS encoder leaves out.
    #[inline(always)]
    pub fn pointers_sjis(&self) -> &Pointers
        ensures { (c : ℕ) → found_pointer result.now c ≡ pointer_sjis self.now c }
    {
        &self.sjis_pointers
    }

    /// The least pointer of a code point.
    #[inline(always)]
    pub fn pointer(&self, c: char) -> Option<u32>
        ensures { result ≡ pointer self.now c }
    {
        self.pointers.find(c)
    }

    /// The least pointer of a code point outside 8272 to 8835, which the Shift_JIS encoder leaves out.
    #[inline(always)]
    pub fn pointer_sjis(&self, c: char) -> Option<u32>
        ensures { result ≡ pointer_sjis self.now c }
    {
        self.sjis_pointers.find(c)
    }
}
