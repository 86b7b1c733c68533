//! The set of index files that an operator gave.

ghost use Rattle.std.specs.Prelude.{◌≡◌, ◌<◌, ℕ, Option, None, IfOk, IfSome, MatchOption, option_copied, length};
ghost use Rattle.std.specs.Prelude.{slice_index, slice_index_or};
ghost use Rattle.enc_model.specs.Index.{code, pointer, pointer_sjis};
ghost use Rattle.enc_model.specs.Indexes.{no_indexes, tables, offers, single_byte_place, single_of};
ghost use Rattle.enc_index.specs.Files.{pointers_of};
ghost use Rattle.enc_index.specs.Kinds.{table_of, index_of, with_index};
ghost use Rattle.enc_index.specs.Sets.{IsIndexSet};
ghost use Rattle.enc_index.specs.Area.{nth_file};
ghost use Rattle.enc_index.specs.Entries.{found_pointer};
ghost use Rattle.enc_index.specs.Bytes.{byte_char};

use crate::index::Index;
use crate::kind::Kind;
use crate::pointers::Pointers;
use crate::sizes::{JIS0208_POINTERS, SINGLE_BYTE_ENCODINGS};
use crate::table::IndexTables;
use enc_model::{Encoding, Utf8Char};
use std::alloc::{AllocError, Global};
use std::marker::Model;

/// The tables of the files that were given.
#[derive(Drop)]
struct Tables {
    jis0208: Option<IndexTables>,
    jis0212: Option<IndexTables>,
    katakana: Option<IndexTables>,
    /// Of the fifteen single-byte encodings, in their order.
    single: Vec<Option<IndexTables>>,
}

/// The index files that were given. The set is one pointer, so that it is cheap to move.
#[derive(Drop)]
pub struct IndexSet {
    tables: Box<Tables>,
}

impl Model for IndexSet {
    ghost use Rattle.enc_model.specs.Indexes.{IndexSet};
    ghost use Rattle.enc_index.specs.Sets.{IsIndexSet};

    ghost Value = { IndexSet };

    ghost view = { λ s. record {
      jis0208 = s.tables.value.jis0208;
      jis0212 = s.tables.value.jis0212;
      katakana = s.tables.value.katakana;
      single = s.tables.value.single.items;
    } };

    ghost invariant = { λ s. IsIndexSet
        (record {
          jis0208 = s.tables.value.jis0208;
          jis0212 = s.tables.value.jis0212;
          katakana =
              s.tables.value.katakana;
          single = s.tables.value.single.items;
        }) };
}

/// The place of a single-byte encoding.
fn place_of(encoding: Encoding) -> Option<usize>
    ensures { result ≡ single_byte_place encoding }
{
    match encoding {
        Encoding::Ibm866 => Some(0),
        Encoding::Iso8859X2 => Some(1),
        Encoding::Iso8859X5 => Some(2),
        Encoding::Iso8859X15 => Some(3),
        Encoding::Koi8R => Some(4),
        Encoding::Macintosh => Some(5),
        Encoding::Windows1250 => Some(6),
        Encoding::Windows1251 => Some(7),
        Encoding::Windows1252 => Some(8),
        Encoding::Windows1253 => Some(9),
        Encoding::Windows1254 => Some(10),
        Encoding::Windows1255 => Some(11),
        Encoding::Windows1256 => Some(12),
        Encoding::Windows1257 => Some(13),
        Encoding::Windows1258 => Some(14),
        _ => None,
    }
}

impl IndexSet {
    /// A set without files.
    ///
    /// # Errors
    ///
    /// `AllocError` when out of memory.
    pub fn new(alloc: Global) -> Result<IndexSet, AllocError>
        ensures { IfOk result (λ set. set ≡ no_indexes) }
    {
        let mut single = Vec::new(alloc);
        for _place in 0..SINGLE_BYTE_ENCODINGS {
            single.push(None)?;
        }
        IndexSet::of_tables(alloc, None, None, None, single)
    }

    /// A law: each index of the set is one of its kind.
    pub(crate) fn valid(&self)
        ensures { IsIndexSet self.now }
    {
        let _ = &self.tables.jis0208;
    }

    /// The set of these tables.
    ///
    /// # Errors
    ///
    /// `AllocError` when out of memory.
    pub(crate) fn of_tables(
        alloc: Global,
        jis0208: Option<IndexTables>,
        jis0212: Option<IndexTables>,
        katakana: Option<IndexTables>,
        single: Vec<Option<IndexTables>>,
    ) -> Result<IndexSet, AllocError>
        requires { IsIndexSet (record
            { jis0208 = jis0208; jis0212 = jis0212; katakana = katakana; single = single.items }) }
        ensures { IfOk result (λ set. set ≡ record
            { jis0208 = jis0208; jis0212 = jis0212; katakana = katakana; single = single.items }) }
    {
        let tables = Tables {
            jis0208,
            jis0212,
            katakana,
            single,
        };
        let tables = Box::new(alloc, tables)?;
        Ok(IndexSet { tables })
    }

    /// The table of file n of the eighteen, if it was given.
    pub(crate) fn nth_table(&self, n: usize) -> Option<&IndexTables>
        ensures { option_copied result ≡ nth_file self.now n }
    {
        match n {
            0 => self.tables.jis0208.as_ref(),
            1 => self.tables.jis0212.as_ref(),
            2 => self.tables.katakana.as_ref(),
            _ => match self.tables.single.get(n - 3) {
                Some(table) => table.as_ref(),
                None => None,
            },
        }
    }

    /// Replaces the index of this one's kind. An index of `Single` for another encoding than the fifteen is dropped. It
    /// allocates nothing.
    pub fn set(&mut self, index: Index)
        ensures { self.new ≡ with_index self.old index }
    {
        let (kind, table) = index.into_parts();
        match kind {
            Kind::Jis0208 => self.tables.jis0208 = Some(table),
            Kind::Jis0212 => self.tables.jis0212 = Some(table),
            Kind::Katakana => self.tables.katakana = Some(table),
            Kind::Single(encoding) => {
                if let Some(place) = place_of(encoding) {
                    self.tables.single[place] = Some(table);
                }
            }
        }
    }

    /// The index of a single-byte encoding, if its file was given.
    #[inline(always)]
    fn single_table(&self, encoding: Encoding) -> Option<&IndexTables>
        ensures { option_copied result ≡ single_of self.now encoding }
    {
        let place = place_of(encoding)?;
        self.tables.single[place].as_ref()
    }

    /// The index of a kind, if its file was given.
    #[inline(always)]
    fn table(&self, kind: Kind) -> Option<&IndexTables>
        ensures { option_copied result ≡ index_of self.now kind }
    {
        match kind {
            Kind::Jis0208 => self.tables.jis0208.as_ref(),
            Kind::Jis0212 => self.tables.jis0212.as_ref(),
            Kind::Katakana => self.tables.katakana.as_ref(),
            Kind::Single(encoding) => self.single_table(encoding),
        }
    }

    /// Whether texts in this encoding can be decoded and encoded: UTF-8 and UTF-16 always, a single-byte encoding with
    /// its file, Shift_JIS with jis0208, EUC-JP with jis0208 and jis0212, ISO-2022-JP with jis0208 and katakana.
    pub fn offers(&self, encoding: Encoding) -> bool
        ensures { result ≡ offers self.now encoding }
    {
        match encoding {
            Encoding::Utf8 | Encoding::Utf16Be | Encoding::Utf16Le => true,
            Encoding::ShiftJis => self.tables.jis0208.is_some(),
            Encoding::EucJp => self.tables.jis0208.is_some() && self.tables.jis0212.is_some(),
            Encoding::Iso2022Jp => self.tables.jis0208.is_some() && self.tables.katakana.is_some(),
            single => self.single_table(single).is_some(),
        }
    }

    /// The code point at a pointer of an index. A file that wasn't given maps nothing.
    #[tactic(auto, using(crate::proofs::Lookups::code_of_none, crate::proofs::Lookups::table_is))]
    #[inline(always)]
    pub fn code(&self, kind: Kind, pointer: u32) -> Option<char>
        ensures { result ≡ code (table_of (tables self.now) kind) pointer }
    {
        self.table(kind)?.code(pointer)
    }

    /// The code points of an index as UTF-8, by pointer, if its file was given.
    #[tactic(auto, using(crate::proofs::Lookups::table_is))]
    #[inline(always)]
    pub fn ready(&self, kind: Kind) -> Option<&[Option<Utf8Char>]>
        ensures { IfSome result
            (λ s. (p : ℕ) → slice_index_or s.now p None ≡ code (table_of (tables self.now) kind) p) }
    {
        Some(self.table(kind)?.ready())
    }

    /// The characters of a single-byte encoding as UTF-8, by byte, if its file was given.
    #[inline(always)]
    pub fn ready_bytes(&self, encoding: Encoding) -> Option<&[Utf8Char]>
        ensures long { IfSome result (λ s. length s.now ≡ 256) }
        ensures chars { IfSome result
            (λ s. (b : ℕ) → b < 256 → slice_index s.now b ≡ byte_char ((tables self.now).single encoding) b) }
    {
        Some(self.single_table(encoding)?.ready_bytes())
    }

    /// The least pointers of an index by code point, if its file was given. A caller with many lookups asks for them
    /// once.
    #[tactic(auto, using(crate::proofs::Lookups::pointer_of_none, crate::proofs::Lookups::table_is))]
    #[inline(always)]
    pub fn pointers(&self, kind: Kind) -> Option<&Pointers>
        ensures value { MatchOption result ((c : ℕ) → pointer (table_of (tables self.now) kind) c ≡ None)
            (λ p. (c : ℕ) → found_pointer p.now c ≡ pointer (table_of (tables self.now) kind) c) }
        ensures bounded { IfSome result (λ p. (c : ℕ) → IfSome (found_pointer p.now c) (λ n. n < pointers_of kind)) }
    {
        let _ = &self.tables.jis0208;
        Some(self.table(kind)?.pointers())
    }

    /// The index Shift_JIS pointers by code point, if its file was given: the least ones of jis0208 outside 8272 to
    /// 8835. A caller with many lookups asks for them once.
    #[tactic(auto, using(crate::proofs::Lookups::pointer_of_none))]
    #[inline(always)]
    pub fn pointers_sjis(&self) -> Option<&Pointers>
        ensures value { MatchOption result ((c : ℕ) → pointer_sjis (tables self.now).jis0208 c ≡ None)
            (λ p. (c : ℕ) → found_pointer p.now c ≡ pointer_sjis (tables self.now).jis0208 c) }
        ensures bounded { IfSome result (λ p. (c : ℕ) → IfSome (found_pointer p.now c) (λ n. n < JIS0208_POINTERS)) }
    {
        Some(self.tables.jis0208.as_ref()?.pointers_sjis())
    }

    /// The least pointer of a code point in an index.
    #[inline(always)]
    pub fn pointer(&self, kind: Kind, c: char) -> Option<u32>
        ensures value { result ≡ pointer (table_of (tables self.now) kind) c }
        ensures bounded { IfSome result (λ p. p < pointers_of kind) }
    {
        self.pointers(kind)?.find(c)
    }

    /// The index Shift_JIS pointer of a code point: the least one of jis0208 outside 8272 to 8835.
    #[inline(always)]
    pub fn pointer_sjis(&self, c: char) -> Option<u32>
        ensures value { result ≡ pointer_sjis (tables self.now).jis0208 c }
        ensures bounded { IfSome result (λ p. p < JIS0208_POINTERS) }
    {
        self.pointers_sjis()?.find(c)
    }
}
