//! An index file that was read.

ghost use Rattle.std.specs.Prelude.{◌≡◌, ◌≤◌};
ghost use Rattle.enc_index.specs.Files.{pointers_of};
ghost use Rattle.enc_index.specs.Sets.{IsIndex};
ghost use Rattle.enc_index.specs.Kinds.{KindedIndex, IsReadingOfIndex};
ghost use Rattle.enc_model.specs.Index.{code, pointer, pointer_sjis};

use crate::file::read_file;
use crate::kind::{Kind, ReadError};
use crate::sizes::{JIS0208_POINTERS, JIS0212_POINTERS, KATAKANA_POINTERS, SINGLE_POINTERS};
use crate::table::IndexTables;
use std::alloc::Global;
use std::marker::Model;

/// An index and its kind.
#[derive(Drop)]
pub struct Index {
    kind: Kind,
    table: IndexTables,
}

impl Model for Index {
    ghost use Rattle.enc_index.specs.Files.{pointers_of};
    ghost use Rattle.enc_index.specs.Sets.{IsIndex};
    ghost use Rattle.enc_index.specs.Kinds.{KindedIndex};

    ghost Value = { KindedIndex };

    ghost view = { λ i. record { kind = i.kind; pairs = i.table } };

    ghost invariant = { λ i. IsIndex (pointers_of i.kind) i.table };
}

/// How many pointers an index of this kind has.
fn pointers_of(kind: Kind) -> usize
    ensures count { result ≡ pointers_of kind }
    ensures bound { result ≤ JIS0208_POINTERS }
{
    match kind {
        Kind::Jis0208 => JIS0208_POINTERS,
        Kind::Jis0212 => JIS0212_POINTERS,
        Kind::Katakana => KATAKANA_POINTERS,
        Kind::Single(_) => SINGLE_POINTERS,
    }
}

impl Index {
    /// Reads an index file (Encoding Standard, section 5): lines of a pointer, a TAB and a code point. Lines end in LF
    /// or CRLF. Empty lines, lines that begin with `#`, and fields after the code point are ignored. A pointer has 1 to
    /// 6 decimal digits and may have leading spaces; a code point has 1 to 8 hexadecimal digits and may begin with
    /// `0x`.
    ///
    /// # Errors
    ///
    /// The fault of the first bad line, or `NoMemory` when out of memory.
    pub fn read(alloc: Global, bytes: &[u8], kind: Kind) -> Result<Index, ReadError>
        ensures { IsReadingOfIndex kind bytes.now result }
    {
        let mut codes = vec![in alloc; None; pointers_of(kind)]?;
        read_file(&mut codes, bytes)?;
        let table = IndexTables::new(alloc, codes)?;
        Ok(Index { kind, table })
    }

    /// The kind of the index.
    pub fn kind(&self) -> Kind
        ensures { result ≡ self.now.kind }
    {
        self.kind
    }

    /// The code point at a pointer.
    pub fn code(&self, pointer: u32) -> Option<char>
        ensures { result ≡ code self.now.pairs pointer }
    {
        self.table.code(pointer)
    }

    /// The least pointer of a code point: the index pointer.
    pub fn pointer(&self, c: char) -> Option<u32>
        ensures { result ≡ pointer self.now.pairs c }
    {
        self.table.pointer(c)
    }

    /// The least pointer of a code point outside 8272 to 8835: the index Shift_JIS pointer.
    pub fn pointer_sjis(&self, c: char) -> Option<u32>
        ensures { result ≡ pointer_sjis self.now.pairs c }
    {
        self.table.pointer_sjis(c)
    }

    /// The kind and the table.
    pub(crate) fn into_parts(self) -> (Kind, IndexTables)
        ensures kind { result.0 ≡ self.kind }
        ensures pairs { result.1 ≡ self.pairs }
        ensures valid { IsIndex (pointers_of self.kind) self.pairs }
    {
        let Index { kind, table } = self;
        (kind, table)
    }
}
