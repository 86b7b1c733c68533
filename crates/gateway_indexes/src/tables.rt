//! Tables of code points: an index that was read, and one of a spool's.
ghost use Rattle.std.specs.Prelude.{◌≡◌, ◌≤◌, ℕ, List};
ghost use Rattle.enc_model.specs.Index.{code};
ghost use Rattle.gateway_indexes.specs.IndexFiles.{entries, one_of};

use enc_index::{Index, IndexSet, Kind};

/// The pointers of the longest index, jis0208.
pub(crate) const MOST_POINTERS: u32 = 11_280;

/// A table of code points by pointer.
pub trait Table {
    /// Its entries: pointers and code points.
    ghost pairs: { Self → List (ℕ × ℕ) };

    /// The code point at a pointer.
    fn code_at(&self, pointer: u32) -> Option<char>
        ensures { result ≡ code (pairs self.now) pointer };
}

impl Table for Index {
    ghost pairs = { λ index. index.pairs };

    fn code_at(&self, pointer: u32) -> Option<char> {
        self.code(pointer)
    }
}

/// The index of a kind in a set. Where the set has none it is empty.
#[derive(Drop)]
pub struct Kept<'a> {
    /// The set.
    pub set: &'a IndexSet,
    /// The kind.
    pub kind: Kind,
}

impl Table for Kept<'_> {
    ghost use Rattle.enc_model.specs.Indexes.{tables};
    ghost use Rattle.enc_index.specs.Kinds.{table_of};

    ghost pairs = { λ kept. table_of (tables kept.set.now) kept.kind };

    fn code_at(&self, pointer: u32) -> Option<char> {
        self.set.code(self.kind, pointer)
    }
}

/// How many entries a table has.
pub fn entries_of<T: Table>(table: &T) -> u32
    ensures { result ≡ entries (T.pairs table.now) 11280 }
{
    let mut count = 0;
    for pointer in 0..MOST_POINTERS {
        count += entry_at(table, pointer);
    }
    count
}

// Whether a table has an entry at a pointer: 1, or 0.
fn entry_at<T: Table>(table: &T, pointer: u32) -> u32
    ensures one { result ≡ one_of (code (T.pairs table.now) pointer) }
    ensures most { result ≤ 1 }
{
    match table.code_at(pointer) {
        Some(_) => 1,
        None => 0,
    }
}
