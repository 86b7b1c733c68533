//! What is found of an index, in a folder or in a spool.
ghost use Rattle.std.specs.Prelude.{◌≡◌, ◌≢◌};
ghost use Rattle.enc_model.specs.Indexes.{tables};
ghost use Rattle.enc_index.specs.Kinds.{table_of};
ghost use Rattle.gateway_indexes.specs.Digests.{found_as, is_as_standard, is_there};

use crate::digests::is_standard;
use crate::tables::{Kept, Table, entries_of};
use enc_index::{IndexSet, Kind};

/// What is found of an index.
#[derive(Clone, Copy, Debug, PartialEq, Eq, Drop)]
pub enum Found {
    /// None.
    Missing,
    /// The standard's, by the digest of its entries.
    Standard,
    /// Another one, with so many entries.
    Other(u32),
}

impl Found {
    /// What a table is as one of this kind.
    pub fn of<T: Table>(kind: Kind, table: &T) -> Self
        ensures { result ≡ found_as kind (T.pairs table.now) }
    {
        if is_standard(kind, table) {
            return Found::Standard;
        }
        Found::Other(entries_of(table))
    }

    /// What a set has of this kind. It is only tested that none is found where the set has none.
    pub fn of_set(set: &IndexSet, kind: Kind) -> Self
        ensures { result ≢ Found.Missing → result ≡ found_as kind (table_of (tables set.now) kind) }
    {
        if set.ready(kind).is_none() {
            return Found::Missing;
        }
        Found::of(kind, &Kept { set, kind })
    }

    /// Whether there is one.
    pub fn is_there(self) -> bool
        ensures { result ≡ is_there self }
    {
        match self {
            Found::Missing => false,
            Found::Standard | Found::Other(_) => true,
        }
    }

    /// Whether it is the standard's.
    pub fn is_standard(self) -> bool
        ensures { result ≡ is_as_standard self }
    {
        match self {
            Found::Standard => true,
            Found::Missing | Found::Other(_) => false,
        }
    }
}
