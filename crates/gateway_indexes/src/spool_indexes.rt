//! What a spool has of the standard's indexes.
ghost use Rattle.std.specs.Prelude.{Some};
ghost use Rattle.gateway_indexes.specs.Reports.{spool_lines};

use crate::found::Found;
use crate::index_files::{FILES, IndexFile};
use enc_index::IndexSet;
use gateway_outside::{Output, Refused};
use serde::Serialize;
use std::alloc::{AllocError, Global};
use std::fmt;

/// An index in a spool, and what was found of it. Nothing is to be known of the standard's.
#[derive(Drop)]
pub struct InSpool(pub IndexFile);

impl fmt::Display for InSpool {
    ghost output = { λ index. Some (spool_lines index.0) };

    fn fmt<W: fmt::Write>(&self, f: &mut fmt::Formatter<W>) -> fmt::Result {
        let file = &self.0;
        match file.found {
            Found::Missing => writeln!(
                f,
                "not offered: {}, since the spool has no {}",
                file.encodings, file.name
            ),
            Found::Standard => Ok(()),
            Found::Other(_) => write!(f, "{file}"),
        }
    }
}

/// What a set has of each index, in the order of a spool's index area.
pub fn found_in(set: &IndexSet) -> [Found; 18] {
    let mut found = [Found::Missing; 18];
    for (place, (_, kind)) in found.iter_mut().zip(FILES.iter()) {
        *place = Found::of_set(set, *kind);
    }
    found
}

/// Prints which indexes a spool hasn't, and which aren't the standard's, by what was found of each.
pub fn report_indexes<W: Output>(writer: &mut W, found: &[Found]) -> Result<(), Refused> {
    for ((name, kind), found) in FILES.iter().zip(found) {
        let file = IndexFile::new(name, *kind, *found);
        write!(writer, "{}", InSpool(file))?;
    }
    Ok(())
}

/// The indexes that a set hasn't, and those that aren't the standard's, by the names of their files.
#[derive(Drop, Serialize)]
pub struct Doubtful {
    missing: Vec<&'static str>,
    other: Vec<&'static str>,
}

/// Those of a set.
pub fn doubtful_of(alloc: Global, set: &IndexSet) -> Result<Doubtful, AllocError> {
    let mut missing = Vec::new(alloc);
    let mut other = Vec::new(alloc);
    for (name, kind) in FILES.iter() {
        match Found::of_set(set, *kind) {
            Found::Missing => missing.push(*name)?,
            Found::Standard => {}
            Found::Other(_) => other.push(*name)?,
        }
    }
    Ok(Doubtful { missing, other })
}
