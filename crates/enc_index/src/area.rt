//! The index area of a spool: an index set as bytes.

ghost use Rattle.std.specs.Prelude.{◌≡◌, ℕ, ◌+◌, ◌*◌, ◌<◌, ◌≤◌, ◌↔◌, List, Option, None, IfOk, IfSome, IsTrue, length};
ghost use Rattle.std.specs.Prelude.{option_copied, slice_index, slice_index_or};
ghost use Rattle.enc_model.specs.Index.{Index};
ghost use Rattle.enc_model.specs.Indexes.{IndexSet};
ghost use Rattle.enc_index.specs.Sets.{IsIndex, IsIndexSet};
ghost use Rattle.enc_index.specs.Area.{spot_of, entry_of, entry_at, area_byte, IsAreaOf, GivesSet, word_of};
ghost use Rattle.enc_index.specs.Area.{scalar_in_entry};
ghost use Rattle.enc_index.specs.Area.{IsFileIn, nth_file};
ghost use Rattle.enc_index.specs.Compared.{HasEntries, HasFlags, HasZeros, HasFiles, HasMargins};

use crate::kind::AreaError;
use crate::set::IndexSet;
use crate::sizes::{
    ENTRIES, ENTRIES_END, ENTRIES_START, FILES, JIS0208_POINTERS, JIS0212_ENTRY, JIS0212_POINTERS,
    KATAKANA_ENTRY, KATAKANA_POINTERS, SINGLE_BYTE_ENCODINGS, SINGLE_ENTRY, SINGLE_POINTERS,
};
use crate::table::IndexTables;
use std::alloc::{AllocError, Global};

/// The length of the index area in bytes: 22 pages.
pub const AREA_SIZE: usize = 90112;

/// The file and the pointer of an entry.
fn spot_of(entry: usize) -> (usize, usize)
    ensures { result ≡ spot_of entry }
{
    if entry < JIS0212_ENTRY {
        (0, entry)
    } else if entry < KATAKANA_ENTRY {
        (1, entry - JIS0212_ENTRY)
    } else if entry < SINGLE_ENTRY {
        (2, entry - KATAKANA_ENTRY)
    } else {
        (
            3 + (entry - SINGLE_ENTRY) / SINGLE_POINTERS,
            (entry - SINGLE_ENTRY) % SINGLE_POINTERS,
        )
    }
}

/// A file's entry: a code point, or FFFFFFFF for none.
#[tactic(auto, using(crate::proofs::Lookups::code_of_none))]
#[inline(always)]
fn entry_of(table: Option<&IndexTables>, pointer: usize) -> u32
    requires { pointer < ENTRIES }
    ensures { result ≡ entry_of (option_copied table.entry) pointer }
{
    match table {
        Some(table) => match table.code(pointer as u32) {
            Some(c) => c as u32,
            None => u32::MAX,
        },
        None => u32::MAX,
    }
}

/// An entry of the tables.
#[tactic(auto, unfolding(crate::specs::Area::entry_at))]
fn entry_at(set: &IndexSet, entry: usize) -> u32
    requires { entry < ENTRIES }
    ensures { result ≡ entry_at set.now entry }
{
    let (file, pointer) = spot_of(entry);
    entry_of(set.nth_table(file), pointer)
}

#[tactic(auto, unfolding(crate::specs::Area::area_byte))]
fn area_byte(set: &IndexSet, place: usize) -> u8
    ensures { result ≡ area_byte set.now place }
{
    if place < FILES {
        set.nth_table(place).is_some() as u8
    } else if place < ENTRIES_START {
        0
    } else if place < ENTRIES_END {
        let bytes = entry_at(set, (place - ENTRIES_START) / 4).to_be_bytes();
        bytes[(place - ENTRIES_START) % 4]
    } else {
        0
    }
}

/// An entry of an area.
#[inline(always)]
fn word_of(area: &[u8], entry: usize) -> u32
    requires long { length area.now ≡ AREA_SIZE }
    requires inside { entry < ENTRIES }
    ensures { result ≡ word_of area.now entry }
{
    let place = ENTRIES_START + 4 * entry;
    u32::from_be_bytes([
        area[place],
        area[place + 1],
        area[place + 2],
        area[place + 3],
    ])
}

/// The code points of a file in an area.
#[tactic(auto, using(crate::proofs::Areas::from_scalar))]
fn codes_of(
    alloc: Global,
    area: &[u8],
    start: usize,
    pointers: usize,
) -> Result<Vec<Option<char>>, AllocError>
    requires long { length area.now ≡ AREA_SIZE }
    requires inside { start + pointers ≤ ENTRIES }
    ensures long { IfOk result (λ codes. length codes.items ≡ pointers) }
    ensures codes { IfOk result
        (λ codes. (k : ℕ) → k < pointers → slice_index_or codes.items k None
        ≡ scalar_in_entry (word_of area.now (start + k))) }
{
    let mut codes = Vec::with_capacity(alloc, pointers)?;
    for pointer in 0..pointers {
        codes.push(char::from_u32(word_of(area, start + pointer)))?;
    }
    Ok(codes)
}

/// A file's table in an area, if the file was given.
fn table_of(
    alloc: Global,
    area: &[u8],
    file: usize,
    start: usize,
    pointers: usize,
) -> Result<Option<IndexTables>, AllocError>
    requires long { length area.now ≡ AREA_SIZE }
    requires file { file < FILES }
    requires inside { start + pointers ≤ ENTRIES }
    ensures valid { IfOk result (λ table. IfSome table (IsIndex pointers)) }
    ensures given_back { (index : Option Index) → IsFileIn area.now file start pointers index
        → IfOk result (λ table. table ≡ index) }
{
    if area[file] != 1 {
        return Ok(None);
    }
    let codes = codes_of(alloc, area, start, pointers)?;
    let table = IndexTables::new(alloc, codes)?;
    Ok(Some(table))
}

/// The tables of the single-byte encodings in an area.
fn single_of(alloc: Global, area: &[u8]) -> Result<Vec<Option<IndexTables>>, AllocError>
    requires { length area.now ≡ AREA_SIZE }
    ensures places { IfOk result (λ single. length single.items ≡ SINGLE_BYTE_ENCODINGS) }
    ensures valid { IfOk result
        (λ single. (k : ℕ) → IfSome (slice_index_or single.items k None) (IsIndex SINGLE_POINTERS)) }
    ensures given_back { (single : List (Option Index)) → length single ≡ SINGLE_BYTE_ENCODINGS
        → ((k : ℕ) → k < SINGLE_BYTE_ENCODINGS → IsFileIn area.now (3 + k) (SINGLE_ENTRY + SINGLE_POINTERS * k)
        SINGLE_POINTERS (slice_index_or single k None))
        → IfOk result (λ tables. tables.items ≡ single) }
{
    let mut single = Vec::new(alloc);
    for place in 0..SINGLE_BYTE_ENCODINGS {
        let start = SINGLE_ENTRY + SINGLE_POINTERS * place;
        single.push(table_of(alloc, area, 3 + place, start, SINGLE_POINTERS)?)?;
    }
    Ok(single)
}

/// The set of an area, if the area is valid.
fn set_of(alloc: Global, area: &[u8]) -> Result<IndexSet, AllocError>
    requires { length area.now ≡ AREA_SIZE }
    ensures { (x : IndexSet) → IsIndexSet x → IsAreaOf x area.now → IfOk result (λ set. set ≡ x) }
{
    let jis0208 = table_of(alloc, area, 0, 0, JIS0208_POINTERS)?;
    let jis0212 = table_of(alloc, area, 1, JIS0212_ENTRY, JIS0212_POINTERS)?;
    let katakana = table_of(alloc, area, 2, KATAKANA_ENTRY, KATAKANA_POINTERS)?;
    let single = single_of(alloc, area)?;
    IndexSet::of_tables(alloc, jis0208, jis0212, katakana, single)
}

/// Whether an area has this file's entries from `start` on.
fn has_entries(table: Option<&IndexTables>, area: &[u8], start: usize, pointers: usize) -> bool
    requires long { length area.now ≡ AREA_SIZE }
    requires inside { start + pointers ≤ ENTRIES }
    ensures { IsTrue result ↔ HasEntries area.now start pointers (option_copied table.entry) }
{
    for pointer in 0..pointers {
        if word_of(area, start + pointer) != entry_of(table, pointer) {
            return false;
        }
    }
    true
}

/// Whether an area has the entries of the set's single-byte encodings.
fn has_single(set: &IndexSet, area: &[u8]) -> bool
    requires { length area.now ≡ AREA_SIZE }
    ensures { IsTrue result
        ↔ ((n : ℕ) → n < SINGLE_BYTE_ENCODINGS → HasEntries area.now (SINGLE_ENTRY + SINGLE_POINTERS * n)
        SINGLE_POINTERS (nth_file set.now (3 + n))) }
{
    for n in 0..SINGLE_BYTE_ENCODINGS {
        let start = SINGLE_ENTRY + SINGLE_POINTERS * n;
        if !has_entries(set.nth_table(3 + n), area, start, SINGLE_POINTERS) {
            return false;
        }
    }
    true
}

/// Whether an area has the set's entries.
fn has_files(set: &IndexSet, area: &[u8]) -> bool
    requires { length area.now ≡ AREA_SIZE }
    ensures { IsTrue result ↔ HasFiles set.now area.now }
{
    has_entries(set.nth_table(0), area, 0, JIS0208_POINTERS)
        && has_entries(set.nth_table(1), area, JIS0212_ENTRY, JIS0212_POINTERS)
        && has_entries(set.nth_table(2), area, KATAKANA_ENTRY, KATAKANA_POINTERS)
        && has_single(set, area)
}

/// Whether an area has the set's flags.
fn has_flags(set: &IndexSet, area: &[u8]) -> bool
    requires { length area.now ≡ AREA_SIZE }
    ensures { IsTrue result ↔ HasFlags set.now area.now }
{
    for file in 0..FILES {
        if area[file] != set.nth_table(file).is_some() as u8 {
            return false;
        }
    }
    true
}

/// Whether these bytes of an area are zeros.
fn has_zeros(area: &[u8], start: usize, end: usize) -> bool
    requires { end ≤ length area.now }
    ensures { IsTrue result ↔ HasZeros area.now start end }
{
    for place in start..end {
        if area[place] != 0 {
            return false;
        }
    }
    true
}

/// Whether an area has what belongs around the set's entries.
fn has_margins(set: &IndexSet, area: &[u8]) -> bool
    requires { length area.now ≡ AREA_SIZE }
    ensures { IsTrue result ↔ HasMargins set.now area.now }
{
    has_flags(set, area)
        && has_zeros(area, FILES, ENTRIES_START)
        && has_zeros(area, ENTRIES_END, AREA_SIZE)
}

/// Whether the area is that of the set. The entries are compared file by file, four bytes at a time.
fn is_area_of(set: &IndexSet, area: &[u8]) -> bool
    requires long { length area.now ≡ AREA_SIZE }
    requires valid { IsIndexSet set.now }
    ensures { IsTrue result ↔ IsAreaOf set.now area.now }
{
    has_margins(set, area) && has_files(set, area)
}

impl IndexSet {
    /// A page of the index area: 4,096 of its 90,112 bytes. First the area has a byte for each of the eighteen files:
    /// jis0208, jis0212, katakana and the single-byte encodings. It is 1 if the file was given. After zeros up to byte
    /// 31 come the tables of the files, with four bytes for each pointer: the code point or FFFFFFFF, big-endian. The
    /// rest is zeros.
    pub fn to_area(&self, page: usize) -> [u8; 4096]
        requires { page < 22 }
        ensures bytes { (i : ℕ) → i < 4096 → slice_index result i ≡ area_byte self.now (4096 * page + i) }
        ensures valid { IsIndexSet self.now }
    {
        self.valid();
        let mut bytes = [0; 4096];
        for i in 0..4096 {
            bytes[i] = area_byte(self, 4096 * page + i);
        }
        bytes
    }

    /// The set of this index area, whose pages are given in order.
    ///
    /// # Errors
    ///
    /// `Damaged` if it isn't the area of a set, `NoMemory` when out of memory.
    pub fn from_area(alloc: Global, area: &[u8]) -> Result<IndexSet, AreaError>
        ensures written { IfOk result (λ set. IsAreaOf set area.now) }
        ensures valid { IfOk result IsIndexSet }
        ensures given_back { (x : IndexSet) → IsIndexSet x → IsAreaOf x area.now → GivesSet result x }
    {
        if area.len() != AREA_SIZE {
            return Err(AreaError::Damaged);
        }
        let set = set_of(alloc, area)?;
        set.valid();
        if is_area_of(&set, area) {
            Ok(set)
        } else {
            Err(AreaError::Damaged)
        }
    }
}
