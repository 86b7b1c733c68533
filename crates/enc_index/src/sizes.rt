//! The sizes of the index files, and where their entries are in an index area.

/// How many pointers jis0208 has.
pub(crate) const JIS0208_POINTERS: usize = 11280;

/// How many pointers jis0212 has.
pub(crate) const JIS0212_POINTERS: usize = 8836;

/// How many pointers katakana has.
pub(crate) const KATAKANA_POINTERS: usize = 63;

/// How many pointers the index of a single-byte encoding has.
pub(crate) const SINGLE_POINTERS: usize = 128;

/// How many single-byte encodings there are.
pub(crate) const SINGLE_BYTE_ENCODINGS: usize = 15;

/// How many files a set may have: jis0208, jis0212, katakana and those of the single-byte encodings.
pub(crate) const FILES: usize = 3 + SINGLE_BYTE_ENCODINGS;

/// The first entry of jis0212.
pub(crate) const JIS0212_ENTRY: usize = JIS0208_POINTERS;

/// The first entry of katakana.
pub(crate) const KATAKANA_ENTRY: usize = JIS0212_ENTRY + JIS0212_POINTERS;

/// The first entry of the first single-byte encoding.
pub(crate) const SINGLE_ENTRY: usize = KATAKANA_ENTRY + KATAKANA_POINTERS;

/// How many entries an index area has.
pub(crate) const ENTRIES: usize = SINGLE_ENTRY + SINGLE_BYTE_ENCODINGS * SINGLE_POINTERS;

/// The place of the first entry in an index area.
pub(crate) const ENTRIES_START: usize = 32;

/// The place after the last entry in an index area. An entry has four bytes.
pub(crate) const ENTRIES_END: usize = ENTRIES_START + 4 * ENTRIES;
