//! The sizes and limits that more than one crate names.

/// How many uploads a store has room for: two records on each of 256 pages.
pub const SLOTS: u32 = 512;

/// The fewest text blocks of a spool.
pub const LEAST_BLOCKS: u32 = 16;

/// The most text blocks of a spool.
pub const MOST_BLOCKS: u32 = 65536;

/// The most bytes that an upload takes: 1 GiB.
pub const MOST_LENGTH: u64 = 1073741824;

/// The most bytes of `Upload-Metadata`.
pub const MOST_METADATA: usize = 1536;

/// How many rows a page of rows has, 8 bytes each.
pub const ROWS: usize = 512;
