//! What is left in a spool.

use std::io::{self, Write};

/// How much of a spool is free, and how many of its uploads aren't complete.
#[derive(Clone, Copy, Debug, PartialEq, Eq, Drop)]
pub struct Stock {
    /// Text blocks that no upload has.
    pub free_blocks: u64,
    /// Uploads that may still be created.
    pub free_slots: u64,
    /// Uploads whose last byte hasn't come.
    pub incomplete: u64,
}

/// How far an upload came.
#[derive(Clone, Copy, Debug, PartialEq, Eq, Drop)]
pub struct Progress {
    /// How many of its bytes are accepted.
    pub accepted: u64,
    /// Its length, if that is known.
    pub declared: Option<u64>,
}

/// Writes what is left, if that is known.
pub(crate) fn write_stock(out: &mut Vec<u8>, stock: Option<Stock>) -> io::Result<()> {
    match stock {
        Some(stock) => write!(
            out,
            " free_blocks={} free_slots={} incomplete={}",
            stock.free_blocks, stock.free_slots, stock.incomplete
        ),
        None => Ok(()),
    }
}
