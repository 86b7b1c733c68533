//! Bytes that no spool writes.
use thiserror::Error;

/// The bytes of a slot or a row are invalid: no spool ever writes them.
#[derive(Clone, Copy, Debug, PartialEq, Eq, Drop, Error)]
#[error("a slot's or a row's bytes are damaged")]
pub struct Damaged;
