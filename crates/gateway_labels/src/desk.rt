//! What all trials write on.

use crate::classes::Classes;
use std::alloc::{AllocError, Global};

/// What all trials write on.
#[derive(Drop)]
pub struct Desk {
    /// The classes of the characters that came last.
    pub classes: Classes,
    /// The text of a piece, in UTF-8.
    pub text: Vec<u8>,
}

impl Desk {
    /// A clean one.
    pub fn new(alloc: Global) -> Result<Self, AllocError> {
        Ok(Desk {
            classes: Classes::new(alloc)?,
            text: Vec::new(alloc),
        })
    }
}
