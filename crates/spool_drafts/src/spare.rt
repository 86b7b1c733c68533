//! Memory that is used again.

ghost use Rattle.std.specs.Prelude.{◌≡◌, []};

use std::alloc::Global;
use std::marker::Model;
use std::mem;

/// Memory for the text of the next piece, so that not every piece allocates. It isn't part of the draft's value.
#[derive(Drop)]
pub(crate) struct Spare {
    bytes: Vec<u8>,
}

impl Model for Spare {
    ghost Value = { Unit {0} };

    ghost view = { λ _. tt };
}

impl Spare {
    /// No memory yet.
    pub(crate) fn new(alloc: Global) -> Self {
        Spare {
            bytes: Vec::new(alloc),
        }
    }

    /// Takes the memory, emptied.
    pub(crate) fn take(&mut self, alloc: Global) -> Vec<u8>
        ensures { result.items ≡ [] }
    {
        let mut bytes = mem::replace(&mut self.bytes, Vec::new(alloc));
        bytes.clear();
        bytes
    }

    /// Puts the memory back.
    pub(crate) fn give_back(&mut self, bytes: Vec<u8>) {
        self.bytes = bytes;
    }
}
