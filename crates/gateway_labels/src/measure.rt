//! What is known of a text.
ghost use Rattle.std.specs.Prelude.{◌≡◌, ◌++◌, ℕ, List, OnOk, IfErr};
ghost use Rattle.std.specs.Str.{IsUtf8};
ghost use Rattle.gateway_labels.specs.Reasons.{IsUntold};
ghost use Rattle.gateway_labels.specs.declared.unread.Unread.{Unread};

use crate::classes::Classes;
use crate::counts::Counts;
use crate::sample::Sample;
use crate::unread::Unread;
use sha2::{Digest, Sha256};
use std::alloc::Global;

/// What is known of a text so far.
#[derive(Drop)]
pub struct Measure {
    /// What is counted in it.
    pub counts: Counts,
    /// A message that is the text.
    pub hasher: Sha256,
    /// Its line to be shown.
    pub sample: Sample,
}

impl Measure {
    ghost use Rattle.std.specs.Prelude.{[]};
    ghost use Rattle.gateway_labels.specs.Measured.{IsMeasured};

    /// Of no text so far.
    pub fn new(alloc: Global) -> Self
        ensures { IsMeasured result [] }
    {
        Measure {
            counts: Counts::new(),
            hasher: Sha256::new(),
            sample: Sample::new(alloc),
        }
    }

    /// Goes on with the bytes of a text in UTF-8. After an error nothing is known of it.
    pub fn add(&mut self, classes: &mut Classes, bytes: &[u8]) -> Result<(), Unread>
        ensures known { (before : List ℕ) → IsMeasured self.old before
            → OnOk result (IsMeasured self.new (before ++ bytes.now)) }
        ensures told { IsUtf8 bytes.now → IfErr result (λ unread. unread ≡ Unread.NoMemory) }
        ensures untold { IfErr result IsUntold }
    {
        let Ok(text) = str::from_utf8(bytes) else {
            return Err(Unread::NoText);
        };
        self.sample.add(text)?;
        self.counts.add(classes, text);
        self.hasher.update(bytes);
        Ok(())
    }
}
