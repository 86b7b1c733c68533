//! A slot of a table.

ghost use Rattle.upload_rules.specs.Records.{IsShort};
ghost use Rattle.upload_rules.specs.States.{IsSomeState};

use crate::{New, Record};
use common::MOST_METADATA;
use std::alloc::{AllocError, Global};

/// An upload of a table: its record and its text.
#[derive(Drop)]
pub(crate) struct Slot {
    /// The record.
    pub(crate) record: Record,
    /// The stored text.
    pub(crate) text: Vec<u8>,
    ghost short: { IsShort «record» },
    ghost state: { IsSomeState «record».state },
}

impl Slot {
    ghost use Rattle.std.specs.Prelude.{◌≡◌, ◌++◌, ◌≤◌, length, OnOk, OnErr};
    ghost use Rattle.enc_stream.specs.TranscoderState.{IsOutput};
    ghost use Rattle.enc_model.specs.Indexes.{IndexSet};
    ghost use Rattle.upload_rules.specs.Store.{new_upload};
    ghost use Rattle.upload_rules.specs.Slots.{SlotRepresents};

    /// An upload without bytes.
    pub(crate) fn new(alloc: Global, number: u64, fields: New) -> Self
        requires output { IsOutput fields.to }
        requires short { length fields.metadata ≤ MOST_METADATA }
        ensures { (x : IndexSet) → SlotRepresents x number (new_upload fields) result }
    {
        Slot {
            record: Record::first(number, fields),
            text: Vec::new(alloc),
        }
    }

    /// Appends to the text, and sets the length, the offset and the state. Out of memory, the slot is unchanged.
    pub(crate) fn grow(
        &mut self,
        text: &[u8],
        declared: Option<u64>,
        accepted: u64,
        state: [u8; 32],
    ) -> Result<(), AllocError>
        requires { IsSomeState state }
        ensures text { OnOk result (self.new.text.items ≡ self.old.text.items ++ text.now) }
        ensures record { OnOk result
            (self.new.record ≡ record self.old.record
            { declared = declared; accepted = accepted; text_len = length self.new.text.items; state = state }) }
        ensures same { OnErr result
            ((self.new.text.items ≡ self.old.text.items) × (self.new.record ≡ self.old.record)) }
    {
        self.text.extend_from_slice(text)?;
        self.record.declared = declared;
        self.record.accepted = accepted;
        self.record.text_len = self.text.len() as u64;
        self.record.state = state;
        Ok(())
    }
}
