//! The open appends of a table.

ghost use Rattle.std.specs.Prelude.{◌≡◌, ◌==◌, ◌≤◌, ◌+◌, ◌++◌, ℕ, if◌then◌else◌, Option, false, length, OnOk, OnErr};
ghost use Rattle.std.specs.Prelude.{IsErrOf};
ghost use Rattle.upload_rules.specs.Lengths.{is_length, is_new, known_or};
ghost use Rattle.upload_rules.specs.Store.{Upload, with_length, is_complete};
ghost use Rattle.upload_rules.specs.World.{Patch, reached};
ghost use Rattle.upload_rules.specs.Slots.{SlotRepresents};
ghost use Rattle.upload_rules.specs.Appends.{AppendRepresents, IsCommitPut};

use crate::UploadError;
use crate::lengths::{is_length, is_new};
use crate::new_text::NewText;
use crate::slot::Slot;
use common::Stop;
use enc_index::IndexSet;
use std::alloc::AllocError;
use std::mem;

/// An open append of a table.
#[derive(Drop)]
pub(crate) struct OpenAppend {
    /// The upload's number.
    pub(crate) number: u64,
    /// The upload's offset when it began.
    pub(crate) offset: u64,
    /// How many bytes it was given since.
    pub(crate) came: u64,
    /// The length that it declares.
    pub(crate) declare: Option<u64>,
    /// What these bytes add to the text.
    pub(crate) text: NewText,
}

impl OpenAppend {
    /// Takes a piece of the body. Out of memory, the append is unchanged.
    pub(crate) fn feed(&mut self, indexes: &IndexSet, piece: &[u8]) -> Result<(), AllocError>
        ensures ok { (next : ℕ) (p : Patch) → AppendRepresents indexes.now next p self.old
            → length p.body + length piece.now ≤ p.count
            → OnOk result (AppendRepresents indexes.now next (record p { body = p.body ++ piece.now }) self.new) }
        ensures err { (next : ℕ) (p : Patch) → AppendRepresents indexes.now next p self.old
            → OnErr result (AppendRepresents indexes.now next p self.new) }
    {
        let text = mem::replace(&mut self.text, NewText::Unencodable);
        let (text, outcome) = text.with(indexes, piece);
        self.text = text;
        outcome?;
        self.came = self.came.saturating_add(piece.len() as u64);
        Ok(())
    }

    /// Whether it brings its upload neither bytes nor a length.
    pub(crate) fn is_idle(&self, known: Option<u64>) -> bool
        ensures { result ≡ (if is_new known self.now.declare then false else self.now.came == 0) }
    {
        self.came == 0 && !is_new(known, self.declare)
    }

    /// Appends the new text to the slot, whose length becomes `declared`, and returns the new offset.
    pub(crate) fn append_to(
        self,
        slot: &mut Slot,
        declared: Option<u64>,
        indexes: &IndexSet,
    ) -> Result<u64, UploadError>
        ensures put { (next : ℕ) (p : Patch) (u : Upload) → AppendRepresents indexes.now next p self
            → (length : Option ℕ) × (u ≡ with_length p.began length) → is_complete u ≡ false
            → declared ≡ known_or u.declared p.declare → SlotRepresents indexes.now p.number u slot.old
            → IsCommitPut indexes.now p u (is_length declared (reached p)) slot.new result }
        ensures no_disk_fault { IsErrOf result (UploadError.Stop Stop.DiskFault) → ⊥ }
    {
        let OpenAppend {
            number: _,
            offset,
            came,
            declare: _,
            text,
        } = self;
        let accepted = offset.saturating_add(came);
        let (state, text) = text.ended(indexes, is_length(declared, accepted))?;
        match slot.grow(&text, declared, accepted, state) {
            Ok(()) => Ok(accepted),
            Err(_) => Err(UploadError::Stop(Stop::NoMemory)),
        }
    }
}
