//! A store in memory. It has no disk, so it makes no promise about crashes.

use crate::appends::OpenAppend;
use crate::drafts::{placed, put_back, taken};
use crate::lengths::{is_too_large, length_then};
use crate::new_text::NewText;
use crate::slot::Slot;
use crate::slots::{place_of, places_to, read_from};
use crate::{New, Record, UploadError, UploadRefusal, Uploads};
use common::{SLOTS, Stop};
use enc_index::IndexSet;
use std::alloc::Global;

/// The end of the numbers: 10^18.
pub const NUMBERS_END: u64 = 1_000_000_000_000_000_000;

/// Uploads in memory, without a limit of room. Tests compare a spool with it.
#[derive(Drop)]
pub struct Table {
    alloc: Global,
    indexes: IndexSet,
    /// By ascending numbers.
    slots: Vec<Slot>,
    next: u64,
    /// By the numbers of their drafts.
    appends: Vec<Option<OpenAppend>>,
}

/// A draft of a table: the number of its append.
pub struct TableDraft {
    number: usize,
}

impl Table {
    ghost use Rattle.std.specs.Prelude.{◌≡◌, None, MatchOption, MatchResult, option_copied};
    ghost use Rattle.upload_rules.specs.Store.{no_uploads, upload_of};
    ghost use Rattle.upload_rules.specs.World.{World, at_rest};
    ghost use Rattle.upload_rules.specs.Table.{TableRepresents, IsSlotOf, IsOpened};

    /// A table without uploads.
    pub fn new(alloc: Global, indexes: IndexSet) -> Self
        ensures { TableRepresents result (at_rest (no_uploads indexes) None) }
    {
        Table {
            alloc,
            indexes,
            slots: Vec::new(alloc),
            next: 1,
            appends: Vec::new(alloc),
        }
    }

    /// The slot of this number.
    fn slot(&self, number: u64) -> Option<&Slot>
        ensures { (w : World) → TableRepresents self.now w → IsSlotOf w.store.indexes number (upload_of w.store number)
            (option_copied result) }
    {
        let place = place_of(&self.slots, number)?;
        Some(&self.slots[place])
    }

    /// The append that `begin` opens, if the rules allow it.
    fn opened(
        &self,
        number: u64,
        offset: u64,
        count: u64,
        declare: Option<u64>,
    ) -> Result<OpenAppend, UploadRefusal>
        ensures { (w : World) → TableRepresents self.now w
            → IsOpened w number offset count declare (upload_of w.store number) result }
    {
        let Some(slot) = self.slot(number) else {
            return Err(UploadRefusal::NoSuch);
        };
        slot.record.admits(offset, count, declare)?;
        Ok(OpenAppend {
            number,
            offset,
            came: 0,
            declare,
            text: NewText::after(self.alloc, &slot.record),
        })
    }
}

impl Uploads for Table {
    ghost use Rattle.std.specs.Prelude.{[]};
    ghost use Rattle.upload_rules.specs.Table.{TableRepresents};
    ghost use Rattle.upload_rules.specs.Numbers.{upload_below};

    type Draft = TableDraft;

    ghost represents = { λ t sure w. TableRepresents t w };

    ghost number_of = { λ d. d.number };

    ghost holds = { λ d p. Unit {0} };

    ghost moment = { λ t. 0 };

    ghost left_only = { λ t blocks since ms. Unit {0} };

    ghost failures = { λ t. 0 };

    ghost reads = { λ t. [] };

    ghost below = { λ t sure w number u represents there. upload_below t w represents number u there };

    ghost durable = { λ t w ms represents among. tt };

    fn record(&self, number: u64) -> Option<&Record> {
        Some(&self.slot(number)?.record)
    }

    fn record_after(&self, number: u64) -> Option<&Record> {
        let place = places_to(&self.slots, number);
        Some(&self.slots.get(place)?.record)
    }

    fn next_number(&self) -> u64 {
        self.next
    }

    fn indexes(&self) -> &IndexSet {
        &self.indexes
    }

    fn create(&mut self, new: New) -> Result<u64, UploadError> {
        if is_too_large(new.declared) {
            return Err(UploadError::Refused(UploadRefusal::TooLarge));
        }
        if self.slots.len() >= SLOTS as usize || self.next >= NUMBERS_END {
            return Err(UploadError::Refused(UploadRefusal::Slots));
        }
        let number = self.next;
        if self.slots.push(Slot::new(self.alloc, number, new)).is_err() {
            return Err(UploadError::Stop(Stop::NoMemory));
        }
        self.next = number + 1;
        Ok(number)
    }

    fn terminate(&mut self, number: u64) -> Result<(), UploadError> {
        let Some(place) = place_of(&self.slots, number) else {
            return Err(UploadError::Refused(UploadRefusal::NoSuch));
        };
        let _gone = self.slots.remove(place);
        Ok(())
    }

    fn begin(
        &mut self,
        number: u64,
        offset: u64,
        count: u64,
        declare: Option<u64>,
    ) -> Result<TableDraft, UploadError> {
        let append = match self.opened(number, offset, count, declare) {
            Ok(append) => append,
            Err(refusal) => return Err(UploadError::Refused(refusal)),
        };
        match placed(&mut self.appends, append) {
            Ok(number) => Ok(TableDraft { number }),
            Err(_) => Err(UploadError::Stop(Stop::NoMemory)),
        }
    }

    fn append(&mut self, draft: &mut TableDraft, piece: &[u8]) -> Result<(), Stop> {
        let Some(mut append) = taken(&mut self.appends, draft.number) else {
            return Ok(());
        };
        let outcome = append.feed(&self.indexes, piece);
        put_back(&mut self.appends, draft.number, append);
        Ok(outcome?)
    }

    fn commit(&mut self, draft: TableDraft) -> Result<u64, UploadError> {
        let TableDraft { number } = draft;
        let Some(append) = taken(&mut self.appends, number) else {
            return Err(UploadError::Refused(UploadRefusal::NoSuch));
        };
        let Some(place) = place_of(&self.slots, append.number) else {
            return Err(UploadError::Refused(UploadRefusal::NoSuch));
        };
        let record = &self.slots[place].record;
        if record.accepted != append.offset {
            return Err(UploadError::Refused(UploadRefusal::Offset));
        }
        let known = record.declared;
        let declared = match length_then(known, append.declare, append.offset, append.came) {
            Ok(declared) => declared,
            Err(refusal) => return Err(UploadError::Refused(refusal)),
        };
        if append.is_idle(known) {
            return Ok(append.offset);
        }
        append.append_to(&mut self.slots[place], declared, &self.indexes)
    }

    fn drop_open(&mut self, draft: TableDraft) {
        let TableDraft { number } = draft;
        let _ = taken(&mut self.appends, number);
    }

    fn read_text(&mut self, number: u64, at: u64, buf: &mut [u8]) -> Result<usize, UploadError> {
        match self.slot(number) {
            Some(slot) => Ok(read_from(&slot.text, at, buf)),
            None => Err(UploadError::Refused(UploadRefusal::NoSuch)),
        }
    }
}
