//! What a catalog answers of its uploads.
ghost use Rattle.std.specs.Prelude.{◌≡◌, ◌<◌, ◌≤◌, ◌↔◌, ◌-◌, ◌*◌, ℕ, None, length, min};
ghost use Rattle.std.specs.Prelude.{IsErrOf, MatchOption, IfSome, option_copied};
ghost use Rattle.common.specs.Given.{MoreReads};
ghost use Rattle.spool_disk.specs.Disk.{Counts, IsImage, Preserves};
ghost use Rattle.spool_disk.specs.Views.{Lasts};
ghost use Rattle.spool_journal.specs.Image.{all_pages, text_page};
ghost use Rattle.spool_texts.specs.TextOn.{AllBelow};
ghost use Rattle.upload_rules.specs.Answers.{Answers};
ghost use Rattle.upload_rules.specs.Reading.{no_such, text_at, IsRead};
ghost use Rattle.upload_rules.specs.Records.{IsShort, RepresentsOf, above, with_number};
ghost use Rattle.upload_rules.specs.States.{IsSomeState};
ghost use Rattle.upload_rules.specs.Store.{Store, upload_of};
ghost use Rattle.spool_catalog.specs.Records.{IsInSlot};
ghost use Rattle.spool_catalog.specs.Holding.{IsOwnedBy};
ghost use Rattle.spool_catalog.specs.Holding.{IsUsedBy};
ghost use Rattle.spool_catalog.specs.Catalog.{HasView};
ghost use Rattle.spool_catalog.specs.Records.{HasTextOn, IsUploadOf, RepresentsValidOf};
ghost use Rattle.spool_catalog.specs.Shows.{Shows};
ghost use Rattle.spool_pages.specs.View.{View, Encodes};

use crate::catalog::Catalog;
use crate::order::{NumberedSlot, places_to, slot_of};
use common::{MOST_BLOCKS, SLOTS, Stop};
use enc_index::IndexSet;
use spool_blocks::BlockNo;
use spool_disk::Disk;
use spool_journal::PAGE;
use spool_texts::read_text;
use upload_rules::{Record, UploadError, UploadRefusal};

/// An upload of a catalog.
#[derive(Clone, Copy)]
pub struct CatalogUpload<'a> {
    /// Its record.
    pub upload: &'a Record,
    /// The blocks of its text by ordinal.
    pub list: &'a [BlockNo],
}

impl Catalog {
    /// The slot of a number.
    pub fn slot_of(&self, number: u64) -> Option<u32>
        ensures used { MatchOption result ((s : ℕ) → IsUsedBy self.now.slots s number → ⊥)
            (λ s. IsUsedBy self.now.slots s number) }
        ensures only { IfSome result (λ s. (t : ℕ) → IsUsedBy self.now.slots t number → t ≡ s) }
        ensures below { IfSome result (λ s. s < SLOTS) }
    {
        slot_of(&self.order, number)
    }

    /// The upload of a number.
    pub fn record(&self, number: u64) -> Option<&Record>
        ensures short { IfSome (option_copied result) IsShort }
        ensures valid { (v : View) (m : Store) → HasView self.now v → Shows v m
            → RepresentsValidOf m.indexes number (upload_of m number) (option_copied result) }
        ensures recorded { (v : View) (m : Store) → HasView self.now v → Shows v m
            → RepresentsOf m.indexes (with_number number (upload_of m number)) (option_copied result) }
    {
        let slot = self.slot_of(number)?;
        let catalog = self.in_slot(slot)?;
        Some(catalog.record())
    }

    /// The upload of a number, with the blocks of its text.
    pub fn upload(&self, number: u64) -> Option<CatalogUpload<'_>>
        ensures below { IfSome result (λ u. AllBelow self.now.layout u.list.now) }
        ensures long { IfSome result (λ u. u.upload.now.text_len ≤ PAGE * length u.list.now) }
        ensures few { IfSome result (λ u. length u.list.now ≤ MOST_BLOCKS) }
        ensures owned { IfSome result (λ u. IsOwnedBy self.now.slots self.now.blocks.rows number u.list.now) }
        ensures numbered { IfSome result (λ u. u.upload.now.number < self.now.next) }
        ensures in_slot { IfSome result (λ u. IsInSlot self.now.slots u.upload.now) }
        ensures state { IfSome result (λ u. IsSomeState u.upload.now.state) }
        ensures recorded { (v : View) (m : Store) → HasView self.now v → Shows v m
            → MatchOption result (upload_of m number ≡ None) (λ u. IsUploadOf m number u.upload.now) }
        ensures text { (v : View) (m : Store) (bytes : ℕ → ℕ) → HasView self.now v → Shows v m → Encodes bytes v
            → IfSome result (λ u. HasTextOn m number bytes (text_page self.now.layout) u.upload.now u.list.now) }
    {
        let slot = self.slot_of(number)?;
        let used = self.in_slot(slot)?;
        let list = self.list(slot);
        let _few = self.layout.blocks();
        Some(CatalogUpload {
            upload: used.record(),
            list,
        })
    }

    /// Reads a text's bytes from `at` on, as many as there are and fit: refused with `NoSuch` or `DiskFault`.
    pub fn read<D: Disk>(
        &self,
        disk: &mut D,
        number: u64,
        at: u64,
        buf: &mut [u8],
    ) -> Result<usize, UploadError>
        requires { PAGE * all_pages self.now.layout ≤ D.size disk.old }
        ensures size { D.size disk.new ≡ D.size disk.old }
        ensures honest { D.honest disk.old ↔ D.honest disk.new }
        ensures counts { Counts (IsErrOf result (UploadError.Stop Stop.DiskFault)) (D.failures disk.old)
            (D.failures disk.new) }
        ensures reads { MoreReads (D.reads disk.old) (D.reads disk.new) }
        ensures later { D.moment disk.old ≤ D.moment disk.new }
        ensures no_memory { IsErrOf result (UploadError.Stop Stop.NoMemory) → ⊥ }
        ensures count { (m : Store) (v : View) → HasView self.now v → Shows v m
            → Answers (no_such (upload_of m number)) result
            (λ n. n ≡ min (length (text_at m (upload_of m number)) - at) (length buf.old)) (Unit {0}) }
        ensures answer { D.honest disk.old → (m : Store) (v : View) → HasView self.now v → Shows v m
            → Encodes (D.current disk.old) v
            → Answers (no_such (upload_of m number)) result
            (λ n. IsRead (text_at m (upload_of m number)) at n buf.old buf.new) (Unit {0}) }
        ensures preserves { D.honest disk.old
            → Preserves (D.current disk.old) (D.current disk.new) (D.unsynced disk.old) (D.unsynced disk.new) }
        ensures lasts { D.honest disk.old
            → Lasts D.Disk disk.old disk.new (IsImage (D.current disk.old) (D.unsynced disk.old)) }
    {
        let Some(found) = self.upload(number) else {
            return Err(UploadError::Refused(UploadRefusal::NoSuch));
        };
        match read_text(
            disk,
            &self.layout,
            found.list,
            found.upload.text_len,
            at,
            buf,
        ) {
            Ok(count) => Ok(count),
            Err(_) => Err(UploadError::Stop(Stop::DiskFault)),
        }
    }

    /// The upload of the least number above this one.
    pub fn record_after(&self, number: u64) -> Option<&Record>
        ensures { (v : View) (m : Store) → HasView self.now v → Shows v m
            → RepresentsOf m.indexes (above number m.uploads) (option_copied result) }
    {
        let place = places_to(&self.order, number);
        let NumberedSlot { slot, .. } = *self.order.get(place)?;
        let catalog = self.in_slot(slot)?;
        Some(catalog.record())
    }

    /// The number that the next upload gets.
    pub fn next_number(&self) -> u64
        ensures same { result ≡ self.now.next }
        ensures recorded { (v : View) (m : Store) → HasView self.now v → Shows v m → result ≡ m.next }
    {
        self.next
    }

    /// The index files.
    pub fn indexes(&self) -> &IndexSet
        ensures { (v : View) (m : Store) → HasView self.now v → Shows v m → result.now ≡ m.indexes }
    {
        &self.indexes
    }
}
