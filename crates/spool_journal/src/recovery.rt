//! Recovery after a crash. It may crash too and be done again.
ghost use Rattle.std.specs.Prelude.{◌≡◌, ◌⊎◌, ◌≤◌, ◌<◌, ◌*◌, ◌+◌, ◌↔◌, ℕ, IsErr, IfOk, OnOk, ◌==◌, true, false, Err};
ghost use Rattle.std.specs.Prelude.{OnErr, ◌∷◌, []};
ghost use Rattle.spool_disk.specs.Disk.{IsImage, Counts};
ghost use Rattle.spool_disk.specs.Given.{Between, ReadsGave, ReadsOnce, given};
ghost use Rattle.spool_disk.specs.Views.{Lasts};
ghost use Rattle.spool_journal.specs.Image.{journal_pages, all_pages, replayed, overlaid, word, byte_of, area_end};
ghost use Rattle.spool_journal.specs.Image.{count, journal_number, InForm};
ghost use Rattle.spool_journal.specs.Phases.{Idle, ReadsAs, Still, Placing, Upto, Settled, HeadOf};

use crate::layout::{JOURNAL_PAGE, area_end, metadata_page};
use crate::places::{close_gate, place};
use crate::syncs::sync_places;
use crate::{GATE, HEAD, JOURNAL, Layout, OPEN, PAGE, RecoverError};
use spool_disk::{Disk, DiskFault};

// Syncs, so that what a read gives can't change any more.
fn settle<D: Disk>(disk: &mut D) -> Result<(), DiskFault>
    ensures size { D.size disk.new ≡ D.size disk.old }
    ensures honest { D.honest disk.old ↔ D.honest disk.new }
    ensures counts { Counts (IsErr result) (D.failures disk.old) (D.failures disk.new) }
    ensures reads { D.reads disk.new ≡ D.reads disk.old }
    ensures still { D.honest disk.old → OnOk result (Still (D.current disk.old) (D.current disk.new)
        (D.unsynced disk.new)) }
    ensures lasts { D.honest disk.old → Lasts D.Disk disk.old disk.new
        (IsImage (D.current disk.old) (D.unsynced disk.old)) }
{
    disk.sync()
}

// Whether the gate is open.
#[tactic(auto, using(crate::proofs::Recovers::gate_is))]
fn is_open<D: Disk>(disk: &mut D) -> Result<bool, DiskFault>
    requires { HEAD ≤ D.size disk.old }
    ensures size { D.size disk.new ≡ D.size disk.old }
    ensures honest { D.honest disk.old ↔ D.honest disk.new }
    ensures counts { Counts (IsErr result) (D.failures disk.old) (D.failures disk.new) }
    ensures given { IfOk result (λ shown. (gate : ℕ)
        × (D.reads disk.new ≡ given PAGE (gate ∷ []) ∷ D.reads disk.old) × (shown ≡ (gate == OPEN))) }
    ensures none { OnErr result (D.reads disk.new ≡ D.reads disk.old) }
    ensures still { D.honest disk.old → (bytes : ℕ → ℕ) → Still bytes (D.current disk.old) (D.unsynced disk.old)
        → Still bytes (D.current disk.new) (D.unsynced disk.new) }
    ensures open { D.honest disk.old → (bytes : ℕ → ℕ) → Still bytes (D.current disk.old) (D.unsynced disk.old)
        → IfOk result (λ shown. shown ≡ (bytes PAGE == OPEN)) }
    ensures lasts { D.honest disk.old → (bytes : ℕ → ℕ) → Still bytes (D.current disk.old) (D.unsynced disk.old)
        → Lasts D.Disk disk.old disk.new (λ image. (p : ℕ) → image p ≡ bytes p) }
{
    let mut gate = [0];
    disk.read(GATE, &mut gate)?;
    Ok(gate[0] == OPEN)
}

// Reads the journal's head.
fn read_head<D: Disk>(disk: &mut D, head: &mut [u8; PAGE]) -> Result<(), DiskFault>
    requires { JOURNAL ≤ D.size disk.old }
    ensures size { D.size disk.new ≡ D.size disk.old }
    ensures honest { D.honest disk.old ↔ D.honest disk.new }
    ensures counts { Counts (IsErr result) (D.failures disk.old) (D.failures disk.new) }
    ensures reads { ReadsOnce (Between HEAD JOURNAL) (D.reads disk.old) (D.reads disk.new) }
    ensures still { D.honest disk.old → (bytes : ℕ → ℕ) → Still bytes (D.current disk.old) (D.unsynced disk.old)
        → Still bytes (D.current disk.new) (D.unsynced disk.new) }
    ensures head { D.honest disk.old → (bytes : ℕ → ℕ) → Still bytes (D.current disk.old) (D.unsynced disk.old)
        → OnOk result (HeadOf bytes head.new) }
    ensures lasts { D.honest disk.old → (bytes : ℕ → ℕ) → Still bytes (D.current disk.old) (D.unsynced disk.old)
        → Lasts D.Disk disk.old disk.new (λ image. (p : ℕ) → image p ≡ bytes p) }
    ensures gave { (bytes : ℕ → ℕ) → ReadsGave bytes (D.reads disk.old) (D.reads disk.new)
        → OnOk result (HeadOf bytes head.new) }
{
    disk.read(HEAD, head)
}

// The number in four bytes, the highest first.
#[tactic(auto, unfolding(crate::specs::Image::word))]
fn get_word(head: &[u8; PAGE], at: usize) -> u32
    requires { at + 4 ≤ PAGE }
    ensures { result ≡ word (byte_of head.now) at }
{
    u32::from_be_bytes([head[at], head[at + 1], head[at + 2], head[at + 3]])
}

// Whether the journal's head is valid.
fn is_in_form(head: &[u8; PAGE], journal: u32) -> bool
    requires { journal ≤ 385 }
    ensures yes { result ≡ true
        → InForm journal (word (byte_of head.now) 0) (λ k. word (byte_of head.now) (4 + 4 * k)) }
    ensures no { result ≡ false → InForm journal (word (byte_of head.now) 0) (λ k. word (byte_of head.now) (4 + 4 * k))
        → ⊥ }
{
    let count = get_word(head, 0);
    if count == 0 || count > journal {
        return false;
    }
    let mut least = metadata_page(journal);
    for k in 0..count as usize {
        let number = get_word(head, 4 + 4 * k);
        if number < least || number >= area_end(journal) {
            return false;
        }
        least = number + 1;
    }
    true
}

// Copies a journal page to its place.
fn copy_page<D: Disk>(disk: &mut D, from: u32, to: u32) -> Result<(), DiskFault>
    requires from { PAGE * (from + 1) ≤ D.size disk.old }
    requires to { PAGE * (to + 1) ≤ D.size disk.old }
    ensures size { D.size disk.new ≡ D.size disk.old }
    ensures honest { D.honest disk.old ↔ D.honest disk.new }
    ensures counts { Counts (IsErr result) (D.failures disk.old) (D.failures disk.new) }
    ensures reads { ReadsOnce (Between (PAGE * from) (PAGE * (from + 1))) (D.reads disk.old) (D.reads disk.new) }
    ensures placing { D.honest disk.old → (j i : ℕ) (opened : ℕ → ℕ) → Placing j opened (D.current disk.old)
        (D.unsynced disk.old) → i < count opened → journal_number opened i ≡ to → Placing j opened (D.current disk.new)
        (D.unsynced disk.new) }
    ensures upto { D.honest disk.old → (j i : ℕ) (opened : ℕ → ℕ) → Placing j opened (D.current disk.old)
        (D.unsynced disk.old) → Upto opened (D.current disk.old) i → i < count opened → journal_number opened i ≡ to
        → from ≡ JOURNAL_PAGE + i
        → OnOk result (Upto opened (D.current disk.new) (i + 1)) }
    ensures lasts { D.honest disk.old → (j i : ℕ) → j ≤ 385 → (opened : ℕ → ℕ)
        → Placing j opened (D.current disk.old) (D.unsynced disk.old) → i < count opened → journal_number opened i ≡ to
        → Lasts D.Disk disk.old disk.new (λ image. ReadsAs j image (replayed opened)) }
{
    let mut bytes = [0; PAGE];
    disk.read(PAGE as u64 * from as u64, &mut bytes)?;
    place(disk, to, &bytes)
}

// Copies every journal page to its place.
fn replay<D: Disk>(disk: &mut D, head: &[u8; PAGE], journal: u32) -> Result<(), DiskFault>
    requires few { journal ≤ 385 }
    requires form { InForm journal (word (byte_of head.now) 0) (λ k. word (byte_of head.now) (4 + 4 * k)) }
    requires room { PAGE * area_end journal ≤ D.size disk.old }
    ensures size { D.size disk.new ≡ D.size disk.old }
    ensures honest { D.honest disk.old ↔ D.honest disk.new }
    ensures counts { Counts (IsErr result) (D.failures disk.old) (D.failures disk.new) }
    ensures reads { ReadsOnce (Between JOURNAL (PAGE * (JOURNAL_PAGE + journal))) (D.reads disk.old)
        (D.reads disk.new) }
    ensures placing { D.honest disk.old → (opened : ℕ → ℕ) → HeadOf opened head.now
        → Placing journal opened (D.current disk.old) (D.unsynced disk.old)
        → Placing journal opened (D.current disk.new)
        (D.unsynced disk.new) }
    ensures upto { D.honest disk.old → (opened : ℕ → ℕ) → HeadOf opened head.now
        → Placing journal opened (D.current disk.old) (D.unsynced disk.old) → Upto opened (D.current disk.old) 0
        → OnOk result (Upto opened (D.current disk.new) (count opened)) }
    ensures lasts { D.honest disk.old → (opened : ℕ → ℕ) → HeadOf opened head.now
        → Placing journal opened (D.current disk.old) (D.unsynced disk.old) → Lasts D.Disk disk.old disk.new
        (λ image. ReadsAs journal image (replayed opened)) }
{
    let count = get_word(head, 0);
    for k in 0..count {
        let number = get_word(head, 4 + 4 * k as usize);
        copy_page(disk, JOURNAL_PAGE + k, number)?;
    }
    Ok(())
}

// Copies the journal's pages to their places, and closes the gate.
fn replay_all<D: Disk>(disk: &mut D, head: &[u8; PAGE], journal: u32) -> Result<(), DiskFault>
    requires few { journal ≤ 385 }
    requires form { InForm journal (word (byte_of head.now) 0) (λ k. word (byte_of head.now) (4 + 4 * k)) }
    requires room { PAGE * area_end journal ≤ D.size disk.old }
    ensures size { D.size disk.new ≡ D.size disk.old }
    ensures honest { D.honest disk.old ↔ D.honest disk.new }
    ensures counts { Counts (IsErr result) (D.failures disk.old) (D.failures disk.new) }
    ensures reads { ReadsOnce (Between JOURNAL (PAGE * (JOURNAL_PAGE + journal))) (D.reads disk.old)
        (D.reads disk.new) }
    ensures settled { D.honest disk.old → (bytes : ℕ → ℕ) → HeadOf bytes head.now
        → Still bytes (D.current disk.old) (D.unsynced disk.old) → bytes PAGE ≡ OPEN
        → OnOk result (Settled journal (replayed bytes) (D.current disk.new) (D.unsynced disk.new)) }
    ensures lasts { D.honest disk.old → (bytes : ℕ → ℕ) → HeadOf bytes head.now
        → Still bytes (D.current disk.old) (D.unsynced disk.old) → bytes PAGE ≡ OPEN
        → Lasts D.Disk disk.old disk.new (λ image. ReadsAs journal image (replayed bytes)) }
{
    replay(disk, head, journal)?;
    sync_places(disk)?;
    close_gate(disk)
}

// Replays the journal of an open gate.
fn mend<D: Disk>(disk: &mut D, journal: u32) -> Result<(), RecoverError>
    requires few { journal ≤ 385 }
    requires room { PAGE * area_end journal ≤ D.size disk.old }
    requires page { JOURNAL ≤ D.size disk.old }
    ensures size { D.size disk.new ≡ D.size disk.old }
    ensures honest { D.honest disk.old ↔ D.honest disk.new }
    ensures counts { Counts (result ≡ Err RecoverError.DiskFault) (D.failures disk.old) (D.failures disk.new) }
    ensures reads { ReadsOnce (Between HEAD (PAGE * (JOURNAL_PAGE + journal))) (D.reads disk.old)
        (D.reads disk.new) }
    ensures settled { D.honest disk.old → (bytes : ℕ → ℕ) → Still bytes (D.current disk.old) (D.unsynced disk.old)
        → bytes PAGE ≡ OPEN
        → OnOk result (Settled journal (replayed bytes) (D.current disk.new) (D.unsynced disk.new)) }
    ensures form { D.honest disk.old → (bytes : ℕ → ℕ) → Still bytes (D.current disk.old) (D.unsynced disk.old)
        → OnOk result (InForm journal (count bytes) (journal_number bytes)) }
    ensures damaged { D.honest disk.old → (bytes : ℕ → ℕ) → Still bytes (D.current disk.old) (D.unsynced disk.old)
        → result ≡ Err RecoverError.Damaged → InForm journal (count bytes) (journal_number bytes) → ⊥ }
    ensures lasts { D.honest disk.old → (bytes : ℕ → ℕ) → Still bytes (D.current disk.old) (D.unsynced disk.old)
        → bytes PAGE ≡ OPEN → Lasts D.Disk disk.old disk.new
        (λ image. ((p : ℕ) → image p ≡ bytes p) ⊎ ReadsAs journal image (replayed bytes)) }
    ensures gave_form { (bytes : ℕ → ℕ) → ReadsGave bytes (D.reads disk.old) (D.reads disk.new)
        → OnOk result (InForm journal (count bytes) (journal_number bytes)) }
    ensures gave_damaged { (bytes : ℕ → ℕ) → ReadsGave bytes (D.reads disk.old) (D.reads disk.new)
        → result ≡ Err RecoverError.Damaged → InForm journal (count bytes) (journal_number bytes) → ⊥ }
{
    let mut head = [0; PAGE];
    read_head(disk, &mut head)?;
    if !is_in_form(&head, journal) {
        return Err(RecoverError::Damaged);
    }
    replay_all(disk, &head, journal)?;
    Ok(())
}

/// Recovers a disk after a crash: if the gate is open, the journal's pages are written to their places and synced, and
/// the gate is closed. It allocates nothing and may be tried again after a fault.
///
/// # Errors
///
/// `DiskFault`. `Damaged` if the gate is open and the journal's head has a count other than 1 to J, or page numbers
/// that don't ascend or lie outside the metadata; no byte was written then.
pub fn recover<D: Disk>(disk: &mut D, layout: &Layout) -> Result<(), RecoverError>
    requires { PAGE * all_pages layout.now ≤ D.size disk.old }
    ensures size { D.size disk.new ≡ D.size disk.old }
    ensures honest { D.honest disk.old ↔ D.honest disk.new }
    ensures counts { Counts (result ≡ Err RecoverError.DiskFault) (D.failures disk.old) (D.failures disk.new) }

    // It reads places of the gate's page, the head and the journal's pages, and none twice.
    ensures reads { ReadsOnce (Between PAGE (PAGE * (JOURNAL_PAGE + journal_pages layout.now))) (D.reads disk.old)
        (D.reads disk.new) }

    // Every crash image then is what a plain reading gave, except for the gate and the journal.
    ensures settled { D.honest disk.old → OnOk result
        (Settled (journal_pages layout.now) (overlaid (D.current disk.old)) (D.current disk.new)
        (D.unsynced disk.new)) }

    // A commit may follow.
    ensures idle { D.honest disk.old → OnOk result
        (Idle (journal_pages layout.now) (D.current disk.new) (D.unsynced disk.new)) }

    // `Damaged` is answered exactly for an open gate with an invalid head.
    ensures form { D.honest disk.old → OnOk result
        (D.current disk.old PAGE ≡ OPEN → InForm (journal_pages layout.now) (count (D.current disk.old))
        (journal_number (D.current disk.old))) }
    ensures damaged { D.honest disk.old → result ≡ Err RecoverError.Damaged
        → (D.current disk.old PAGE ≡ OPEN) × (InForm (journal_pages layout.now) (count (D.current disk.old))
        (journal_number (D.current disk.old)) → ⊥) }

    // A crash during the recovery leaves an image of before, or one that reads the same.
    ensures lasts { D.honest disk.old → Lasts D.Disk disk.old disk.new
        (λ image. IsImage (D.current disk.old) (D.unsynced disk.old) image ⊎ ReadsAs (journal_pages layout.now) image
        (overlaid (D.current disk.old))) }

    // With a closed gate nothing is written: every crash image is one of before, and a read gives the same.
    ensures unwritten { D.honest disk.old → (D.current disk.old PAGE ≡ OPEN → ⊥)
        → Lasts D.Disk disk.old disk.new (IsImage (D.current disk.old) (D.unsynced disk.old)) }
    ensures same { D.honest disk.old → (D.current disk.old PAGE ≡ OPEN → ⊥) → (result ≡ Err RecoverError.DiskFault → ⊥)
        → Still (D.current disk.old) (D.current disk.new) (D.unsynced disk.new) }

    // What holds of every disk, of the bytes that its reads gave.
    ensures gave_form { (bytes : ℕ → ℕ) → ReadsGave bytes (D.reads disk.old) (D.reads disk.new)
        → OnOk result (bytes PAGE ≡ OPEN → InForm (journal_pages layout.now) (count bytes) (journal_number bytes)) }
    ensures gave_damaged { (bytes : ℕ → ℕ) → ReadsGave bytes (D.reads disk.old) (D.reads disk.new)
        → result ≡ Err RecoverError.Damaged
        → (bytes PAGE ≡ OPEN) × (InForm (journal_pages layout.now) (count bytes) (journal_number bytes) → ⊥) }
{
    settle(disk)?;
    if is_open(disk)? {
        mend(disk, layout.journal())
    } else {
        Ok(())
    }
}
