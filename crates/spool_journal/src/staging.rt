//! The first half of a commit: the journal is written while the gate is closed.
ghost use Rattle.std.specs.Prelude.{◌≡◌, ◌≤◌, ◌<◌, ◌*◌, ◌+◌, ◌↔◌, ℕ, length, IsErr, OnOk};
ghost use Rattle.spool_disk.specs.Disk.{Counts, Apart};
ghost use Rattle.spool_disk.specs.Views.{Lasts};
ghost use Rattle.spool_journal.specs.Image.{word, byte_of, page_number, InArea, Ascends};
ghost use Rattle.spool_journal.specs.Phases.{Idle, IsBefore, Staging, Copied, Ready};

use crate::layout::JOURNAL_PAGE;
use crate::{HEAD, JOURNAL, PAGE};
use spool_disk::{Disk, DiskFault};

// Writes each page to its journal page.
fn stage_pages<D: Disk>(disk: &mut D, items: &[(u32, [u8; PAGE])]) -> Result<(), DiskFault>
    requires few { length items.now ≤ 385 }
    requires room { PAGE * (JOURNAL_PAGE + length items.now) ≤ D.size disk.old }
    ensures size { D.size disk.new ≡ D.size disk.old }
    ensures honest { D.honest disk.old ↔ D.honest disk.new }
    ensures counts { Counts (IsErr result) (D.failures disk.old) (D.failures disk.new) }
    ensures reads { D.reads disk.new ≡ D.reads disk.old }
    ensures staging { D.honest disk.old → (j : ℕ) → length items.now ≤ j
        → Staging j (D.current disk.old) (D.unsynced disk.old) (D.current disk.new) (D.unsynced disk.new) }
    ensures copied { D.honest disk.old → OnOk result (Copied items.now (D.current disk.new) (length items.now)) }
    ensures lasts { D.honest disk.old → (j : ℕ) → length items.now ≤ j
        → Idle j (D.current disk.old) (D.unsynced disk.old)
        → Lasts D.Disk disk.old disk.new (IsBefore j (D.current disk.old) (D.unsynced disk.old)) }
{
    for i in 0..items.len() {
        disk.write_at(PAGE as u64 * (JOURNAL_PAGE as u64 + i as u64), &items[i].1)?;
    }
    Ok(())
}

// Stores a number in four bytes, the highest first.
#[tactic(auto, unfolding(crate::specs::Image::word))]
fn put_word(head: &mut [u8; PAGE], at: usize, value: u32)
    requires { at + 4 ≤ PAGE }
    ensures word { word (byte_of head.new) at ≡ value }
    ensures others { (other : ℕ) → Apart other 4 at 4 → word (byte_of head.new) other ≡ word (byte_of head.old) other }
{
    head[at..at + 4].copy_from_slice(&value.to_be_bytes());
}

// The journal's head for these pages.
fn head_of(items: &[(u32, [u8; PAGE])]) -> [u8; PAGE]
    requires { length items.now ≤ 385 }
    ensures count { word (byte_of result) 0 ≡ length items.now }
    ensures numbers { (k : ℕ) → k < length items.now → word (byte_of result) (4 + 4 * k) ≡ page_number items.now k }
{
    let mut head = [0; PAGE];
    put_word(&mut head, 0, items.len() as u32);
    for i in 0..items.len() {
        put_word(&mut head, 4 + 4 * i, items[i].0);
    }
    head
}

// Writes the journal's head, and syncs.
fn write_head<D: Disk>(disk: &mut D, head: &[u8; PAGE]) -> Result<(), DiskFault>
    requires { JOURNAL ≤ D.size disk.old }
    ensures size { D.size disk.new ≡ D.size disk.old }
    ensures honest { D.honest disk.old ↔ D.honest disk.new }
    ensures counts { Counts (IsErr result) (D.failures disk.old) (D.failures disk.new) }
    ensures reads { D.reads disk.new ≡ D.reads disk.old }
    ensures staging { D.honest disk.old → OnOk result
        ((j : ℕ) → Staging j (D.current disk.old) (D.unsynced disk.old) (D.current disk.new) (D.unsynced disk.new)) }
    ensures is_synced { D.honest disk.old → OnOk result ((p : ℕ) → D.unsynced disk.new p → ⊥) }
    ensures head { D.honest disk.old → OnOk result
        ((i : ℕ) → i < PAGE → D.current disk.new (HEAD + i) ≡ byte_of head.now i) }
    ensures unchanged { D.honest disk.old → OnOk result ((p : ℕ) → JOURNAL ≤ p
        → D.current disk.new p ≡ D.current disk.old p) }
    ensures lasts { D.honest disk.old → (j : ℕ) → Idle j (D.current disk.old) (D.unsynced disk.old)
        → Lasts D.Disk disk.old disk.new (IsBefore j (D.current disk.old) (D.unsynced disk.old)) }
{
    disk.write_at(HEAD, head)?;
    disk.sync()
}

/// Writes the journal's pages and its head, and syncs.
pub(crate) fn stage<D: Disk>(disk: &mut D, items: &[(u32, [u8; PAGE])]) -> Result<(), DiskFault>
    requires some { 1 ≤ length items.now }
    requires few { length items.now ≤ 385 }
    requires room { PAGE * (JOURNAL_PAGE + length items.now) ≤ D.size disk.old }
    ensures size { D.size disk.new ≡ D.size disk.old }
    ensures honest { D.honest disk.old ↔ D.honest disk.new }
    ensures counts { Counts (IsErr result) (D.failures disk.old) (D.failures disk.new) }
    ensures reads { D.reads disk.new ≡ D.reads disk.old }
    ensures ready { D.honest disk.old → (j : ℕ) → length items.now ≤ j → InArea j items.now → Ascends items.now
        → OnOk result (Ready j items.now (D.current disk.old) (D.current disk.new) (D.unsynced disk.new)) }
    ensures lasts { D.honest disk.old → (j : ℕ) → length items.now ≤ j
        → Idle j (D.current disk.old) (D.unsynced disk.old)
        → Lasts D.Disk disk.old disk.new (IsBefore j (D.current disk.old) (D.unsynced disk.old)) }
{
    stage_pages(disk, items)?;
    let head = head_of(items);
    write_head(disk, &head)
}
