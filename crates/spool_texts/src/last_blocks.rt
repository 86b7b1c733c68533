//! The bytes of a text on its last blocks, read and written.

ghost use Rattle.std.specs.Prelude.{◌≡◌, ◌≤◌, ◌<◌, ◌≢◌, ◌*◌, ◌+◌, ◌-◌, ◌/◌, ◌++◌, ◌↔◌, ℕ, [], length, take, replicate};
ghost use Rattle.std.specs.Prelude.{get_or, IsErr, OnOk};
ghost use Rattle.spool_journal.specs.declared.TheConstants.{PAGE};
ghost use Rattle.spool_disk.specs.Disk.{Counts, IsImage, Preserves};
ghost use Rattle.spool_disk.specs.Views.{Lasts};
ghost use Rattle.spool_journal.specs.Image.{journal_pages, all_pages, text_page};
ghost use Rattle.spool_journal.specs.Phases.{Idle};
ghost use Rattle.spool_texts.specs.Drafts.{bytes_with, prefix_on, tail_list};
ghost use Rattle.spool_texts.specs.TextOn.{text_on, AllBelow};
ghost use Rattle.spool_texts.specs.Written.{WritesIn, IsImageBut};

use crate::read_text;
use spool_blocks::BlockNo;
use spool_disk::{Disk, DiskFault};
use spool_journal::{Layout, PAGE};

/// Reads the first bytes of the block, if there is one.
pub fn read_tail<D: Disk>(
    disk: &mut D,
    layout: &Layout,
    tail: Option<BlockNo>,
    len: usize,
    page: &mut [u8],
) -> Result<(), DiskFault>
    requires room { PAGE * all_pages layout.now ≤ D.size disk.old }
    requires below { AllBelow layout.now (tail_list tail) }
    requires few { len < PAGE }
    requires page { length page.old ≡ PAGE }
    requires zeros { take len page.old ≡ replicate len 0 }
    ensures size { D.size disk.new ≡ D.size disk.old }
    ensures honest { D.honest disk.old ↔ D.honest disk.new }
    ensures counts { Counts (IsErr result) (D.failures disk.old) (D.failures disk.new) }
    ensures unread { tail_list tail ≡ [] → disk.new ≡ disk.old }
    ensures tail { D.honest disk.old → OnOk result
        (take len page.new ≡ prefix_on (D.current disk.old) (text_page layout.now) tail len) }
    ensures preserves { D.honest disk.old
        → Preserves (D.current disk.old) (D.current disk.new) (D.unsynced disk.old) (D.unsynced disk.new) }
    ensures lasts { D.honest disk.old → Lasts D.Disk disk.old disk.new
        (IsImage (D.current disk.old) (D.unsynced disk.old)) }
{
    let Some(block) = tail else {
        return Ok(());
    };
    read_text(disk, layout, &[block], len as u64, 0, &mut page[..len])?;
    Ok(())
}

/// Writes bytes to the start of the last listed block.
pub fn write_prefix<D: Disk>(
    disk: &mut D,
    layout: &Layout,
    list: &[BlockNo],
    bytes: &[u8],
) -> Result<(), DiskFault>
    requires room { PAGE * all_pages layout.now ≤ D.size disk.old }
    requires blocks { AllBelow layout.now list.now }
    requires distinct { (i k : ℕ) → i < k → k < length list.now → get_or list.now i 0 ≢ get_or list.now k 0 }
    requires some { 1 ≤ length list.now }
    requires fits { length bytes.now ≤ PAGE }
    ensures size { D.size disk.new ≡ D.size disk.old }
    ensures honest { D.honest disk.old ↔ D.honest disk.new }
    ensures counts { Counts (IsErr result) (D.failures disk.old) (D.failures disk.new) }
    ensures text { D.honest disk.old → OnOk result
        (text_on (D.current disk.new) (text_page layout.now) list.now
        (PAGE * (length list.now - 1) + length bytes.now) ≡ text_on (D.current disk.old)
        (text_page layout.now) list.now (PAGE * (length list.now - 1)) ++ bytes.now) }
    ensures writes { D.honest disk.old → WritesIn (text_page layout.now) list.now (D.current disk.old)
        (D.current disk.new) (D.unsynced disk.old) (D.unsynced disk.new) }
    ensures idle { D.honest disk.old → Idle (journal_pages layout.now) (D.current disk.old) (D.unsynced disk.old)
        → Idle (journal_pages layout.now) (D.current disk.new) (D.unsynced disk.new) }
    ensures lasts { D.honest disk.old → Lasts D.Disk disk.old disk.new
        (IsImageBut (text_page layout.now) list.now (D.current disk.old) (D.unsynced disk.old)) }
{
    let page = layout.block_page(list[list.len() - 1]);
    disk.write_at(PAGE as u64 * page as u64, bytes)
}

/// Writes the last bytes of a text to the last of the listed blocks, without a sync.
///
/// # Errors
///
/// `DiskFault`.
pub fn write_last<D: Disk>(
    disk: &mut D,
    layout: &Layout,
    list: &[BlockNo],
    last: &[u8],
) -> Result<(), DiskFault>
    requires room { PAGE * all_pages layout.now ≤ D.size disk.old }
    requires blocks { AllBelow layout.now list.now }
    requires distinct { (i k : ℕ) → i < k → k < length list.now → get_or list.now i 0 ≢ get_or list.now k 0 }
    ensures size { D.size disk.new ≡ D.size disk.old }
    ensures honest { D.honest disk.old ↔ D.honest disk.new }
    ensures counts { Counts (IsErr result) (D.failures disk.old) (D.failures disk.new) }
    ensures written { D.honest disk.old → OnOk result ((length last.now + 4095) / PAGE ≤ length list.now
        → text_on (D.current disk.new) (text_page layout.now) list.now
        (length (bytes_with (D.current disk.old) (text_page layout.now) list.now last.now)) ≡ bytes_with
        (D.current disk.old) (text_page layout.now) list.now last.now) }
    ensures writes { D.honest disk.old → WritesIn (text_page layout.now) list.now (D.current disk.old)
        (D.current disk.new) (D.unsynced disk.old) (D.unsynced disk.new) }
    ensures lasts { D.honest disk.old → Lasts D.Disk disk.old disk.new
        (IsImageBut (text_page layout.now) list.now (D.current disk.old) (D.unsynced disk.old)) }
{
    let full = list.len().saturating_sub(last.len().div_ceil(PAGE));
    for at in full..list.len() {
        let from = PAGE * (at - full);
        let to = last.len().min(from + PAGE);
        write_prefix(disk, layout, &list[..at + 1], &last[from..to])?;
    }
    Ok(())
}
