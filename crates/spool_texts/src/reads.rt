//! Reading a piece of a text.
ghost use Rattle.std.specs.Prelude.{◌≡◌, ◌≢◌, ◌<◌, ◌≤◌, ◌*◌, ◌+◌, ◌-◌, ◌↔◌, length, get_or, min, IsErr, IfOk};
ghost use Rattle.common.specs.Given.{MoreReads};
ghost use Rattle.spool_disk.specs.Disk.{Counts, IsImage, Preserves};
ghost use Rattle.spool_disk.specs.Views.{Lasts};
ghost use Rattle.spool_journal.specs.Image.{all_pages, text_page};
ghost use Rattle.spool_texts.specs.Reading.{IsRead, IsPiece, Follow};
ghost use Rattle.spool_texts.specs.TextOn.{text_on, AllBelow};

use spool_blocks::BlockNo;
use spool_disk::{Disk, DiskFault};
use spool_journal::{Layout, PAGE};

/// Reads bytes of a text of `len` bytes on the listed blocks, from `at` on, as many as there are and as fit. Returns
/// their count. Adjacent blocks are read by one call. It allocates nothing.
///
/// # Errors
///
/// `DiskFault`.
pub fn read_text<D: Disk>(
    disk: &mut D,
    layout: &Layout,
    list: &[BlockNo],
    len: u64,
    at: u64,
    buf: &mut [u8],
) -> Result<usize, DiskFault>
    requires room { PAGE * all_pages layout.now ≤ D.size disk.old }
    requires blocks { AllBelow layout.now list.now }
    requires long { len ≤ PAGE * length list.now }
    ensures size { D.size disk.new ≡ D.size disk.old }
    ensures honest { D.honest disk.old ↔ D.honest disk.new }
    ensures counts { Counts (IsErr result) (D.failures disk.old) (D.failures disk.new) }
    ensures reads { MoreReads (D.reads disk.old) (D.reads disk.new) }
    ensures later { D.moment disk.old ≤ D.moment disk.new }
    ensures count { IfOk result (λ n. n ≡ min (len - at) (length buf.old)) }
    ensures read { D.honest disk.old → IfOk result
        (λ n. IsRead (text_on (D.current disk.old) (text_page layout.now) list.now len) at n buf.old
        buf.new) }
    ensures preserves { D.honest disk.old
        → Preserves (D.current disk.old) (D.current disk.new) (D.unsynced disk.old) (D.unsynced disk.new) }
    ensures lasts { D.honest disk.old → Lasts D.Disk disk.old disk.new
        (IsImage (D.current disk.old) (D.unsynced disk.old)) }
{
    let count = len.saturating_sub(at).min(buf.len() as u64) as usize;
    let mut done = 0;
    while done < count {
        done += read_piece(disk, layout, list, at + done as u64, &mut buf[done..count])?;
    }
    Ok(count)
}

// Reads bytes from a place on the listed blocks by one call: as many as fit and lie on adjacent blocks.
fn read_piece<D: Disk>(
    disk: &mut D,
    layout: &Layout,
    list: &[BlockNo],
    at: u64,
    buf: &mut [u8],
) -> Result<usize, DiskFault>
    requires room { PAGE * all_pages layout.now ≤ D.size disk.old }
    requires blocks { AllBelow layout.now list.now }
    requires long { at + length buf.old ≤ PAGE * length list.now }
    requires some { 1 ≤ length buf.old }
    ensures size { D.size disk.new ≡ D.size disk.old }
    ensures honest { D.honest disk.old ↔ D.honest disk.new }
    ensures counts { Counts (IsErr result) (D.failures disk.old) (D.failures disk.new) }
    ensures reads { MoreReads (D.reads disk.old) (D.reads disk.new) }
    ensures later { D.moment disk.old ≤ D.moment disk.new }
    ensures some { IfOk result (λ n. 1 ≤ n) }
    ensures within { IfOk result (λ n. n ≤ length buf.old) }
    ensures piece { D.honest disk.old → IfOk result
        (λ n. IsPiece (D.current disk.old) (text_page layout.now) list.now at n buf.old buf.new) }
    ensures preserves { D.honest disk.old
        → Preserves (D.current disk.old) (D.current disk.new) (D.unsynced disk.old) (D.unsynced disk.new) }
    ensures lasts { D.honest disk.old → Lasts D.Disk disk.old disk.new
        (IsImage (D.current disk.old) (D.unsynced disk.old)) }
{
    let index = (at / PAGE as u64) as usize;
    let offset = (at % PAGE as u64) as usize;
    let page = layout.block_page(list[index]);
    let count = run(list, index, (offset + buf.len()).div_ceil(PAGE));
    let n = buf.len().min(PAGE * count - offset);
    disk.read(PAGE as u64 * page as u64 + offset as u64, &mut buf[..n])?;
    Ok(n)
}

// How many of the listed blocks from an index on are adjacent, up to `most`.
fn run(list: &[BlockNo], at: usize, most: usize) -> usize
    requires at { at < length list.now }
    requires most { 1 ≤ most }
    ensures some { 1 ≤ result }
    ensures few { result ≤ most }
    ensures within { at + result ≤ length list.now }
    ensures follow { Follow list.now at result }
    ensures longest { result < most → at + result < length list.now
        → get_or list.now (at + result) 0 ≢ get_or list.now at 0 + result }
{
    let mut count = 1;
    while count < most
        && at + count < list.len()
        && list[at + count] as usize == list[at] as usize + count
    {
        count += 1;
    }
    count
}
