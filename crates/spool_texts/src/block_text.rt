//! The new text of a draft.

ghost use Rattle.std.specs.Prelude.{◌≡◌, ◌≤◌, ◌<◌, ◌*◌, ◌+◌, ◌-◌, ◌/◌, ◌%◌, ◌++◌, ◌^◌, ◌↔◌, ◌⊎◌, ℕ, [], length, take};
ghost use Rattle.std.specs.Prelude.{min, None, Some, IsOk, IsErr, IsErrOf, IfOk, OnOk, OnErr, vec_capacity};
ghost use Rattle.common.specs.declared.limits.TheConstants.{MOST_BLOCKS};
ghost use Rattle.spool_journal.specs.declared.TheConstants.{PAGE};
ghost use Rattle.spool_blocks.specs.Blocks.{IsFree};
ghost use Rattle.spool_disk.specs.Disk.{Counts, IsImage, Preserves};
ghost use Rattle.spool_disk.specs.Views.{Lasts};
ghost use Rattle.spool_journal.specs.Image.{journal_pages, all_pages, text_page};
ghost use Rattle.spool_journal.specs.Phases.{Idle};
ghost use Rattle.spool_texts.specs.Drafts.{Draft, full_count, held_count, content_on, bytes_with, IsReserved, Takes};
ghost use Rattle.spool_texts.specs.Drafts.{GivesBack, tail_on, len_of, draft_bytes, count_with, without_block};
ghost use Rattle.spool_texts.specs.Drafts.{IsNothingAfter};
ghost use Rattle.spool_texts.specs.TextOn.{AllBelow};
ghost use Rattle.spool_texts.specs.Written.{WritesIn, IsImageBut, aside_blocks};
ghost use Rattle.spool_texts.specs.declared.block_text.Unread.{Unread};

use crate::DraftError;
use crate::last_blocks::{read_tail, write_prefix};
use crate::reserving::{take_block, take_blocks};
use common::{MOST_BLOCKS, Stop};
use spool_blocks::{BlockNo, Blocks};
use spool_disk::{Disk, DiskFault};
use spool_journal::{Layout, PAGE};
use std::alloc::{AllocError, Global};
use std::marker::Model;

/// The new text of a draft, which follows a committed text. Before its first byte it has neither memory nor blocks. If
/// it is dropped without `give_back` or `into_list`, its blocks stay reserved.
#[derive(Drop)]
pub struct BlockText {
    // The bytes that come first, until they are in memory.
    unread: Option<Unread>,
    blocks: Vec<BlockNo>,
    // A page with the bytes of the unfinished block at its start; nothing before the first byte.
    page: Vec<u8>,
    filled: usize,
}

/// The committed text's bytes after its last full block.
#[derive(Clone, Copy, Drop)]
struct Unread {
    // Their block. Without one, zeros take their place.
    block: Option<BlockNo>,
    len: usize,
}

impl Model for BlockText {
    ghost Value = { Draft };

    ghost view = { λ d. record {
      unread = d.unread;
      blocks = d.blocks.items;
      unfinished = take d.filled d.page.items;
      room = vec_capacity d.blocks;
    } };

    ghost invariant = { λ d. (d.unread ≡ None → length d.page.items ≡ PAGE)
        × ((u : Unread) → d.unread ≡ Some u → (u.len < PAGE) × (length d.blocks.items ≡ 0) × (d.filled ≡ 0))
        × (d.filled < PAGE) × (length d.blocks.items ≤ MOST_BLOCKS) };
}

impl BlockText {
    /// Nothing yet, after a text of this length on the listed blocks. It takes no memory.
    pub fn after(alloc: Global, committed_len: u64, list: &[BlockNo]) -> Self
        requires { committed_len ≤ PAGE * length list.now }
        ensures { IsNothingAfter committed_len list.now result }
    {
        let len = (committed_len % PAGE as u64) as usize;
        let block = if len == 0 {
            None
        } else {
            Some(list[(committed_len / PAGE as u64) as usize])
        };
        BlockText {
            unread: Some(Unread { block, len }),
            blocks: Vec::new(alloc),
            page: Vec::new(alloc),
            filled: 0,
        }
    }

    /// The reserved blocks. The first has the ordinal of the committed text's unfinished block.
    pub fn list(&self) -> &[BlockNo]
        ensures blocks { result.now ≡ self.now.blocks }
        ensures few { length self.now.blocks ≤ MOST_BLOCKS }
    {
        self.blocks.as_slice()
    }

    /// The reserved blocks, which the caller has to give back or own.
    pub fn into_list(self) -> Vec<BlockNo>
        ensures { result.items ≡ self.blocks }
    {
        let BlockText { blocks, .. } = self;
        blocks
    }

    /// The length of the whole text after a committed one of `committed_len` bytes. The last bytes have yet to be
    /// written.
    pub fn len_with(&self, committed_len: u64, last: &[u8]) -> u64
        requires few { committed_len ≤ PAGE * MOST_BLOCKS }
        requires fits { 1 ≤ length self.now.blocks → (length last.now + 4095) / PAGE ≤ length self.now.blocks }
        ensures nothing { length self.now.blocks ≡ 0 → result ≡ committed_len }
        ensures more { 0 < length self.now.blocks
            → result ≡ PAGE * (committed_len / PAGE) + count_with self.now.blocks last.now }
    {
        let count = self.blocks.len();
        if count == 0 {
            return committed_len;
        }
        let full = committed_len / PAGE as u64 + (count - last.len().div_ceil(PAGE)) as u64;
        PAGE as u64 * full + last.len() as u64
    }

    /// Forgets the block with the committed text's last bytes. If they aren't in memory, zeros take their place.
    pub fn forget_tail(&mut self)
        ensures forgets { self.new ≡ record self.old { unread = without_block self.old.unread } }
        ensures same { 1 ≤ length self.old.blocks → self.new ≡ self.old }
    {
        if let Some(unread) = &mut self.unread {
            unread.block = None;
        }
    }

    /// Appends bytes. A block is reserved with its first byte, and written, without a sync, with its last one. The text
    /// begins with the committed one's last bytes, which move to a block that it reserves.
    ///
    /// # Errors
    ///
    /// `NoMemory`, with nothing done; `DiskFault`; `Full` if the bytes need another block and none is free.
    pub fn put<D: Disk>(
        &mut self,
        alloc: Global,
        disk: &mut D,
        layout: &Layout,
        blocks: &mut Blocks,
        bytes: &[u8],
    ) -> Result<(), DraftError>
        requires room { PAGE * all_pages layout.now ≤ D.size disk.old }
        requires blocks { length blocks.old.rows ≡ layout.now }
        requires reserved { IsReserved blocks.old self.old.blocks }
        requires below { AllBelow layout.now (tail_on self.old.unread) }
        ensures size { D.size disk.new ≡ D.size disk.old }
        ensures honest { D.honest disk.old ↔ D.honest disk.new }
        ensures counts { Counts (IsErrOf result (DraftError.Stop Stop.DiskFault)) (D.failures disk.old)
            (D.failures disk.new) }
        ensures nothing { length bytes.now ≡ 0
            → (self.new ≡ self.old) × (disk.new ≡ disk.old) × (blocks.new ≡ blocks.old) × IsOk result }
        ensures tail { (self.new.unread ≡ self.old.unread) ⊎ (self.new.unread ≡ None) }
        ensures len { OnOk result (len_of self.new ≡ len_of self.old + length bytes.now) }
        ensures content { D.honest disk.old → OnOk result
            (draft_bytes (D.current disk.new) (text_page layout.now) self.new
            ≡ draft_bytes (D.current disk.old) (text_page layout.now) self.old ++ bytes.now) }

        // Out of memory, nothing is done.
        ensures memory { IsErrOf result (DraftError.Stop Stop.NoMemory) → (self.new ≡ record self.old
            { room = self.new.room }) × (disk.new ≡ disk.old) × (blocks.new ≡ blocks.old) }

        // It reserves no more blocks than its bytes need, and keeps them when it is refused.
        ensures listed { OnOk result
            (1 ≤ length bytes.now → length self.new.blocks ≡ (len_of self.new + 4095) / PAGE) }
        ensures takes { Takes blocks.old blocks.new self.old.blocks self.new.blocks }
        ensures reserved { IsReserved blocks.new self.new.blocks }
        ensures full { IsErrOf result DraftError.Full → (b : ℕ) → IsFree blocks.new b → ⊥ }
        ensures scarce { IsErrOf result DraftError.Full → length
            self.new.blocks < (len_of self.old + length bytes.now + 4095) / PAGE }

        // It writes only its own blocks; apart from them, every crash image is one of before.
        ensures writes { D.honest disk.old → WritesIn (text_page layout.now) self.new.blocks
            (D.current disk.old) (D.current disk.new) (D.unsynced disk.old) (D.unsynced disk.new) }
        ensures idle { D.honest disk.old → Idle (journal_pages layout.now) (D.current disk.old) (D.unsynced disk.old)
            → Idle (journal_pages layout.now) (D.current disk.new) (D.unsynced disk.new) }
        ensures image { D.honest disk.old → (image : ℕ → ℕ) → IsImage (D.current disk.new) (D.unsynced disk.new) image
            → IsImage (D.current disk.old) (D.unsynced disk.old)
            (aside_blocks (text_page layout.now) self.new.blocks (D.current disk.old) image) }
        ensures lasts { D.honest disk.old → Lasts D.Disk disk.old disk.new
            (λ image. IsImage (D.current disk.old) (D.unsynced disk.old)
            (aside_blocks (text_page layout.now) self.new.blocks (D.current disk.old) image)) }
    {
        if bytes.is_empty() {
            return Ok(());
        }
        self.make_room(bytes.len())?;
        self.open(alloc, disk, layout)?;
        let mut done = 0;
        while done < bytes.len() {
            done += self.put_some(disk, layout, blocks, &bytes[done..])?;
        }
        Ok(())
    }

    // Makes room in the list for the blocks of `len` more bytes.
    fn make_room(&mut self, len: usize) -> Result<(), AllocError>
        requires { len < 2 ^ 63 }
        ensures same { self.new ≡ record self.old { room = self.new.room } }
        ensures room { OnOk result (len_of self.old + len ≤ PAGE * self.new.room) }
    {
        self.blocks.reserve(1 + len.div_ceil(PAGE))
    }

    // Begins the text: takes its memory and reads the committed text's last bytes into it.
    fn open<D: Disk>(
        &mut self,
        alloc: Global,
        disk: &mut D,
        layout: &Layout,
    ) -> Result<(), DraftError>
        requires room { PAGE * all_pages layout.now ≤ D.size disk.old }
        requires below { AllBelow layout.now (tail_on self.old.unread) }
        ensures size { D.size disk.new ≡ D.size disk.old }
        ensures honest { D.honest disk.old ↔ D.honest disk.new }
        ensures counts { Counts (IsErrOf result (DraftError.Stop Stop.DiskFault)) (D.failures disk.old)
            (D.failures disk.new) }
        ensures unread { tail_on self.old.unread ≡ [] → disk.new ≡ disk.old }
        ensures not_full { IsErrOf result DraftError.Full → ⊥ }
        ensures memory { IsErrOf result (DraftError.Stop Stop.NoMemory) → disk.new ≡ disk.old }
        ensures same { OnErr result (self.new ≡ self.old) }
        ensures begun { OnOk result (self.new.unread ≡ None) }
        ensures list { self.new.blocks ≡ self.old.blocks }
        ensures space { self.new.room ≡ self.old.room }
        ensures len { len_of self.new ≡ len_of self.old }
        ensures few { OnOk result (length self.new.unfinished < PAGE) }
        ensures content { D.honest disk.old → OnOk result
            (draft_bytes (D.current disk.new) (text_page layout.now) self.new
            ≡ draft_bytes (D.current disk.old) (text_page layout.now) self.old) }
        ensures preserves { D.honest disk.old → Preserves (D.current disk.old) (D.current disk.new)
            (D.unsynced disk.old)
            (D.unsynced disk.new) }
        ensures lasts { D.honest disk.old → Lasts D.Disk disk.old disk.new
            (IsImage (D.current disk.old) (D.unsynced disk.old)) }
    {
        let Some(unread) = self.unread else {
            return Ok(());
        };
        let mut page = vec![in alloc; 0; PAGE]?;
        read_tail(disk, layout, unread.block, unread.len, &mut page)?;
        self.page = page;
        self.filled = unread.len;
        self.unread = None;
        Ok(())
    }

    // Appends as many bytes as the unfinished block has room for, and returns their count.
    fn put_some<D: Disk>(
        &mut self,
        disk: &mut D,
        layout: &Layout,
        blocks: &mut Blocks,
        bytes: &[u8],
    ) -> Result<usize, DraftError>
        requires room { PAGE * all_pages layout.now ≤ D.size disk.old }
        requires blocks { length blocks.old.rows ≡ layout.now }
        requires reserved { IsReserved blocks.old self.old.blocks }
        requires some { 1 ≤ length bytes.now }
        requires space { held_count self.old + length bytes.now ≤ PAGE * self.old.room }
        requires begun { self.old.unread ≡ None }
        ensures begun { self.new.unread ≡ None }
        ensures size { D.size disk.new ≡ D.size disk.old }
        ensures honest { D.honest disk.old ↔ D.honest disk.new }
        ensures counts { Counts (IsErrOf result (DraftError.Stop Stop.DiskFault)) (D.failures disk.old)
            (D.failures disk.new) }
        ensures some { IfOk result (λ n. 1 ≤ n) }
        ensures within { IfOk result (λ n. n ≤ length bytes.now) }
        ensures space { self.old.room ≤ self.new.room }
        ensures no_memory { IsErrOf result (DraftError.Stop Stop.NoMemory) → ⊥ }
        ensures listed { OnOk result (1 ≤ length self.new.blocks) }
        ensures few { length self.new.unfinished < PAGE }
        ensures held { IfOk result (λ n. held_count self.new ≡ held_count self.old + n) }
        ensures content { D.honest disk.old → IfOk result
            (λ n. content_on (D.current disk.new) (text_page layout.now) self.new
            ≡ content_on (D.current disk.old) (text_page layout.now) self.old ++ take n bytes.now) }
        ensures takes { Takes blocks.old blocks.new self.old.blocks self.new.blocks }
        ensures reserved { IsReserved blocks.new self.new.blocks }
        ensures full { IsErrOf result DraftError.Full → (b : ℕ) → IsFree blocks.new b → ⊥ }
        ensures scarce { IsErrOf result DraftError.Full → PAGE * length self.new.blocks ≤ held_count self.old }
        ensures writes { D.honest disk.old → WritesIn (text_page layout.now) self.new.blocks
            (D.current disk.old) (D.current disk.new) (D.unsynced disk.old) (D.unsynced disk.new) }
        ensures idle { D.honest disk.old → Idle (journal_pages layout.now) (D.current disk.old) (D.unsynced disk.old)
            → Idle (journal_pages layout.now) (D.current disk.new) (D.unsynced disk.new) }
        ensures lasts { D.honest disk.old → Lasts D.Disk disk.old disk.new
            (IsImageBut (text_page layout.now) self.new.blocks (D.current disk.old) (D.unsynced disk.old)) }
    {
        self.open_block(blocks)?;
        let n = fill(&mut self.page, self.filled, bytes);
        if self.filled + n < PAGE {
            self.filled += n;
            return Ok(n);
        }
        write_prefix(disk, layout, &self.blocks, &self.page)?;
        self.filled = 0;
        Ok(n)
    }

    /// Appends the last bytes, in memory: reserves the blocks for them and returns what `write_last` has to write, the
    /// bytes of the unfinished block and these. Afterwards the text can only be given back or owned. If it didn't
    /// begin, it has no blocks, and nothing is returned.
    ///
    /// # Errors
    ///
    /// `NoMemory`; `DiskFault`; `Full`.
    pub fn end<D: Disk>(
        &mut self,
        alloc: Global,
        disk: &mut D,
        layout: &Layout,
        blocks: &mut Blocks,
        bytes: &[u8],
    ) -> Result<Vec<u8>, DraftError>
        requires room { PAGE * all_pages layout.now ≤ D.size disk.old }
        requires reserved { IsReserved blocks.old self.old.blocks }
        requires below { AllBelow layout.now (tail_on self.old.unread) }
        ensures size { D.size disk.new ≡ D.size disk.old }
        ensures honest { D.honest disk.old ↔ D.honest disk.new }
        ensures counts { Counts (IsErrOf result (DraftError.Stop Stop.DiskFault)) (D.failures disk.old)
            (D.failures disk.new) }
        ensures tail { (self.new.unread ≡ self.old.unread) ⊎ (self.new.unread ≡ None) }
        ensures nothing { length bytes.now ≡ 0 → (self.new.blocks ≡ self.old.blocks) × (blocks.new ≡ blocks.old) }
        ensures memory { IsErrOf result (DraftError.Stop Stop.NoMemory)
            → (self.new.blocks ≡ self.old.blocks) × (blocks.new ≡ blocks.old) }
        ensures some { IsErrOf result DraftError.Full → 1 ≤ length bytes.now }

        // The bytes on its blocks and the returned ones are all that it had, and the last bytes.
        ensures len { IfOk result (λ last. 1 ≤ length self.new.blocks
            → count_with self.new.blocks last.items ≡ len_of self.old + length bytes.now) }
        ensures content { D.honest disk.old → IfOk result (λ last. 1 ≤ length self.new.blocks
            → bytes_with (D.current disk.new) (text_page layout.now) self.new.blocks last.items
            ≡ draft_bytes (D.current disk.old) (text_page layout.now) self.old ++ bytes.now) }
        ensures fits { IfOk result
            (λ last. 1 ≤ length self.new.blocks → (length last.items + 4095) / PAGE ≤ length self.new.blocks) }

        // As in `put`, it reserves no more blocks than its bytes need.
        ensures listed { OnOk result
            (1 ≤ length bytes.now → length self.new.blocks ≡ (len_of self.old + length bytes.now + 4095) / PAGE) }
        ensures takes { Takes blocks.old blocks.new self.old.blocks self.new.blocks }
        ensures reserved { IsReserved blocks.new self.new.blocks }
        ensures full { IsErrOf result DraftError.Full → (b : ℕ) → IsFree blocks.new b → ⊥ }
        ensures scarce { IsErrOf result DraftError.Full → length
            self.new.blocks < (len_of self.old + length bytes.now + 4095) / PAGE }

        // Nothing is written. Nothing is read either if the committed text has no unfinished block.
        ensures unread { tail_on self.old.unread ≡ [] → disk.new ≡ disk.old }
        ensures preserves { D.honest disk.old → Preserves (D.current disk.old) (D.current disk.new)
            (D.unsynced disk.old)
            (D.unsynced disk.new) }
        ensures lasts { D.honest disk.old → Lasts D.Disk disk.old disk.new
            (IsImage (D.current disk.old) (D.unsynced disk.old)) }
    {
        if bytes.is_empty() && self.unread.is_some() {
            return Ok(Vec::new(alloc));
        }
        self.open(alloc, disk, layout)?;
        let last = self.unfinished_with(alloc, bytes)?;
        if bytes.is_empty() {
            return Ok(last);
        }
        self.make_room(bytes.len())?;
        let full = self.blocks.len().saturating_sub(self.filled.div_ceil(PAGE));
        take_blocks(&mut self.blocks, blocks, full + last.len().div_ceil(PAGE))?;
        Ok(last)
    }

    // The bytes of the unfinished block, and these.
    fn unfinished_with(&self, alloc: Global, bytes: &[u8]) -> Result<Vec<u8>, AllocError>
        ensures bytes { IfOk result (λ last. last.items ≡ self.now.unfinished ++ bytes.now) }
        ensures few { length self.now.unfinished < PAGE }
    {
        let mut last = Vec::new(alloc);
        last.extend_from_slice(&self.page[..self.filled])?;
        last.extend_from_slice(bytes)?;
        Ok(last)
    }

    /// Gives the reserved blocks back. It uses neither memory nor the disk. The first block is freed last.
    pub fn give_back(self, blocks: &mut Blocks)
        requires { IsReserved blocks.old self.blocks }
        ensures { GivesBack blocks.old blocks.new self.blocks }
    {
        let list = self.into_list();
        for given in 0..list.len() {
            blocks.give_back(list[list.len() - 1 - given]);
        }
    }

    // Reserves a block if the next byte is the first of one.
    fn open_block(&mut self, blocks: &mut Blocks) -> Result<(), DraftError>
        requires reserved { IsReserved blocks.old self.old.blocks }
        requires space { full_count self.old + 1 ≤ self.old.room }
        requires begun { self.old.unread ≡ None }
        ensures begun { self.new.unread ≡ None }
        ensures takes { Takes blocks.old blocks.new self.old.blocks self.new.blocks }
        ensures reserved { IsReserved blocks.new self.new.blocks }
        ensures unfinished { self.new.unfinished ≡ self.old.unfinished }
        ensures ready { OnOk result (length self.new.blocks ≡ full_count self.old + 1) }
        ensures few { length self.new.unfinished < PAGE }
        ensures space { self.old.room ≤ self.new.room }
        ensures only_full { IsErr result → IsErrOf result DraftError.Full }
        ensures full { IsErr result → (b : ℕ) → IsFree blocks.new b → ⊥ }
        ensures scarce { OnErr result (length self.new.blocks ≡ full_count self.old) }
    {
        if self.filled == 0 || self.blocks.is_empty() {
            take_block(&mut self.blocks, blocks)?;
        }
        Ok(())
    }
}

// Copies bytes into the page from `filled` on, as many as fit, and returns their count.
fn fill(page: &mut [u8], filled: usize, bytes: &[u8]) -> usize
    requires { filled ≤ length page.old }
    ensures count { result ≡ min (length bytes.now) (length page.old - filled) }
    ensures filled { take (filled + result) page.new ≡ take filled page.old ++ take result bytes.now }
{
    let n = bytes.len().min(page.len() - filled);
    page[filled..filled + n].copy_from_slice(&bytes[..n]);
    n
}
