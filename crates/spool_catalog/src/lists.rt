//! Each slot's blocks by ordinal.
ghost use Rattle.std.specs.Prelude.{◌≡◌, ◌≤◌, ◌<◌, ◌+◌, ◌++◌, ℕ, List, [], Some, None, true, IfOk, OnOk, OnErr};
ghost use Rattle.std.specs.Prelude.{IsOkUnless, length, get_or, take, drop};
ghost use Rattle.spool_blocks.specs.Blocks.{Row, slot_count, IsWholeText};
ghost use Rattle.spool_blocks.specs.Chains.{OwnsOneEach};
ghost use Rattle.upload_rules.specs.Room.{blocks_of};
ghost use Rattle.spool_catalog.specs.Holding.{HasBlocks, AreListsTo, OwnsText};
ghost use Rattle.spool_catalog.specs.Shows.{IsValid};
ghost use Rattle.spool_pages.specs.View.{View};

use crate::CheckError;
use crate::records::{CatalogRecord, record_at};
use common::SLOTS;
use spool_blocks::{BlockNo, Blocks, Row};
use spool_journal::PAGE;
use std::alloc::{AllocError, Global};
use std::marker::Model;

/// The blocks of a slot's text, by ordinal.
#[derive(Drop)]
pub(crate) struct BlockList {
    blocks: Vec<BlockNo>,
}

impl Model for BlockList {
    ghost use Rattle.std.specs.Prelude.{ℕ, List};

    ghost Value = { List ℕ };

    ghost view = { λ l. l.blocks.items };
}

impl BlockList {
    /// The block numbers.
    pub(crate) fn blocks(&self) -> &[BlockNo]
        ensures { result.now ≡ self.now }
    {
        self.blocks.as_slice()
    }

    /// Leaves no block.
    pub(crate) fn clear(&mut self)
        ensures { self.new ≡ [] }
    {
        self.blocks.clear();
    }

    /// Leaves the first so many blocks, and puts these in place of the others. Err only where memory runs out.
    pub(crate) fn replace_from(&mut self, first: usize, more: &[BlockNo]) -> Result<(), AllocError>
        ensures done { OnOk result (self.new ≡ take first self.old ++ more.now) }
        ensures unmade { OnErr result (self.new ≡ self.old) }
    {
        self.blocks.reserve(more.len())?;
        self.blocks.truncate(first);
        self.blocks.extend_from_slice(more)
    }
}

/// The block numbers from one on.
pub(crate) fn blocks_from(list: &[BlockNo], first: usize) -> &[BlockNo]
    requires { first ≤ length list.now }
    ensures { result.now ≡ drop first list.now }
{
    &list[first..]
}

/// How many blocks a text of this length has.
pub fn blocks_of(len: u64) -> u64
    ensures { result ≡ blocks_of len }
{
    len.div_ceil(PAGE as u64)
}

// Whether the slot owns each listed block, at its place's ordinal.
fn are_owned(rows: &[Row], slot: u32, list: &[BlockNo]) -> bool
    ensures owned { result ≡ true → (i : ℕ) → i < length list.now
        → get_or rows.now (get_or list.now i 0) None ≡ Some (slot, i) }
    ensures passes { ((i : ℕ) → i < length list.now → get_or rows.now (get_or list.now i 0) None ≡ Some (slot, i))
        → result ≡ true }
{
    for i in 0..list.len() {
        if !owns(rows, list[i], slot, i) {
            return false;
        }
    }
    true
}

// Whether the slot owns the block at the ordinal.
fn owns(rows: &[Row], block: BlockNo, slot: u32, ordinal: usize) -> bool
    ensures owned { result ≡ true → get_or rows.now block None ≡ Some (slot, ordinal) }
    ensures passes { get_or rows.now block None ≡ Some (slot, ordinal) → result ≡ true }
{
    match rows.get(block as usize) {
        Some(Some((owner, at))) => *owner == slot && *at as usize == ordinal,
        _ => false,
    }
}

// The slot's blocks. `Damaged` where its ordinals are not those of a text of this length, each once.
fn checked_list(
    alloc: Global,
    blocks: &Blocks,
    slot: u32,
    len: u64,
) -> Result<BlockList, CheckError>
    requires { slot < SLOTS }
    ensures blocks { IfOk result (λ list. HasBlocks blocks.now.rows slot len list) }
    ensures whole { OnOk result (OwnsOneEach blocks.now.rows slot (blocks_of len)) }
    ensures passes { slot_count slot blocks.now.rows ≡ blocks_of len → IsWholeText slot blocks.now.rows
        → IsOkUnless result CheckError.NoMemory }
{
    let list = blocks.list_of(alloc, slot)?;
    if list.len() as u64 != blocks_of(len) || !are_owned(blocks.rows(), slot, &list) {
        return Err(CheckError::Damaged);
    }
    Ok(BlockList { blocks: list })
}

// The list of the next slot, after those of the slots before it.
fn push_list(
    alloc: Global,
    lists: &mut Vec<BlockList>,
    blocks: &Blocks,
    slots: &[Option<CatalogRecord>],
    slot: u32,
) -> Result<(), CheckError>
    requires { slot < SLOTS }
    ensures long { OnOk result (length lists.new.items ≡ length lists.old.items + 1) }
    ensures lists { length lists.old.items ≡ slot → AreListsTo blocks.now.rows slots.now lists.old.items slot
        → OnOk result (AreListsTo blocks.now.rows slots.now lists.new.items (slot + 1)) }
    ensures whole { OnOk result (OwnsText blocks.now.rows slot (get_or slots.now slot None)) }
    ensures passes { (v : View) → IsValid v → slots.now ≡ v.slots → blocks.now.rows ≡ v.rows
        → IsOkUnless result CheckError.NoMemory }
{
    let list = match record_at(slots, slot as usize) {
        Some(slot_used) => checked_list(alloc, blocks, slot, slot_used.record().text_len)?,
        None => BlockList {
            blocks: Vec::new(alloc),
        },
    };
    match lists.push(list) {
        Ok(()) => Ok(()),
        Err(_) => Err(CheckError::NoMemory),
    }
}

/// The lists of all slots. `Damaged` where a slot's ordinals are not those of its text, each once.
pub(crate) fn lists_of(
    alloc: Global,
    blocks: &Blocks,
    slots: &[Option<CatalogRecord>],
) -> Result<Vec<BlockList>, CheckError>
    ensures long { IfOk result (λ lists. length lists.items ≡ SLOTS) }
    ensures lists { IfOk result (λ lists. AreListsTo blocks.now.rows slots.now lists.items SLOTS) }
    ensures whole { OnOk result ((s : ℕ) → s < SLOTS → OwnsText blocks.now.rows s (get_or slots.now s None)) }
    ensures passes { (v : View) → IsValid v → slots.now ≡ v.slots → blocks.now.rows ≡ v.rows
        → IsOkUnless result CheckError.NoMemory }
{
    let mut lists = Vec::new(alloc);
    for slot in 0..SLOTS {
        push_list(alloc, &mut lists, blocks, slots, slot)?;
    }
    Ok(lists)
}
