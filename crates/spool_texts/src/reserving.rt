//! Reserving blocks for a list.

ghost use Rattle.std.specs.Prelude.{◌≡◌, ◌≤◌, ◌<◌, ◌+◌, ℕ, length, IsErr, IsErrOf, OnOk, OnErr, vec_len, vec_capacity};
ghost use Rattle.common.specs.declared.limits.TheConstants.{MOST_BLOCKS};
ghost use Rattle.spool_blocks.specs.Blocks.{IsFree};
ghost use Rattle.spool_texts.specs.Drafts.{IsReserved, Takes};

use crate::DraftError;
use common::MOST_BLOCKS;
use spool_blocks::{BlockNo, Blocks};

/// Reserves a block and appends it to the list.
pub fn take_block(list: &mut Vec<BlockNo>, blocks: &mut Blocks) -> Result<(), DraftError>
    requires space { vec_len list.old < vec_capacity list.old }
    requires few { length list.old.items ≤ MOST_BLOCKS }
    requires reserved { IsReserved blocks.old list.old.items }
    ensures few { length list.new.items ≤ MOST_BLOCKS }
    ensures takes { Takes blocks.old blocks.new list.old.items list.new.items }
    ensures reserved { IsReserved blocks.new list.new.items }
    ensures one { OnOk result (length list.new.items ≡ length list.old.items + 1) }
    ensures space { vec_capacity list.old ≤ vec_capacity list.new }
    ensures only_full { IsErr result → IsErrOf result DraftError.Full }
    ensures full { IsErr result → (b : ℕ) → IsFree blocks.new b → ⊥ }
    ensures same { OnErr result (list.new.items ≡ list.old.items) }
{
    let Some(block) = blocks.take() else {
        return Err(DraftError::Full);
    };
    list.push(block).unwrap();
    Ok(())
}

/// Reserves blocks and appends them to the list until it has `count`.
pub fn take_blocks(
    list: &mut Vec<BlockNo>,
    blocks: &mut Blocks,
    count: usize,
) -> Result<(), DraftError>
    requires space { count ≤ vec_capacity list.old }
    requires fewer { length list.old.items ≤ count }
    requires few { length list.old.items ≤ MOST_BLOCKS }
    requires reserved { IsReserved blocks.old list.old.items }
    ensures few { length list.new.items ≤ MOST_BLOCKS }
    ensures takes { Takes blocks.old blocks.new list.old.items list.new.items }
    ensures reserved { IsReserved blocks.new list.new.items }
    ensures count { OnOk result (length list.new.items ≡ count) }
    ensures only_full { IsErr result → IsErrOf result DraftError.Full }
    ensures full { IsErr result → (b : ℕ) → IsFree blocks.new b → ⊥ }
    ensures short { OnErr result (length list.new.items < count) }
{
    while list.len() < count {
        take_block(list, blocks)?;
    }
    Ok(())
}
