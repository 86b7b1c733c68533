//! The rule of room, as laws: functions that do nothing and whose contracts are the laws.
//!
//! The upload rules state room in texts and needs: a patch is short of room if it needs more blocks than the other
//! texts and patches leave free. A spool counts free, reserved and owned blocks. These laws show that both are the same
//! numbers. So a draft that reserves block after block gets all that it needs, or finds no free block only if its patch
//! is short of room.
#![tactic(auto)]

mod laws;

pub use laws::{
    block_counts, draft_needs, held_room, reserved_blocks, rising_numbers, room, slot_counts,
    used_blocks,
};
