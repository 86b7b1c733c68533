//! Laws about room. The functions do nothing; their contracts are the laws.
ghost use Rattle.std.specs.Prelude.{◌≡◌, ◌≤◌, ◌<◌, ◌+◌, ◌/◌, ◌%◌, ℕ, List, Bool, Some, None, length, map};
ghost use Rattle.enc_model.specs.Indexes.{IndexSet};
ghost use Rattle.spool_blocks.specs.Blocks.{Row, Held, CountLaw, IsWholeText, owned_count, reserved_count, slot_count};
ghost use Rattle.spool_blocks.specs.Chains.{Owns, OwnsOneEach};
ghost use Rattle.spool_room.specs.Holdings.{OwnsTexts, Reserves, IsHeldBy, RuleHolds, added_count};
ghost use Rattle.upload_rules.specs.Apart.{IsApart};
ghost use Rattle.upload_rules.specs.Room.{used, needs_but, wants};
ghost use Rattle.upload_rules.specs.Slots.{IsRising};
ghost use Rattle.upload_rules.specs.Store.{Upload, text_of};
ghost use Rattle.upload_rules.specs.World.{Patch, World, patch_text};

use common::SLOTS;
use spool_blocks::Blocks;
use spool_journal::PAGE;

/// A slot with one block at each ordinal below n owns n blocks.
pub fn slot_counts()
    ensures count { (rows : List Row) (slot n : ℕ) → OwnsOneEach rows slot n → slot_count slot rows ≡ n }
    ensures whole { (rows : List Row) (slot n : ℕ) → OwnsOneEach rows slot n → IsWholeText slot rows }
{}

/// Rising numbers differ.
pub fn rising_numbers()
    ensures { (uploads : List (ℕ × Upload)) → IsRising (map (λ entry. entry.0) uploads) → IsApart uploads }
{}

/// As many blocks are owned as the texts of the uploads use.
pub fn used_blocks()
    ensures { (x : IndexSet) (uploads : List (ℕ × Upload)) (slots : ℕ → ℕ) (rows : List Row)
        → OwnsTexts x uploads slots rows → owned_count rows ≡ used x uploads }
{}

/// As many blocks are reserved as the other patches need and the current draft has.
pub fn reserved_blocks()
    ensures { (x : IndexSet) (patches : List (ℕ × Patch)) (lists : ℕ → List ℕ) (d : ℕ) (h : Held)
        → Reserves x patches lists d h
        → reserved_count h.rows h.reserved ≡ needs_but d x patches + length (lists d) }
{}

/// The free, the reserved and the owned blocks are all blocks, and the owned ones are those in the slots' lists.
pub fn block_counts()
    ensures { (h : Held) → length h.reserved ≡ length h.rows
        → ((b slot ordinal : ℕ) → Owns h.rows b slot ordinal → slot < SLOTS) → CountLaw h.rows h.reserved }
{}

/// The rule of room, for an allocation with a flag for each block.
pub fn held_room()
    ensures { (w : World) (slots : ℕ → ℕ) (lists : ℕ → List ℕ) (d : ℕ) (h : Held) → length h.reserved ≡ length h.rows
        → IsHeldBy w slots lists d h → RuleHolds w d (lists d) h }
{}

/// The rule of room, for these blocks.
pub fn room(blocks: &Blocks)
    ensures { (w : World) (slots : ℕ → ℕ) (lists : ℕ → List ℕ) (d : ℕ) → IsHeldBy w slots lists d blocks.now
        → RuleHolds w d (lists d) blocks.now }
{
    let _rows = blocks.rows();
}

/// The number of blocks that a patch wants: those of its new text from the committed text's unfinished block on, or
/// none if nothing is added or a character is unmappable.
pub fn draft_needs()
    ensures some { (x : IndexSet) (p : Patch) (done : Bool) → (patch_text x p done).fault ≡ None
        → 1 ≤ added_count x p done
        → wants x p done ≡ (length (text_of x p.began) % PAGE + added_count x p done + 4095) / PAGE }
    ensures none { (x : IndexSet) (p : Patch) (done : Bool) → added_count x p done ≡ 0 → wants x p done ≡ 0 }
    ensures fault { (x : IndexSet) (p : Patch) (done : Bool) (c : ℕ) → (patch_text x p done).fault ≡ Some c
        → wants x p done ≡ 0 }
{}
