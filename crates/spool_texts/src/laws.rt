//! Laws about texts on blocks. The functions do nothing; their contracts are the laws.
ghost use Rattle.std.specs.Prelude.{◌≡◌, ◌≤◌, ◌+◌, ◌*◌, ◌/◌, ◌++◌, ℕ, List, Option, length, take};
ghost use Rattle.spool_journal.specs.Image.{journal_pages, text_page};
ghost use Rattle.spool_texts.specs.Texts.{text_shown};
ghost use Rattle.spool_texts.specs.Drafts.{Draft, draft_bytes, tail_on};
ghost use Rattle.spool_texts.specs.TextOn.{text_on, IsListed};
ghost use Rattle.spool_texts.specs.Written.{FrameBlocks, NoneOf, SameOutside, aside_blocks};

use spool_journal::{Layout, PAGE};

/// The text on a list of a slot's blocks by ordinal is the slot's text by its rows. The text on two lists joined is the
/// one on the full blocks of the first, followed by the one on the second.
pub fn shown_texts()
    ensures shown { (image : ℕ → ℕ) (first : ℕ) (rows : List (Option (ℕ × ℕ))) (slot len : ℕ) (list : List ℕ)
        → IsListed rows slot list → length list ≡ (len + 4095) / PAGE → text_on image first list len ≡ text_shown image
        first rows slot len }
    ensures joined { (image : ℕ → ℕ) (first n len : ℕ) (list more : List ℕ) → n ≤ length list
        → text_on image first (take n list ++ more) (PAGE * n + len) ≡ text_on image first list (PAGE * n) ++ text_on
        image first more len }
{}

/// Writing some blocks doesn't change what is on others: the texts on lists, and the bytes of drafts.
pub fn texts_unchanged()
    ensures text { (current current' : ℕ → ℕ) (first len : ℕ) (list blocks : List ℕ)
        → SameOutside first blocks current current'
        → NoneOf list blocks → text_on current' first list len ≡ text_on current first list len }
    ensures bytes { (current current' : ℕ → ℕ) (first : ℕ) (draft : Draft) (blocks : List ℕ)
        → SameOutside first blocks current current' → NoneOf draft.blocks blocks → NoneOf (tail_on draft.unread) blocks
        → draft_bytes current' first draft ≡ draft_bytes current first draft }
{}

/// An image shows the same texts if blocks that no row owns are set back, and nothing outside the blocks reads
/// differently.
pub fn same_but_blocks(layout: &Layout)
    ensures { (blocks : List ℕ) (was image : ℕ → ℕ) → FrameBlocks (journal_pages layout.now)
        (text_page layout.now) blocks image
        (aside_blocks (text_page layout.now) blocks was image) }
{
    let _pages = layout.journal();
}
