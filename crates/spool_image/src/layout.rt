//! The number of pages of a spool.
ghost use Rattle.std.specs.Prelude.{◌≡◌, ◌⊎◌, ◌<◌, ◌↔◌, IfSome, IsNone};
ghost use Rattle.spool_journal.specs.Image.{all_pages};

use common::{LEAST_BLOCKS, MOST_BLOCKS};
use spool_journal::Layout;

/// The number of pages of a spool with this many text blocks: page 0, the gate, the journal's head, J journal pages, 22
/// pages of the index area, J of metadata, and the text blocks. J is 257 and one for each 512 blocks begun. None if the
/// blocks aren't 16 to 65,536.
pub fn pages_of(blocks: u32) -> Option<u32>
    ensures some { IfSome result (λ pages. pages ≡ all_pages blocks) }
    ensures none { IsNone result ↔ ((blocks < LEAST_BLOCKS) ⊎ (MOST_BLOCKS < blocks)) }
{
    Some(Layout::of(blocks)?.pages())
}
