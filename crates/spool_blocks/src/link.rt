//! A link from a block to another one.
ghost use Rattle.std.specs.Prelude.{◌≡◌, ◌<◌, None, IfSome};

use crate::BlockNo;
use common::MOST_BLOCKS;
use std::marker::Model;

/// No block has this number.
pub(crate) const NO_BLOCK: BlockNo = u32::MAX;

/// A block, or none, in four bytes: an `Option` takes eight, and a spool has up to 65,536 links.
#[derive(Clone, Copy)]
pub(crate) struct Link {
    block: BlockNo,
}

impl Model for Link {
    ghost use Rattle.std.specs.Prelude.{ℕ, Option};
    ghost use Rattle.spool_blocks.specs.Link.{linked, link_number, number_linked};

    ghost Value = { Option ℕ };

    ghost view = { λ l. linked l.block };

    ghost inverse = { λ v. record { block = link_number v } };

    ghost inverse_ok = { λ l h. number_linked l.block (λ b. record { block = b }) };
}

impl Link {
    /// No link.
    pub(crate) fn none() -> Self
        ensures { result ≡ None }
    {
        Link { block: NO_BLOCK }
    }

    /// A link to this block, or none.
    #[inline(always)]
    pub(crate) fn to(block: Option<BlockNo>) -> Self
        requires { IfSome block (λ b. b < MOST_BLOCKS) }
        ensures { result ≡ block }
    {
        match block {
            Some(block) => Link { block },
            None => Link::none(),
        }
    }

    /// The block.
    #[inline(always)]
    pub(crate) fn block(self) -> Option<BlockNo>
        ensures { result ≡ self }
    {
        if self.block == NO_BLOCK {
            None
        } else {
            Some(self.block)
        }
    }
}
