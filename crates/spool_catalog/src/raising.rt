//! The catalog with a later next number.
ghost use Rattle.std.specs.Prelude.{◌≡◌, ◌≤◌, ◌^◌, ℕ, IfOk, length};
ghost use Rattle.spool_journal.specs.Image.{journal_pages, InArea};
ghost use Rattle.spool_catalog.specs.Catalog.{HasView};
ghost use Rattle.spool_catalog.specs.Raising.{raised};
ghost use Rattle.spool_catalog.specs.Shows.{Shows};
ghost use Rattle.spool_pages.specs.Changes.{Changes, with_next};
ghost use Rattle.spool_pages.specs.View.{View};
ghost use Rattle.upload_rules.specs.Store.{Store};

use crate::catalog::Catalog;
use spool_journal::Pages;
use spool_pages::pages_of_next;
use std::alloc::{AllocError, Global};

/// With a later next number, at most 10^18, a valid spool is valid, and it shows the same uploads.
pub fn raised_shows()
    ensures { (v : View) (m : Store) (next : ℕ) → Shows v m → v.next ≤ next → next ≤ 10 ^ 18
        → Shows (with_next v next) (raised m next) }
{}

impl Catalog {
    /// The page that gives the spool this next number. Err only where memory runs out.
    pub fn pages_of_next(&self, alloc: Global, next: u64) -> Result<Pages, AllocError>
        ensures area { IfOk result (λ pages. InArea (journal_pages self.now.layout) pages) }
        ensures one { IfOk result (λ pages. length pages ≡ 1) }
        ensures changes { (v : View) → HasView self.now v
            → IfOk result (λ pages. Changes pages v (with_next v next)) }
    {
        pages_of_next(alloc, &self.layout, self.version, next)
    }
}
