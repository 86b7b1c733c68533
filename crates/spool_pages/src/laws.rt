//! A law about the pages. The function does nothing; its contract is the law.
ghost use Rattle.spool_pages.specs.Numbers.{IsLaidOut};

/// Each number of the metadata is the format's.
pub fn page_numbers()
    ensures { IsLaidOut }
{}
