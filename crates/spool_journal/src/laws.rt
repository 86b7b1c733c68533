//! A law about the layout. The function does nothing; its contract is the law.
ghost use Rattle.spool_journal.specs.Numbers.{IsLaidOut};

/// Each number of the layout is the format's.
pub fn layout_numbers()
    ensures { IsLaidOut }
{}
