//! A law about what reads gave. The function does nothing; its contract is the law.
ghost use Rattle.std.specs.Prelude.{ℕ, List};
ghost use Rattle.common.specs.declared.given.GivenRead.{GivenRead};
ghost use Rattle.spool_disk.specs.Given.{Anywhere, ReadsGave, ReadsOnce};

/// Of reads of no place twice there are bytes that all of them gave. So a clause over whatever bytes such reads gave
/// never speaks of none.
pub fn apart_reads_gave()
    ensures { (old new : List GivenRead) → ReadsOnce Anywhere old new → (bytes : ℕ → ℕ) × ReadsGave bytes old new }
{}
