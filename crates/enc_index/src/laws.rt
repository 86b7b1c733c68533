//! A law about the index area. The function does nothing; its contract is the law.
ghost use Rattle.enc_index.specs.Numbers.{IsLaidOut};

/// Each number of an index area is the format's.
pub fn area_numbers()
    ensures { IsLaidOut }
{}
