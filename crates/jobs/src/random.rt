//! Numbers that a seed decides.
ghost use Rattle.std.specs.Prelude.{◌≤◌, ◌<◌};

/// A generator of numbers: SplitMix64 (Steele, Lea and Flood, 2014).
#[derive(Drop)]
pub(crate) struct Random {
    state: u64,
}

impl Random {
    pub(crate) fn new(seed: u64) -> Self {
        Random { state: seed }
    }

    /// The next number.
    pub(crate) fn number(&mut self) -> u64 {
        self.state = self.state.wrapping_add(0x9E37_79B9_7F4A_7C15);
        let mixed = (self.state ^ (self.state >> 30)).wrapping_mul(0xBF58_476D_1CE4_E5B9);
        let mixed = (mixed ^ (mixed >> 27)).wrapping_mul(0x94D0_49BB_1331_11EB);
        mixed ^ (mixed >> 31)
    }

    /// A number below a limit.
    pub(crate) fn below(&mut self, limit: usize) -> usize
        requires { 1 ≤ limit }
        ensures { result < limit }
    {
        (self.number() % limit as u64) as usize
    }

    /// A number of a range, both ends included.
    pub(crate) fn between(&mut self, least: u32, most: u32) -> usize {
        let width = most.saturating_sub(least) as usize;
        self.below(width + 1) + least as usize
    }

    /// A byte.
    pub(crate) fn byte(&mut self) -> u8 {
        (self.number() >> 56) as u8
    }
}
