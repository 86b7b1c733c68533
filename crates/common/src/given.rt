//! What a read of a disk gave, for clauses.
ghost use Rattle.std.specs.Prelude.{◌≡◌};
ghost use Rattle.common.specs.Given.{given};

use crate::trace::Trace;

/// What a read gave that succeeded. Only clauses read it.
#[derive(Drop)]
pub struct GivenRead {
    /// The place of the first byte.
    pub at: u64,
    /// The bytes.
    pub bytes: Trace<u8>,
}

impl GivenRead {
    ghost use Rattle.common.specs.Given.{given};

    /// A read that gave these bytes from the place on.
    pub fn new(at: u64, bytes: &[u8]) -> GivenRead
        ensures { result ≡ given at bytes.now }
    {
        GivenRead {
            at,
            bytes: Trace::new().then(bytes),
        }
    }
}
