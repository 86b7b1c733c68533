//! Which openings failed, for clauses.
ghost use Rattle.std.specs.Prelude.{◌≡◌};

use common::Trace;
use std::io::ErrorKind;

/// An opening that failed. Only clauses read it.
#[derive(Drop)]
pub struct Unopened {
    /// The file's path.
    pub path: Trace<u8>,
    /// What the system answered.
    pub kind: ErrorKind,
}

impl Unopened {
    ghost use Rattle.gateway_outside.specs.Openings.{failed_opening};

    /// The opening of the file at this path, which failed so.
    pub fn new(path: &str, kind: ErrorKind) -> Unopened
        ensures { result ≡ failed_opening path.now kind }
    {
        Unopened {
            path: Trace::new().then(path.as_bytes()),
            kind,
        }
    }
}
