//! What a run of a round reads and writes, in memory.
ghost use Rattle.std.specs.Prelude.{◌≡◌};

use gateway_engine::{CountedRead, CountedWrite, Refused};
use std::io::Read;

/// A script in memory. None of its reads is refused.
#[derive(Drop)]
pub(crate) struct ScriptBytes<'a> {
    rest: &'a [u8],
}

impl<'a> ScriptBytes<'a> {
    ghost use Rattle.gateway_rounds.specs.Streams.{rest_of};

    /// The whole script is to be read.
    pub(crate) fn new(script: &'a [u8]) -> Self
        ensures { rest_of result ≡ script.now }
    {
        ScriptBytes { rest: script }
    }
}

impl CountedRead for ScriptBytes<'_> {
    ghost use Rattle.std.specs.Prelude.{Some};
    ghost use Rattle.gateway_rounds.specs.Streams.{rest_of};

    ghost remaining = { λ s. Some (rest_of s) };

    ghost refusals = { λ _. 0 };

    fn read_piece(&mut self, piece: &mut [u8]) -> Result<usize, Refused> {
        match self.rest.read(piece) {
            Ok(count) => Ok(count),
            Err(_) => Err(Refused),
        }
    }
}

/// What a run wrote, in memory. A write is refused where the bytes are refused to grow, and counted.
#[derive(Drop)]
pub struct WrittenBytes {
    /// What was written.
    pub bytes: Vec<u8>,
    /// How many times the bytes were refused to grow, or 2^64 - 1 where it was more often.
    pub refusals: u64,
}

impl CountedWrite for WrittenBytes {
    ghost use Rattle.std.specs.Prelude.{Some};

    ghost contents = { λ w. Some w.bytes.items };

    ghost refusals = { λ w. w.refusals };

    fn write_piece(&mut self, piece: &[u8]) -> Result<usize, Refused> {
        match self.bytes.extend_from_slice(piece) {
            Ok(()) => Ok(piece.len()),
            Err(_) => {
                self.refusals = self.refusals.saturating_add(1);
                Err(Refused)
            }
        }
    }
}
