//! Decoders, by their handlers.

ghost use Rattle.std.specs.Prelude.{◌≡◌, ◌≤◌, length, false, Option, ◌+◌, ◌*◌};
ghost use Rattle.enc_feed.specs.AsciiPrefix.{IsAsciiPrefix};
ghost use Rattle.enc_feed.specs.Batches.{BatchTook};
ghost use Rattle.enc_model.specs.Stream.{Handler, IsCalm, restored_bytes, steps};

use crate::batch::Batch;
use crate::room::ROOM;
use enc_model::{Answer, Restored};

/// A decoder's state with its handler (Encoding Standard, section 4.1).
pub trait Decoder {
    /// The index files that the handler reads.
    type Tables;

    ghost handler: { Self.Tables → Handler Self };

    /// Reads a byte, or the end if there is none.
    fn read(&mut self, tables: &Self::Tables, byte: Option<u8>) -> (Answer, Restored)
        ensures answer { result.0 ≡ (handler tables.now self.old byte).answer }
        ensures restored { restored_bytes result.1 ≡ (handler tables.now self.old byte).restored }
        ensures state { self.new ≡ (handler tables.now self.old byte).state };

    ghost calm: { (t : Self.Tables) → IsCalm (handler t) };
}

/// A decoder with a fast way over a block. It is a trait of its own, since its implementations call functions that need
/// a `Decoder`.
pub trait BlockDecoder: Decoder {
    /// The length of a prefix that is ASCII and decodes to itself. It may be shorter than the longest one.
    fn prefix(&self, tables: &Self::Tables, bytes: &[u8]) -> usize
        ensures { IsAsciiPrefix (Self.handler tables.now) self.now bytes.now result };

    /// Decodes a block, for which the batch has room. `decode_each` does it for every decoder.
    fn decode_block(&mut self, tables: &Self::Tables, block: &[u8], batch: &mut Batch)
        requires { length batch.old + 12 * length block.now ≤ ROOM }
        ensures text { BatchTook batch.old (steps (Self.handler tables.now) false self.old block.now).text batch.new }
        ensures state { self.new ≡ (steps (Self.handler tables.now) false self.old block.now).state };
}
