//! Running a decoder of the Encoding Standard over pieces: its text goes to a sink, in runs where it can.
#![tactic(auto)]

mod batch;
mod by_blocks;
mod by_bytes;
mod decoder;
mod room;

pub use batch::{BLOCK, Batch};
pub use by_blocks::feed;
pub use by_bytes::{decode_each, feed_each, finish};
pub use decoder::{BlockDecoder, Decoder};
pub use enc_model::Sink;
pub use room::{AsciiFinder, LANES, PairReader, ROOM};
