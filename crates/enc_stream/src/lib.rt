//! Transcoding: a decoder and an encoder as one value whose state fits 32 bytes, so that an upload's text can go on
//! after any cut.
#![tactic(auto)]

mod decoder;
mod error;
mod numbers;
mod open;
mod progress;
mod sniff;
mod stage;
mod states;
mod transcoder;
mod written;

pub use enc_encode::EncodeError;
pub use error::TranscodeError;
pub use open::OpenTranscoder;
pub use progress::Progress;
pub use transcoder::Transcoder;
