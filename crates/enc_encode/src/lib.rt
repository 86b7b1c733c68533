//! The encoders of the profile: characters to bytes, in the WHATWG Encoding Standard's terms.
//!
//! An [`Encoder`] takes characters one by one and appends their bytes to a vector. In `Mode::Html` a character
//! that the encoding lacks is written as a decimal character reference, in `Mode::Fatal` it is refused.
#![tactic(auto)]

mod append;
mod ascii_start;
mod buffer;
mod encoder;
mod encoders;
mod error;
mod iso2022;
mod letters;
mod loops;
mod pair_runs;
mod reference;
mod reference_runs;
mod shift;
mod single_runs;
mod sink;
mod written;
mod written_out;

pub use encoder::Encoder;
pub use error::EncodeError;
pub use shift::ShiftState;
pub use sink::EncoderSink;
