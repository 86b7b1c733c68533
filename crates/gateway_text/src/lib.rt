//! Input, transcoded as an upload of its bytes would be stored.
#![tactic(auto)]

mod transcoding;

pub use transcoding::{Conversion, WantedText, conversion_of, text_in, text_on};
