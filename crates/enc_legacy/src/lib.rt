//! The decoders of the single-byte and the Japanese encodings.
#![tactic(auto)]

mod escapes;
mod euc_bytes;
mod euc_jp;
mod iso2022;
mod kana;
mod pairs;
mod shift_jis;
mod single;
mod sjis_bytes;
mod stride;

pub use euc_jp::EucJpState;
pub use iso2022::Iso2022State;
pub use shift_jis::ShiftJisState;
pub use single::SingleState;
