//! The decoders of UTF-8 and UTF-16, with vector code for long runs.
#![tactic(auto)]

mod blocks;
mod by_characters;
mod cuts;
mod faults;
mod guesses;
mod narrow;
mod narrow_packs;
mod nowhere;
mod packing;
mod packs;
mod runs;
mod units;
mod utf16;
mod utf8;
mod well_formed;

pub use lane_kernels::Order;
pub use utf8::Utf8State;
pub use utf16::Utf16State;
