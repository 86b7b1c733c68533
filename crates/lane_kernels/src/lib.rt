//! Vector code for runs of bytes and of UTF-16 units. Each function has a plain definition as its contract, and none
//! allocates.
#![tactic(auto)]

mod finder;
mod lanes;
mod laws;
mod narrowing;
mod order;
mod pairing;
mod prefix;
mod units;

pub use finder::AsciiLanes;
pub use laws::paired_units_decode;
pub use narrowing::narrow;
pub use order::Order;
pub use pairing::{Pairing, Step};
pub use prefix::{
    ascii_chunk, ascii_front, ascii_lanes, plain_chunk_2022, plain_front_2022, range_front,
};
pub use units::{lead_in, low_first, mask_within, paired, scalar_prefix, turned_round, unit_in};
