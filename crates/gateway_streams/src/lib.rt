//! Readers and writers that count what they refuse, and one that stores why.
#![tactic(auto)]

mod counted;
mod noted;
mod streams;

pub use counted::{CountedRead, CountedWrite, Refused};
pub use noted::Noted;
pub use streams::{Input, Output};
