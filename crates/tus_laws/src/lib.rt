//! Laws of histories: of the PATCHes that began at one offset of an upload at most one is accepted, and it doesn't
//! matter how streams are cut.
#![tactic(auto)]

mod laws;

pub use laws::{
    all_bytes, any_cut, moments_of_streams, new_numbers, one_commit, one_winner, same_offset,
};
