//! The effects of a request on the uploads, and its reply. Uses `tus_request` for the bytes and `upload_rules` for the
//! uploads.
#![tactic(auto)]

pub mod acts;
pub mod bodies;
pub mod reads;
pub mod refusals;
pub mod requests;
mod writes;

pub use acts::{Done, Given, Giving};
pub use bodies::{OpenPatch, cut, feed, finish};
pub use reads::{PIECE, PieceBuffer, give_more};
pub use refusals::fault_of;
pub use requests::act;
