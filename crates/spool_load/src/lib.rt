//! Opening a spool: it is found on a disk, recovered, read and checked. Only valid spools pass.
#![tactic(auto)]

mod error;
mod finding;
mod loading;
mod opening;
mod owners;
mod reading;
mod slots;

pub use error::LoadError;
pub use finding::{Found, find};
pub use loading::read;
pub use opening::load;
