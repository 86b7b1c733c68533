//! Uploads deleted by their numbers, or all that are not complete.
#![tactic(auto)]

mod deleting;
mod incomplete;

pub use deleting::{delete_in, delete_on, delete_uploads};
pub use incomplete::{Incomplete, incomplete_in, incomplete_numbers, incomplete_on};
