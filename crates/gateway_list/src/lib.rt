//! The uploads of a spool, line by line.
#![tactic(auto)]

mod json_heads;
mod json_lines;
mod json_texts;
mod listing;
mod losses;
mod upload_lines;

pub use json_lines::{json_in, json_on};
pub use listing::{list_in, list_on, write_uploads};
pub use losses::losses_on;
