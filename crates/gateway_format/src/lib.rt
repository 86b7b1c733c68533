//! Spools made, raised and upgraded.
#![tactic(auto)]

mod blanks;
mod formatting;
mod raising;
mod reports;
mod upgrading;

pub use blanks::is_blank;
pub use formatting::{Made, NewSpool, format_at, format_in, format_on, format_raised_in};
pub use raising::raise_in;
pub use upgrading::upgrade_in;
