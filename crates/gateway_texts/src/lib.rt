//! The texts of uploads, copied to a writer; the names that their metadata gives, and their signs of lost bytes.
#![tactic(auto)]

mod copies;
mod losses;
mod naming;

pub use copies::{PIECE, copy_text, read_at};
pub use losses::{Signs, Tally, losses_of, report_losses, report_losses_of};
pub use naming::{given_name, is_clean, is_hidden, is_safe_name};
