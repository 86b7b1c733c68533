//! A log of requests and replies: what a session's calls took and gave, and what was sent of it.
#![tactic(auto)]

mod counts;
mod heads;
mod refusals;
mod shown;
mod stock;
mod streams;
mod talks;
mod writing;

pub use stock::{Progress, Stock};
pub use streams::LoggedStream;
pub use talks::Call;
pub use writing::Log;
