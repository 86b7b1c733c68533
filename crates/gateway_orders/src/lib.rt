//! The command line of the program, read as an order. It relies on clap.
#![tactic(auto)]

mod commands;
mod orders;
mod usage;

pub use orders::{Order, Service, read_order};
pub use usage::{USAGE, report_usage};
