//! Scripts over connections: their lines, the calls that these ask for, and what is written. No store is known here.
#![tactic(auto)]

mod calls;
mod digits;
mod faults;
mod lines;
mod orders;
mod runs;
mod scripts;
mod writing;

pub use faults::{CallFault, ScriptFault};
pub use gateway_streams::{CountedRead, CountedWrite, Refused};
pub use runs::run_script;
pub use scripts::read_script;
