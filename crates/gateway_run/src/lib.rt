//! Input, run as a script over a spool in a file or in memory.
#![tactic(auto)]

mod scripting;

pub use scripting::script_in;
