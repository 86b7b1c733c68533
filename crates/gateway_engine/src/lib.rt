//! A gateway over a spool, and scripts over it.
#![tactic(auto)]

mod faults;
mod gateway;
mod laws;
mod scripts;
mod spools;

pub use faults::RunFault;
pub use gateway::Gateway;
pub use gateway_script::{CallFault, CountedRead, CountedWrite, Refused, ScriptFault};
pub use laws::runs_join;
pub use scripts::run_over;
pub use spools::{run, run_opened};
pub use tus_session::Connections;
