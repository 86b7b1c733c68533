//! A spool in a file, served at a port of this machine, or at an address until the program is ended.
#![tactic(auto)]

mod guarded;
mod listeners;
mod logged;
mod openly;
mod reports;
mod serving;
mod stops;
mod watched;

pub use guarded::{Guarded, Sentry};
pub use listeners::{Bound, ListenCall, Listeners, SystemListeners};
pub use logged::Logged;
pub use openly::{Reporting, Upkeep, up_in};
pub use reports::{
    report_few, report_few_sockets, report_gone, report_open, report_served, report_up,
};
pub use serving::serve_in;
pub use stops::Stopped;
pub use watched::Watched;
