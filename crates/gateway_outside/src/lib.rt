//! The outside of the program: files that spools are in, streams, why it ends before its work is done, and what it says
//! then.
#![tactic(auto)]

mod advice;
mod failures;
mod faults;
mod finding;
mod laws;
mod memory;
mod openings;
mod spool_files;
mod standard;

pub use advice::{Advice, Task, TextAdvice};
pub use failures::{Failure, ended};
pub use faults::Fault;
pub use finding::{find_folder, look_into};
pub use gateway_streams::{Input, Noted, Output, Refused};
pub use laws::shown_in_order;
pub use memory::MemoryFile;
pub use openings::Unopened;
pub use spool_files::{SpoolFiles, SystemFiles, open_in, refused_by, refused_in};
pub use standard::{Closed, files_to_open};
