//! Changes of a spool, in memory (`spool_catalog`) and on the disk together: an upload is made, gets longer or goes,
//! and the drafts of its appends are begun, made longer, committed and dropped. How a spool is opened isn't known here.
#![tactic(auto)]

mod committing;
mod creating;
mod drafting;
mod extending;
mod finding;
mod terminating;

pub use committing::commit;
pub use creating::create;
pub use drafting::{append, begin, drop_open};
pub use terminating::terminate;
