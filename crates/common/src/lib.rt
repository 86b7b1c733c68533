//! What several crates build on: why a call stops, the sizes and limits, the trace that clauses read, parts of texts,
//! and the words for counts and reads.
#![tactic(auto)]

mod given;
mod limits;
mod stop;
mod texts;
mod trace;

pub use crate::given::GivenRead;
pub use crate::limits::{LEAST_BLOCKS, MOST_BLOCKS, MOST_LENGTH, MOST_METADATA, ROWS, SLOTS};
pub use crate::stop::{DiskFault, Stop};
pub use crate::texts::{after, number, prefix};
pub use crate::trace::Trace;
