//! The operator's index files, told from the standard's, and what a spool has: of indexes and of free room.
#![tactic(auto)]

mod digests;
mod folders;
mod found;
mod index_files;
mod memory;
mod reports;
mod spool_indexes;
mod surveying;
mod tables;

pub use digests::{digest_of, is_standard, standard_digest};
pub use folders::{FolderAnswer, FolderCall, IndexFolders, SystemFolders};
pub use found::Found;
pub use index_files::{IndexFile, IndexFiles, read_indexes, read_wanted, standard_entries};
pub use memory::{HeldFile, MemoryFolder};
pub use reports::{report_free, report_others, report_read};
pub use spool_indexes::{Doubtful, InSpool, doubtful_of, found_in, report_indexes};
pub use surveying::{Survey, Used, open_surveyed, survey_of, used_of};
pub use tables::{Kept, Table, entries_of};
