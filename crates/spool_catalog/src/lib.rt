//! The catalog of a spool, which is in memory: the records, the blocks of each text, the order of the numbers, and the
//! checks that make it valid. It defines what a view shows, how each change alters the catalog, and which pages a
//! change makes. It reads texts from a disk and writes nothing. Opening (`spool_load`) and changing (`spool_kept`) both
//! use it, so it may use neither, nor drafts.
#![tactic(auto)]

mod answers;
mod catalog;
mod checks;
mod error;
mod lists;
mod longer;
mod order;
mod raising;
mod records;
mod taking_in;
mod taking_out;
mod upgrading;

pub use answers::CatalogUpload;
pub use catalog::Catalog;
pub use checks::{are_rows_valid, are_valid};
pub use error::{CheckError, OpenFault};
pub use lists::blocks_of;
pub use longer::Longer;
pub use raising::raised_shows;
pub use records::{CatalogRecord, record_at};
pub use upgrading::upgraded_shows;
