//! The texts of a spool, written into a folder, each as a file.
#![tactic(auto)]

mod command;
mod comparing;
mod exporting;
mod folders;
mod memory;
mod outcomes;
mod places;
mod planning;
mod writing;

pub use command::export_in;
pub use exporting::{ExportTally, export_on, export_uploads};
pub use folders::{FileFolder, Folder, FolderError};
pub use memory::{HeldText, MemoryPlace, MemoryTexts};
pub use places::{FindError, FolderSearch, Places, SystemPlaces};
pub use planning::{Job, plan};
