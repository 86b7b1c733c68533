//! A spool as a store of uploads: formatting, opening, upgrading and raising one, and all calls on its uploads.
#![tactic(auto)]

mod error;
mod formatting;
mod laws;
mod layout;
mod raising;
mod spool;
mod upgrading;

pub use error::{FormatError, RaiseError, UpgradeError};
pub use formatting::{format, is_spool};
pub use laws::{cut_openings, images_open, limits_open, shown_texts};
pub use layout::pages_of;
pub use raising::{LATEST, raise};
pub use spool::{Spool, SpoolAppend};
pub use spool_catalog::OpenFault;
pub use upgrading::upgrade;
