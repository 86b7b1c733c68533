//! The open drafts of a store on a disk.
//!
//! A draft is an append under way: the state of transcoding, and the new text on blocks that the draft reserved. Its
//! body isn't stored.
#![tactic(auto)]

mod draft;
mod laws;
mod progress;
mod spare;

pub use draft::{DraftEnd, SpoolDraft};
pub use laws::drafts_unchanged;
