//! Texts on a spool's blocks, and the new text of a draft on reserved ones.
//!
//! A text lies on its slot's blocks by ordinal, 4,096 bytes on each. A draft begins with the bytes on the last,
//! unfinished block of the committed text, or with zeros once the upload is deleted. It writes only blocks that it
//! reserved itself: each when it is full, and the last ones by `write_last`. So a committed block is never written
//! again.
#![tactic(auto)]

mod block_text;
mod error;
mod last_blocks;
mod laws;
mod reads;
mod reserving;

pub use block_text::BlockText;
pub use error::DraftError;
pub use last_blocks::write_last;
pub use laws::{same_but_blocks, shown_texts, texts_unchanged};
pub use reads::read_text;
