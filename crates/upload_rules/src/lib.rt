//! The rules of uploads: the trait of stores, with each call's result as a function of the uploads, and a store in
//! memory. Knows no disk and no HTTP.
#![tactic(auto)]

mod appends;
mod drafts;
mod errors;
mod laws;
mod lengths;
mod new_text;
mod records;
mod slot;
mod slots;
mod table;
mod uploads;

pub use drafts::{placed, put_back, taken};
pub use errors::{UploadError, UploadRefusal};
pub use laws::{same_offset, text_grows};
pub use lengths::{is_length, is_new, is_too_large, length_then};
pub use new_text::{NewText, end_text};
pub use records::{New, Record};
pub use table::{NUMBERS_END, Table, TableDraft};
pub use uploads::Uploads;
