//! The pages of a spool as bytes: what they encode, and how they are changed by one commit.
#![tactic(auto)]

mod changes;
mod changing;
mod damaged;
mod fields;
mod laws;
mod pages;
mod places;
mod records;
mod rests;
mod rows;
mod slot_pages;
mod upgrading;
mod version;

pub use changes::{fill_rows, pages_of_change, pages_of_new, pages_of_next};
pub use changing::change;
pub use damaged::Damaged;
pub use laws::page_numbers;
pub use pages::{
    MAGIC, blank_page, blocks_encoded, first_page, is_blank, is_blank_after_fields, state_page,
    version_and_next,
};
pub use places::{
    AREA_PAGES, FIRST_ROW_PAGE, index_place, row_pages, rows_place, slot_place, state_place,
};
pub use records::{BorrowedRecord, RECORD};
pub use rests::{resting_images, resting_writes, settled_rests};
pub use rows::{are_free, row_at, row_page};
pub use upgrading::pages_of_upgrade;
pub use version::Version;
