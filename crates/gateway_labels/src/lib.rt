//! Which labels a text may have: what each encoding makes of it, the likeliest first. The rule knows no language.
#![tactic(auto)]

mod choice;
mod class;
mod classes;
mod counts;
mod desk;
mod json;
mod labelling;
mod lines;
mod measure;
mod notes;
mod reading;
mod sample;
mod trial;
mod unread;

pub use choice::{Choice, put_in_order};
pub use class::{Case, Class};
pub use classes::Classes;
pub use counts::Counts;
pub use json::json_of;
pub use labelling::{WantedLabels, labels_in};
pub use lines::lines_of;
pub use reading::{FIRST, Labels, labels_on};
pub use unread::Unread;
