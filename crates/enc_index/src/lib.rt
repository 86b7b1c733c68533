//! Index files: reading them, looking up pointers and code points, and storing a set of them in a spool.
#![tactic(auto)]

mod area;
mod file;
mod index;
mod kind;
mod laws;
mod pointers;
mod ready;
mod set;
mod sizes;
mod table;
mod usable;

pub use area::AREA_SIZE;
pub use index::Index;
pub use kind::{AreaError, Kind, ReadError};
pub use laws::area_numbers;
pub use pointers::Pointers;
pub use set::IndexSet;
