//! A disk that lives through rounds. In each it is opened and a script is run over it, or it is brought to version 2,
//! or it gets a later next number. Then it crashes, or goes on as it is.
#![tactic(auto)]

mod life;
mod round;
mod streams;

pub use gateway_engine::RunFault;
pub use life::{endure, live_through};
pub use round::{End, Raise, Round, Run, Work};
pub use streams::WrittenBytes;
