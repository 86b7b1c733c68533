//! Serving over sockets: the connections of a gateway, turn by turn in one thread.
#![tactic(auto)]

mod acceptors;
mod buffers;
mod clocks;
mod doors;
mod drains;
mod idle;
mod laws;
mod links;
mod parted;
mod places;
mod reasons;
mod requests;
mod rounds;
mod server;
mod serving;
mod sockets;
mod stages;
mod stays;

pub use acceptors::{Acceptor, Arrival, Listening};
pub use clocks::{Showing, Timer};
pub use doors::{AtDoor, Clients};
pub use drains::{DrainEnd, Drained, MOST_DRAINING};
pub use laws::known_talks;
pub use parted::Parting;
pub use reasons::{Gone, Reason};
pub use serving::{Outcome, serve_on};
pub use sockets::{Latest, Seen, Spell};
pub use stays::{At, Stay};
