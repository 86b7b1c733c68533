//! How long a connection has its place.
ghost use Rattle.std.specs.Prelude.{◌≡◌, ◌↔◌, IsTrue};
ghost use Rattle.gateway_serve.specs.Stays.{HasIdled, HasPaused, HasStayed, IsSlow, GivesWay, IsOver};
ghost use Rattle.gateway_serve.specs.Stays.{has_just_moved, seconds_from};

use std::time::Duration;

/// A connection is ended once nothing came or went for so many seconds, and once a head isn't whole after so many.
const LONGEST_IDLE: u64 = 60;

/// So many seconds a connection that isn't slow has its place, or a body comes, while a socket waits for a place.
const SHORTEST_STAY: u64 = 10;

/// For so many seconds a request may be slow while a socket waits for a place.
const LONGEST_SLOW: u64 = 2;

/// So many bytes a second a request brings that isn't slow, and where turns take longer so many a turn: no turn reads
/// more of a socket.
pub(crate) const LEAST_SPEED: u64 = 4096;

/// For so many milliseconds at least a connection may be between requests.
const SHORTEST_PAUSE: u128 = 20;

/// What a connection is at.
#[derive(Clone, Copy, Debug, PartialEq, Eq, Drop)]
pub enum At {
    /// Between requests: no reply is owed, and nothing of a next request came.
    Between,
    /// In the head of a request.
    Head,
    /// In the body of a request.
    Body,
    /// In a reply: bytes wait for the socket, or a text is still to be given.
    Reply,
}

/// A connection at some time.
#[derive(Clone, Copy, Drop)]
pub struct Stay {
    /// What it is at.
    pub at: At,
    /// Whether a socket waits for a place.
    pub wanted: bool,
    /// Whether it is the one that has been between requests longest.
    pub longest: bool,
    /// When it got its place.
    pub opened: Duration,
    /// When something last came or went.
    pub moved: Duration,
    /// When the head or the body that comes began.
    pub begun: Duration,
    /// Since when its speed is measured.
    pub since: Duration,
    /// How many bytes of it came since then.
    pub brought: u64,
    /// In how many turns before this one its socket was asked since then.
    pub turns: u64,
    /// The time.
    pub time: Duration,
}

impl Stay {
    /// Whether the connection is ended: its time is over whatever the others do, or it gives its place to a socket that
    /// waits.
    pub(crate) fn is_over(&self) -> bool
        ensures { IsTrue result ↔ IsOver self.now }
    {
        self.has_idled() || (self.wanted && self.gives_way())
    }

    /// Whether it has had its place for ten seconds while a socket waits for one: it gives way once no reply is owed.
    pub(crate) fn has_stayed(&self) -> bool
        ensures { IsTrue result ↔ HasStayed self.now }
    {
        self.wanted && seconds_from(self.opened, self.time) >= SHORTEST_STAY
    }

    /// Whether it is between requests and something came or went just now: more may be under way.
    pub(crate) fn has_just_moved(&self) -> bool
        ensures { result ≡ has_just_moved self.now }
    {
        matches!(self.at, At::Between) && self.moved.as_nanos() == self.time.as_nanos()
    }

    // Whether nothing came or went for too long, or the head of a request isn't whole.
    fn has_idled(&self) -> bool
        ensures { IsTrue result ↔ HasIdled self.now }
    {
        match self.at {
            At::Head => seconds_from(self.begun, self.time) >= LONGEST_IDLE,
            At::Between | At::Body | At::Reply => seconds_from(self.moved, self.time)
                >= LONGEST_IDLE,
        }
    }

    // Whether it gives way.
    fn gives_way(&self) -> bool
        ensures { IsTrue result ↔ GivesWay self.now }
    {
        match self.at {
            At::Between => self.has_paused()
                || seconds_from(self.opened, self.time) >= SHORTEST_STAY,
            At::Head => self.is_slow(),
            At::Body => self.is_slow() || seconds_from(self.begun, self.time) >= SHORTEST_STAY,
            At::Reply => false,
        }
    }

    // Whether no other connection has been between requests longer, and it has been so for long enough.
    fn has_paused(&self) -> bool
        ensures { IsTrue result ↔ HasPaused self.now }
    {
        self.longest && self.time.saturating_sub(self.moved).as_millis() >= SHORTEST_PAUSE
    }

    // Whether its request brought too little for too long.
    fn is_slow(&self) -> bool
        ensures { IsTrue result ↔ IsSlow self.now }
    {
        let seconds = seconds_from(self.since, self.time);
        seconds >= LONGEST_SLOW && self.brought / LEAST_SPEED < seconds.min(self.turns)
    }
}

// The whole seconds from one time to another.
fn seconds_from(since: Duration, now: Duration) -> u64
    ensures { result ≡ seconds_from since now }
{
    now.saturating_sub(since).as_secs()
}
