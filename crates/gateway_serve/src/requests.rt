//! What serving measures of a request: since when its head or its body comes, and how fast.
ghost use Rattle.std.specs.Prelude.{◌≡◌};
ghost use Rattle.gateway_serve.specs.Requests.{at_in, measured_anew, part_at, request_by, request_from};
ghost use Rattle.gateway_serve.specs.Requests.{with_more, with_turn};

use crate::stays::{At, LEAST_SPEED};
use std::time::Duration;

/// For so many seconds the speed of a request is measured, then anew.
const MEASURED: u64 = 2;

/// The part of a request that comes.
#[derive(Clone, Copy, Debug, PartialEq, Eq, Drop)]
pub(crate) enum Part {
    /// Its head.
    Head,
    /// Its body, whether it is stored or dropped.
    Body,
}

/// The head or the body of a request, of which some bytes came.
#[derive(Clone, Copy, Debug, PartialEq, Eq, Drop)]
pub(crate) struct Request {
    part: Part,
    /// When that part began.
    pub(crate) begun: Duration,
    /// Since when its speed is measured.
    pub(crate) since: Duration,
    /// How many bytes came since then.
    pub(crate) brought: u64,
    /// In how many turns its socket was asked since then.
    pub(crate) turns: u64,
}

impl Request {
    /// Of which nothing came, at this time.
    pub(crate) fn new(part: Part, now: Duration) -> Self
        ensures { result ≡ request_from part now }
    {
        Request {
            part,
            begun: now,
            since: now,
            brought: 0,
            turns: 0,
        }
    }

    /// What a connection in this request is at.
    pub(crate) fn at(&self) -> At
        ensures { result ≡ at_in self.now.part }
    {
        match self.part {
            Part::Head => At::Head,
            Part::Body => At::Body,
        }
    }

    /// So many bytes more of it came.
    fn add(&mut self, count: usize)
        ensures { self.new ≡ with_more self.old count }
    {
        self.brought = self.brought.saturating_add(count as u64);
    }

    /// Its socket was asked in one more turn. Its speed is measured anew, where it was fast enough for two seconds.
    pub(crate) fn measure(&mut self, now: Duration)
        ensures { self.new ≡ measured_anew (with_turn self.old) now }
    {
        self.turns = self.turns.saturating_add(1);
        let seconds = now.saturating_sub(self.since).as_secs();
        if seconds >= MEASURED && self.brought / LEAST_SPEED >= seconds.min(self.turns) {
            self.since = now;
            self.brought = 0;
            self.turns = 0;
        }
    }
}

/// The request that a connection is in, which was in another one or in none, after so many bytes were taken: the
/// session says what it is at now. Bytes of one part belong to one request, since each call takes bytes of one request
/// alone.
pub(crate) fn request_after(
    request: Option<Request>,
    at: Option<tus_session::At>,
    count: usize,
    now: Duration,
) -> Option<Request>
    ensures { result ≡ request_by request at count now }
{
    let part = part_at(at?)?;
    let mut next = match request {
        Some(request) if request.part == part => request,
        _ => Request::new(part, now),
    };
    next.add(count);
    Some(next)
}

// The part that comes, if the session is at one.
fn part_at(at: tus_session::At) -> Option<Part>
    ensures { result ≡ part_at at }
{
    match at {
        tus_session::At::Head => Some(Part::Head),
        tus_session::At::Body => Some(Part::Body),
        tus_session::At::Between | tus_session::At::Text => None,
    }
}
