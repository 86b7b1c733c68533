//! The requests and replies of a connection, as the session takes and gives them.

use crate::heads::{ReplyHead, RequestHead};
use crate::shown::Client;
use std::alloc::Global;
use std::collections::VecDeque;
use std::mem;
use std::time::Duration;
use tus_session::At;

/// A request as far as it came, and its reply as far as it was sent.
#[derive(Drop)]
pub(crate) struct Exchange {
    pub(crate) head: RequestHead,
    /// How many bytes of the request came until the reply was given.
    pub(crate) came: u64,
    /// When the first of them came.
    pub(crate) since: Duration,
    /// The head of the reply, once it was given.
    pub(crate) reply: Option<ReplyHead>,
    /// How many bytes of replies were given to the client, and how many of these were sent.
    given: u64,
    pub(crate) sent: u64,
    /// Whether all of the reply was given and sent.
    pub(crate) is_whole: bool,
}

impl Exchange {
    // Of a request whose first byte comes now.
    fn new(alloc: Global, now: Duration) -> Self {
        Exchange {
            head: RequestHead::new(alloc),
            came: 0,
            since: now,
            reply: None,
            given: 0,
            sent: 0,
            is_whole: false,
        }
    }

    // Takes bytes that were given to the client.
    fn give(&mut self, given: &[u8]) {
        if self.reply.is_none() {
            self.reply = ReplyHead::read(given);
        }
        self.given = plus(self.given, given.len());
    }

    // So many bytes were sent, of this reply as far as it was given and then of later ones. How many are left for
    // these.
    fn send(&mut self, count: u64) -> u64 {
        let sent = count.min(self.given.saturating_sub(self.sent));
        self.sent = self.sent.saturating_add(sent);
        count.saturating_sub(sent)
    }
}

/// How long a client waited for its place before an exchange, and how long the exchange took.
#[derive(Clone, Copy, Debug, PartialEq, Eq, Drop)]
pub(crate) struct Spent {
    pub(crate) waited: Duration,
    pub(crate) took: Duration,
}

/// What a call of the session came to.
#[derive(Clone, Copy)]
pub struct Call<'b> {
    /// The bytes that it took, which belong to one request.
    pub taken: &'b [u8],
    /// The bytes that it gave, which belong to the reply to that request.
    pub given: &'b [u8],
    /// What the connection is at then; `None` if it is closed.
    pub at: Option<At>,
}

/// The requests and replies of a connection.
#[derive(Drop)]
pub(crate) struct Talk {
    alloc: Global,
    client: Client,
    accepted: Duration,
    /// How long it waited until the session opened its connection; `None` while it waits.
    waited: Option<Duration>,
    /// The number of that connection, until it is over.
    conn: Option<usize>,
    at: At,
    /// The bytes so far of a head that isn't whole.
    head: Vec<u8>,
    /// The request that is under way: its reply isn't given, or not all of it.
    current: Option<Exchange>,
    /// Those whose replies were given, and not all sent.
    answered: VecDeque<Exchange>,
    /// How many lines were told of it.
    told: u64,
}

impl Talk {
    /// No requests and no replies.
    pub(crate) fn new(alloc: Global, client: Client, now: Duration) -> Self {
        Talk {
            alloc,
            client,
            accepted: now,
            waited: None,
            conn: None,
            at: At::Between,
            head: Vec::new(alloc),
            current: None,
            answered: VecDeque::new(alloc),
            told: 0,
        }
    }

    /// The client.
    pub(crate) fn client(&self) -> Client {
        self.client
    }

    /// Whether the session opened its connection.
    pub(crate) fn is_placed(&self) -> bool {
        self.waited.is_some()
    }

    /// Whether its connection has this number.
    pub(crate) fn has(&self, conn: usize) -> bool {
        self.conn == Some(conn)
    }

    /// Whether its connection is open.
    pub(crate) fn is_open(&self) -> bool {
        self.conn.is_some()
    }

    /// The session opened its connection, with this number.
    pub(crate) fn place(&mut self, conn: usize, now: Duration) {
        self.conn = Some(conn);
        self.waited = Some(now.saturating_sub(self.accepted));
    }

    /// Whether a body of a request is under way.
    pub(crate) fn is_in_body(&self) -> bool {
        self.is_open() && self.at == At::Body
    }

    /// The number of the upload whose body is under way, if one is.
    pub(crate) fn upload(&self) -> Option<u64> {
        if !self.is_in_body() {
            return None;
        }
        self.current.as_ref()?.head.upload()
    }

    /// Takes what a call of the session came to, and returns whether it completed a head. Bytes of a body whose request
    /// has its reply belong to no exchange.
    pub(crate) fn add(&mut self, now: Duration, call: Call) -> bool {
        let is_head = self.at == At::Between || self.at == At::Head;
        if !call.taken.is_empty() && (is_head || self.current.is_some()) {
            self.come(now, call.taken);
        }
        let completes = is_head && !call.taken.is_empty() && call.at != Some(At::Head);
        if is_head {
            self.add_head(call.taken, completes);
        }
        self.give(call.given, call.at);
        completes
    }

    // Counts bytes of the current request; another one begins if none is under way.
    fn come(&mut self, now: Duration, taken: &[u8]) {
        let mut exchange = match self.current.take() {
            Some(exchange) => exchange,
            None => Exchange::new(self.alloc, now),
        };
        exchange.came = plus(exchange.came, taken.len());
        self.current = Some(exchange);
    }

    // Takes bytes of a head, or those that complete it and what the session took behind them. Out of memory the head is
    // shown as if it weren't there.
    fn add_head(&mut self, taken: &[u8], completes: bool) {
        if !completes || !self.head.is_empty() {
            let stored = self.head.extend_from_slice(taken);
            drop(stored);
        }
        if !completes {
            return;
        }
        let head = mem::replace(&mut self.head, Vec::new(self.alloc));
        if let Some(exchange) = &mut self.current {
            let bytes = if head.is_empty() { taken } else { &head };
            exchange.head = RequestHead::read(self.alloc, bytes);
        }
    }

    // Takes bytes of the current reply. It is answered once no more of it is to come. Out of memory its line is lost.
    fn give(&mut self, given: &[u8], at: Option<At>) {
        self.at = at.unwrap_or(At::Between);
        if at.is_none() {
            self.conn = None;
        }
        let Some(mut exchange) = self.current.take() else {
            return;
        };
        exchange.give(given);
        if exchange.reply.is_some() && self.at != At::Text {
            let stored = self.answered.push_back(exchange);
            drop(stored);
        } else {
            self.current = Some(exchange);
        }
    }

    /// So many bytes were sent.
    pub(crate) fn send(&mut self, count: usize) {
        let mut left = count as u64;
        for exchange in &mut self.answered {
            left = exchange.send(left);
        }
        if let Some(exchange) = &mut self.current {
            exchange.send(left);
        }
    }

    /// How many replies were given that aren't told of.
    pub(crate) fn unsent(&self) -> usize {
        self.answered.len()
    }

    /// The oldest exchange whose reply is sent, if there is one.
    pub(crate) fn next_sent(&mut self) -> Option<Exchange> {
        let oldest = self.answered.front()?;
        if oldest.sent < oldest.given {
            return None;
        }
        let mut exchange = self.answered.pop_front()?;
        exchange.is_whole = true;
        Some(exchange)
    }

    /// The oldest exchange that the connection leaves, which is over. One that never had any leaves an empty one.
    pub(crate) fn next_left(&mut self) -> Option<Exchange> {
        if let Some(exchange) = self.answered.pop_front() {
            return Some(exchange);
        }
        if let Some(mut exchange) = self.current.take() {
            if !self.head.is_empty() {
                exchange.head = RequestHead::read(self.alloc, &self.head);
                self.head.clear();
            }
            return Some(exchange);
        }
        if self.told > 0 {
            return None;
        }
        Some(Exchange::new(self.alloc, self.accepted))
    }

    /// How long an exchange took whose line is told now, and how long the client waited, where that isn't told yet.
    pub(crate) fn tell(&mut self, exchange: &Exchange, now: Duration) -> Spent {
        self.told = self.told.saturating_add(1);
        let waited = self.waited.unwrap_or(now.saturating_sub(self.accepted));
        self.waited = Some(Duration::ZERO);
        Spent {
            waited,
            took: now.saturating_sub(exchange.since),
        }
    }
}

// A sum of counts.
fn plus(count: u64, more: usize) -> u64 {
    count.saturating_add(more as u64)
}
