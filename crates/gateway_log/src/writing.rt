//! The log of a server.

use crate::counts::Counts;
use crate::shown::{Client, write_counts, write_exchange};
use crate::stock::{Progress, Stock};
use crate::talks::{Call, Exchange, Talk};
use std::alloc::Global;
use std::cell::{Cell, RefCell};
use std::io::Write;
use std::mem;
use std::net::SocketAddr;
use std::time::{Clock, Duration};

/// Lines are written once they have this many bytes.
const FULL: usize = 16_384;

/// After so many seconds a read or a write of a connection has the log written: while a client waits for a place, none
/// is accepted.
const LATEST: u64 = 1;

/// After so many seconds another look at the spool is wanted.
const LOOK: u64 = 1;

/// How many seconds pass between two lines of counts.
const MINUTE: u64 = 60;

/// A log, which the connections of a server share. It is told of each call of the session, so that what is a request
/// and what a reply is the session's word, and of what was sent to each client. Its lines are gathered, and written
/// when the server accepts, or a second later when it reads or writes. Out of memory a line is lost, and if the writer
/// fails, so is what was gathered; neither is reported.
#[derive(Drop)]
pub struct Log<'a, T: Clock, W: Write + Drop> {
    alloc: Global,
    clock: &'a T,
    writer: RefCell<W>,
    lines: Cell<Vec<u8>>,
    counts: RefCell<Counts>,
    /// The clients that are there, by the order of acceptance.
    talks: RefCell<Vec<Talk>>,
    /// How many connections there were.
    accepted: Cell<u64>,
    /// The clock's time when it was last asked.
    now: Cell<Duration>,
    /// When the log last had a turn, in which it writes what was gathered.
    turned: Cell<Duration>,
    /// When counts were last gathered.
    counted: Cell<Duration>,
    /// What was left at the latest look at the spool, and when that was.
    stock: Cell<Option<Stock>>,
    looked: Cell<Duration>,
}

impl<'a, T: Clock, W: Write + Drop> Log<'a, T, W> {
    /// A log without lines, with the times of this clock.
    pub fn new(clock: &'a T, alloc: Global, writer: W) -> Self {
        let now = now_of(clock);
        Log {
            alloc,
            clock,
            writer: RefCell::new(writer),
            lines: Cell::new(Vec::new(alloc)),
            counts: RefCell::new(Counts::NONE),
            talks: RefCell::new(Vec::new(alloc)),
            accepted: Cell::new(0),
            now: Cell::new(now),
            turned: Cell::new(now),
            counted: Cell::new(now),
            stock: Cell::new(None),
            looked: Cell::new(now),
        }
    }

    /// Writes the lines of the clients that are left, and the counts since the last line of counts.
    pub fn end(&self) {
        if let Ok(mut talks) = self.talks.try_borrow_mut() {
            for talk in talks.iter_mut() {
                self.leave(talk, None);
            }
            talks.clear();
        }
        self.log_counts();
        self.write();
    }

    /// Whether another look at the spool is wanted: there was none yet, or the latest was a second ago.
    pub fn wants_stock(&self) -> bool {
        let since = self.ask().saturating_sub(self.looked.get());
        self.stock.get().is_none() || since.as_secs() >= LOOK
    }

    /// Takes what is left in the spool.
    pub fn take_stock(&self, stock: Stock) {
        self.stock.set(Some(stock));
        self.looked.set(self.now.get());
    }

    /// The session opened a connection with this number, for the client who waited for one.
    pub fn opened(&self, conn: usize) {
        let now = self.ask();
        if let Ok(mut talks) = self.talks.try_borrow_mut()
            && let Some(talk) = talks.iter_mut().find(|talk| !talk.is_placed())
        {
            talk.place(conn, now);
        }
    }

    /// A call of the session for the connection with this number came to this.
    pub fn called(&self, conn: usize, call: Call) {
        if let Ok(mut talks) = self.talks.try_borrow_mut()
            && let Some(talk) = talks.iter_mut().find(|talk| talk.has(conn))
        {
            if talk.add(self.now.get(), call) {
                self.count_request();
            }
            self.tell_sent(talk);
        }
    }

    /// The number of the upload whose body is under way on the connection with this number, if one is.
    pub fn upload_at(&self, conn: usize) -> Option<u64> {
        let talks = self.talks.try_borrow().ok()?;
        talks.iter().find(|talk| talk.has(conn))?.upload()
    }

    /// The session ended the connection with this number, whose client is gone. The upload whose body was cut came so
    /// far, where that is known.
    pub fn ended(&self, conn: usize, progress: Option<Progress>) {
        if let Some(mut talk) = self.take(|talk| talk.has(conn)) {
            self.leave(&mut talk, progress);
        }
    }

    /// The stream of the client with this number is gone. Where the session has its connection still, its lines wait
    /// until that is ended.
    pub(crate) fn hung_up(&self, client: u64) {
        let gone = self.take(|talk| talk.client().number == client && !talk.is_open());
        if let Some(mut talk) = gone {
            self.leave(&mut talk, None);
        }
    }

    /// A client was accepted, with this number then.
    pub(crate) fn accept(&self, address: SocketAddr) -> u64 {
        let number = self.accepted.get().saturating_add(1);
        self.accepted.set(number);
        if let Ok(mut counts) = self.counts.try_borrow_mut() {
            counts.add_connection();
        }
        let talk = Talk::new(self.alloc, Client { number, address }, self.ask());
        if let Ok(mut talks) = self.talks.try_borrow_mut() {
            // Out of memory its lines are lost.
            drop(talks.push(talk));
        }
        number
    }

    /// Counts a client that couldn't be accepted.
    pub fn count_unaccepted(&self) {
        if let Ok(mut counts) = self.counts.try_borrow_mut() {
            counts.add_unaccepted();
        }
    }

    /// Counts received bytes.
    pub(crate) fn count_in(&self, bytes: usize) {
        if let Ok(mut counts) = self.counts.try_borrow_mut() {
            counts.add_in(bytes);
        }
    }

    /// So many bytes were sent to the client with this number.
    pub(crate) fn sent(&self, client: u64, bytes: usize) {
        if let Ok(mut counts) = self.counts.try_borrow_mut() {
            counts.add_out(bytes);
        }
        if let Ok(mut talks) = self.talks.try_borrow_mut()
            && let Some(talk) = talks.iter_mut().find(|talk| talk.client().number == client)
        {
            talk.send(bytes);
            self.tell_sent(talk);
        }
    }

    /// Writes what was gathered, and each minute the counts.
    pub fn turn(&self) {
        self.turn_at(self.ask());
    }

    /// Does the same if the last time was a second ago.
    pub(crate) fn turn_if_late(&self) {
        let now = self.ask();
        if now.saturating_sub(self.turned.get()).as_secs() >= LATEST {
            self.turn_at(now);
        }
    }

    // Writes what was gathered, and each minute the counts, at this time.
    fn turn_at(&self, now: Duration) {
        if now.saturating_sub(self.counted.get()).as_secs() >= MINUTE {
            self.counted.set(now);
            self.log_counts();
        }
        self.turned.set(now);
        self.write();
    }

    // Takes out the client that is meant.
    fn take<F: Fn(&Talk) -> bool>(&self, is_meant: F) -> Option<Talk>
        requires { F.IsAlwaysCallable is_meant }
    {
        let mut talks = self.talks.try_borrow_mut().ok()?;
        let place = talks.iter().position(is_meant)?;
        Some(talks.remove(place))
    }

    // Logs the exchanges whose replies are sent.
    fn tell_sent(&self, talk: &mut Talk) {
        for _ in 0..talk.unsent() {
            let Some(exchange) = talk.next_sent() else {
                return;
            };
            self.count_reply(&exchange);
            self.log_exchange(talk, &exchange, None);
        }
    }

    // Logs the exchanges that a connection leaves, which is over.
    fn leave(&self, talk: &mut Talk, progress: Option<Progress>) {
        self.ask();
        for _ in 0..=talk.unsent() {
            let Some(exchange) = talk.next_left() else {
                return;
            };
            self.log_exchange(talk, &exchange, progress);
        }
    }

    // Gathers the line of an exchange that is over. A body that was cut has what its upload has.
    fn log_exchange(&self, talk: &mut Talk, exchange: &Exchange, progress: Option<Progress>) {
        let spent = talk.tell(exchange, self.now.get());
        let time = self.time();
        let mut lines = self.lines.replace(Vec::new(self.alloc));
        let length = lines.len();
        if write_exchange(&mut lines, time, talk.client(), exchange, spent, progress).is_err() {
            lines.truncate(length);
        }
        let full = lines.len() >= FULL;
        self.lines.set(lines);
        if full {
            self.write();
        }
    }

    // Counts a request whose head came.
    fn count_request(&self) {
        if let Ok(mut counts) = self.counts.try_borrow_mut() {
            counts.add_request();
        }
    }

    // Counts a complete reply by its class.
    fn count_reply(&self, exchange: &Exchange) {
        if let Ok(mut counts) = self.counts.try_borrow_mut()
            && let Some(reply) = exchange.reply
        {
            counts.add_reply(reply.status);
        }
    }

    // Gathers the counts, if there was traffic.
    fn log_counts(&self) {
        let Ok(mut gathered) = self.counts.try_borrow_mut() else {
            return;
        };
        let counts = mem::replace(&mut *gathered, Counts::NONE);
        if counts.is_none() {
            return;
        }
        let time = self.time();
        let mut lines = self.lines.replace(Vec::new(self.alloc));
        let length = lines.len();
        if write_counts(&mut lines, time, &counts, self.bodies(), self.stock.get()).is_err() {
            lines.truncate(length);
        }
        self.lines.set(lines);
    }

    // How many bodies are under way.
    fn bodies(&self) -> usize {
        match self.talks.try_borrow() {
            Ok(talks) => talks.iter().filter(|talk| talk.is_in_body()).count(),
            Err(_) => 0,
        }
    }

    // Writes what was gathered.
    fn write(&self) {
        let mut lines = self.lines.replace(Vec::new(self.alloc));
        if !lines.is_empty()
            && let Ok(mut writer) = self.writer.try_borrow_mut()
        {
            // What the writer doesn't take is lost.
            let written = writer.write_all(&lines);
            drop(written);
            lines.clear();
        }
        self.lines.set(lines);
    }

    // Asks the clock for its time, which counts until it is asked again.
    fn ask(&self) -> Duration {
        let now = now_of(self.clock);
        self.now.set(now);
        now
    }

    // The time of day, since 1970.
    fn time(&self) -> Duration {
        self.clock.since_1970().unwrap_or(Duration::ZERO)
    }
}

// The clock's time, or its start if it has none.
fn now_of<T: Clock>(clock: &T) -> Duration {
    clock.monotonic().unwrap_or(Duration::ZERO)
}
