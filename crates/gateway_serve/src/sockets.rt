//! Sockets, with all bytes that came from each and all that went to it. Only clauses read these: they take no memory,
//! and keeping them does nothing when it runs.
ghost use Rattle.std.specs.Prelude.{◌≡◌, [], ◌++◌, length, take, IfOk, OnErr};
ghost use Rattle.std.specs.Io.{ReadsAtMost, WritesAtMost};
ghost use Rattle.std.specs.Io.KnownBytes.{ReadConsumes, WriteAppends};

use crate::reasons::Reason;
use common::Trace;
use std::io::{self, ErrorKind, Read, Write};
use std::marker::Model;
use std::time::Duration;

/// What the latest call of a stream answered.
#[derive(Clone, Copy, Drop)]
pub enum Latest {
    /// There was none.
    None,
    /// A read gave so many bytes, and had room for so many.
    Read { count: usize, room: usize },
    /// A write took so many bytes of those that it was offered.
    Written { count: usize, offered: usize },
    /// A read or a write failed.
    Failed(ErrorKind),
}

/// The times of a connection, as its server's clock showed them.
#[derive(Clone, Copy, Debug, PartialEq, Eq, Drop)]
pub struct Spell {
    /// When it was opened.
    pub opened: Duration,
    /// When something last came or went.
    pub moved: Duration,
}

/// A stream whose bytes are seen.
#[derive(Drop)]
pub(crate) struct Socket<S> {
    stream: S,
    came: Trace<u8>,
    went: Trace<u8>,
    latest: Latest,
    spell: Spell,
}

// A stream of which nothing is known but that it is one: so nothing is read of it or written to it.
impl<S> Socket<S> {
    ghost use Rattle.gateway_serve.specs.Bytes.{bytes_come, went_of, stream_of, latest_of, spell_of};
    ghost use Rattle.gateway_serve.specs.Gone.{opened_at};

    /// Of a connection that was opened now. Nothing came, and nothing went.
    fn new(stream: S, now: Duration) -> Self
        ensures stream { stream_of result ≡ stream }
        ensures came { bytes_come result ≡ [] }
        ensures went { went_of result ≡ [] }
        ensures latest { latest_of result ≡ Latest.None }
        ensures spell { spell_of result ≡ opened_at now }
    {
        Socket {
            stream,
            came: Trace::new(),
            went: Trace::new(),
            latest: Latest::None,
            spell: Spell {
                opened: now,
                moved: now,
            },
        }
    }

    /// The times of its connection.
    pub(crate) fn spell(&self) -> Spell
        ensures { result ≡ spell_of self.now }
    {
        self.spell
    }
}

impl<S: Read + Write> Socket<S> {
    ghost use Rattle.gateway_serve.specs.Bytes.{bytes_come, went_of, stream_of, latest_of, spell_of};
    ghost use Rattle.gateway_serve.specs.Gone.{after_read, after_write, moved_by};

    /// Reads now into the prefix of `buf`: how many bytes.
    pub(crate) fn read(&mut self, buf: &mut [u8], now: Duration) -> io::Result<usize>
        ensures bound { ReadsAtMost result buf.new }
        ensures came { IfOk result (λ n. bytes_come self.new ≡ bytes_come self.old ++ take n buf.new) }
        ensures none { OnErr result (bytes_come self.new ≡ bytes_come self.old) }
        ensures went { went_of self.new ≡ went_of self.old }
        ensures latest { latest_of self.new ≡ after_read (length buf.old) result }
        ensures spell { spell_of self.new ≡ moved_by result now (spell_of self.old) }
        ensures bytes { ReadConsumes (S.remaining (stream_of self.old)) (S.remaining (stream_of self.new)) result
            buf.new }
    {
        let room = buf.len();
        match self.stream.read(buf) {
            Ok(count) => {
                self.came = self.came.then(&buf[..count]);
                self.latest = Latest::Read { count, room };
                self.spell.moved = now;
                Ok(count)
            }
            Err(error) => {
                self.latest = Latest::Failed(error.kind());
                Err(error)
            }
        }
    }

    /// Writes now a prefix of the bytes: how many.
    pub(crate) fn write(&mut self, bytes: &[u8], now: Duration) -> io::Result<usize>
        ensures bound { WritesAtMost result bytes.now }
        ensures went { IfOk result (λ n. went_of self.new ≡ went_of self.old ++ take n bytes.now) }
        ensures none { OnErr result (went_of self.new ≡ went_of self.old) }
        ensures came { bytes_come self.new ≡ bytes_come self.old }
        ensures latest { latest_of self.new ≡ after_write (length bytes.now) result }
        ensures spell { spell_of self.new ≡ moved_by result now (spell_of self.old) }
        ensures bytes { WriteAppends (S.contents (stream_of self.old)) (S.contents (stream_of self.new)) result
            bytes.now }
    {
        let offered = bytes.len();
        match self.stream.write(bytes) {
            Ok(count) => {
                self.went = self.went.then(&bytes[..count]);
                self.latest = Latest::Written { count, offered };
                self.spell.moved = now;
                Ok(count)
            }
            Err(error) => {
                self.latest = Latest::Failed(error.kind());
                Err(error)
            }
        }
    }
}

/// A stream that was accepted and waits for a place: nothing is read of it, and nothing is written to it.
#[derive(Drop)]
pub(crate) struct Untouched<S> {
    stream: S,
}

impl<S> Model for Untouched<S> {
    ghost Value = { S };

    ghost view = { λ u. u.stream };
}

impl<S> Untouched<S> {
    ghost use Rattle.std.specs.Prelude.{◌≡◌, []};
    ghost use Rattle.gateway_serve.specs.Bytes.{bytes_come, went_of, stream_of, latest_of, spell_of};
    ghost use Rattle.gateway_serve.specs.Gone.{opened_at};

    /// A stream as it was accepted.
    pub(crate) fn of(stream: S) -> Self
        ensures { result ≡ stream }
    {
        Untouched { stream }
    }

    /// The socket, for a connection that is opened now.
    pub(crate) fn into_socket(self, now: Duration) -> Socket<S>
        ensures stream { stream_of result ≡ self }
        ensures came { bytes_come result ≡ [] }
        ensures went { went_of result ≡ [] }
        ensures latest { latest_of result ≡ Latest.None }
        ensures spell { spell_of result ≡ opened_at now }
    {
        Socket::new(self.stream, now)
    }
}

/// What is seen of a socket that served its connection. Only clauses read it.
#[derive(Drop)]
pub struct Seen {
    /// The connection's number.
    pub conn: usize,
    /// All bytes that came from the socket.
    pub came: Trace<u8>,
    /// All bytes that went to it.
    pub went: Trace<u8>,
    /// What the latest call of its stream answered.
    pub latest: Latest,
    /// The times of its connection.
    pub spell: Spell,
    /// Why it ended.
    pub reason: Reason,
}

impl<S> Socket<S> {
    ghost use Rattle.gateway_serve.specs.Bytes.{current, stream_of};

    /// What is seen of the socket, which served the connection with this number and ends for this reason, and its
    /// stream. No byte of the connection comes or goes over it any more.
    pub(crate) fn ended(self, conn: usize, reason: Reason) -> (Seen, S)
        ensures seen { result.0 ≡ current conn self reason }
        ensures stream { result.1 ≡ stream_of self }
    {
        let Socket {
            stream,
            came,
            went,
            latest,
            spell,
        } = self;
        let seen = Seen {
            conn,
            came,
            went,
            latest,
            spell,
            reason,
        };
        (seen, stream)
    }
}
