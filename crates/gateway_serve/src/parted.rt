//! Streams of connections that ended, with all that is done with them. Only clauses read that: it takes no memory, and
//! keeping it does nothing when it runs.
ghost use Rattle.std.specs.Prelude.{◌≡◌, [], ◌∷◌, length};
ghost use Rattle.std.specs.Io.{ReadsAtMost};

use common::Trace;
use std::io::{self, ErrorKind, Read};
use std::net::{OpenStream, Shutdown};
use std::time::Duration;

/// A call of the stream of a connection that ended, and when it was made.
#[derive(Clone, Copy, Drop)]
pub enum Parting {
    /// Its writing side was to be shut: whether it was.
    Shut {
        time: Duration,
        done: bool,
    },
    /// A read gave so many bytes, and had room for so many. They are dropped.
    Read {
        time: Duration,
        count: usize,
        room: usize,
    },
    /// A read failed.
    Failed {
        time: Duration,
        kind: ErrorKind,
    },
}

/// A stream whose connection ended. Its writing side can be shut, and it can be read: nothing else is done with it.
/// That each of these makes one call of the stream and records what that answered is trusted and not proved, since no
/// contract of the kit states it.
#[derive(Drop)]
pub(crate) struct Parted<S> {
    stream: S,
    calls: Trace<Parting>,
}

impl<S> Parted<S> {
    ghost use Rattle.gateway_serve.specs.Parted.{calls_of};

    /// Nothing was done with it yet.
    pub(crate) fn new(stream: S) -> Self
        ensures { calls_of result ≡ [] }
    {
        Parted {
            stream,
            calls: Trace::new(),
        }
    }
}

impl<S: Drop> Parted<S> {
    ghost use Rattle.gateway_serve.specs.Parted.{calls_of};

    /// Closes it: all that was done with it, the latest first.
    pub(crate) fn close(self) -> Trace<Parting>
        ensures { result.items ≡ calls_of self }
    {
        let Parted { stream, calls } = self;
        drop(stream);
        calls
    }
}

impl<S: Read + OpenStream> Parted<S> {
    ghost use Rattle.gateway_serve.specs.Parted.{after_read, calls_of};

    /// Shuts the writing side now, so that its client sees the end of what was sent: whether that was done.
    pub(crate) fn shut(&mut self, now: Duration) -> bool
        ensures { calls_of self.new ≡ Parting.Shut now result ∷ calls_of self.old }
    {
        let done = self.stream.shutdown(Shutdown::Write).is_ok();
        self.calls = self.calls.and(&Parting::Shut { time: now, done });
        done
    }

    /// Reads now into the prefix of `buf`: how many bytes.
    pub(crate) fn read(&mut self, buf: &mut [u8], now: Duration) -> io::Result<usize>
        ensures bound { ReadsAtMost result buf.new }
        ensures calls { calls_of self.new ≡ after_read now (length buf.old) result ∷ calls_of self.old }
    {
        let room = buf.len();
        match self.stream.read(buf) {
            Ok(count) => {
                self.calls = self.calls.and(&Parting::Read {
                    time: now,
                    count,
                    room,
                });
                Ok(count)
            }
            Err(error) => {
                self.calls = self.calls.and(&Parting::Failed {
                    time: now,
                    kind: error.kind(),
                });
                Err(error)
            }
        }
    }
}
