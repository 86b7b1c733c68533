//! A reader or a writer that stores why it failed.
ghost use Rattle.std.specs.Prelude.{◌≡◌, ◌≤◌, ◌<◌, None};
ghost use Rattle.common.specs.Counts.{Counts};

use crate::counted::{CountedRead, CountedWrite, Refused, read_on, write_on};
use crate::streams::{Input, Output};
use std::fmt::Display;
use std::io::{self, ErrorKind, Read, Write};

/// A reader or a writer that stores why a call was refused last, and counts the calls that it refused.
#[derive(Drop)]
pub struct Noted<S> {
    stream: S,
    error: Option<io::Error>,
    refusals: u64,
    /// how many pieces it gave as input
    given: u64,
}

impl<S> Noted<S> {
    ghost use Rattle.gateway_streams.specs.Streams.{latest_error_of, noted_stream, refusals_of};

    /// No call was refused so far.
    pub fn new(stream: S) -> Self
        ensures stream { noted_stream result ≡ stream }
        ensures none { latest_error_of result ≡ None }
        ensures unrefused { refusals_of result ≡ 0 }
    {
        Noted {
            stream,
            error: None,
            refusals: 0,
            given: 0,
        }
    }

    // Counts a call that was refused, and stores why.
    fn refuse(&mut self, error: io::Error) -> Refused
        ensures stream { noted_stream self.new ≡ noted_stream self.old }
        ensures counts { Counts (Unit {0}) (refusals_of self.old) (refusals_of self.new) }
    {
        self.error = Some(error);
        self.refusals = self.refusals.saturating_add(1);
        Refused
    }

    /// The stream under it.
    pub fn into_stream(self) -> S
        ensures { result ≡ noted_stream self }
    {
        self.stream
    }

    /// Why a call was refused last. `None` where none was.
    pub fn error(&self) -> Option<io::Error>
        ensures { result ≡ latest_error_of self.now }
    {
        self.error
    }
}

impl<R: Read> CountedRead for Noted<R> {
    ghost use Rattle.gateway_streams.specs.Streams.{noted_stream, refusals_of};

    ghost remaining = { λ noted. R.remaining (noted_stream noted) };

    ghost refusals = { refusals_of };

    fn read_piece(&mut self, piece: &mut [u8]) -> Result<usize, Refused> {
        match read_on(&mut self.stream, piece) {
            Ok(count) => Ok(count),
            Err(error) => Err(self.refuse(error)),
        }
    }
}

impl<W: Write> CountedWrite for Noted<W> {
    ghost use Rattle.gateway_streams.specs.Streams.{noted_stream, refusals_of};

    ghost contents = { λ noted. W.contents (noted_stream noted) };

    ghost refusals = { refusals_of };

    fn write_piece(&mut self, piece: &[u8]) -> Result<usize, Refused> {
        match write_on(&mut self.stream, piece) {
            Ok(count) => Ok(count),
            Err(error) => Err(self.refuse(error)),
        }
    }
}

impl<R: Read> Input for Noted<R> {
    ghost use Rattle.gateway_streams.specs.Streams.{noted_stream, pieces_of, refusals_of};

    ghost remaining = { λ noted. R.remaining (noted_stream noted) };

    ghost refusals = { refusals_of };

    ghost pieces = { pieces_of };

    // No input has so many pieces that this one counts in vain.
    fn read_piece(&mut self, piece: &mut [u8]) -> Result<usize, Refused> {
        let Some(given) = self.given.checked_add(1) else {
            return Err(self.refuse(io::Error::from(ErrorKind::FileTooLarge)));
        };
        match read_on(&mut self.stream, piece) {
            Ok(count) => {
                self.given = given;
                Ok(count)
            }
            Err(error) => Err(self.refuse(error)),
        }
    }

    fn error(&self) -> Option<io::Error> {
        self.error
    }
}

impl<W: Write> Output for Noted<W> {
    ghost use Rattle.gateway_streams.specs.Streams.{noted_stream, refusals_of};

    ghost contents = { λ noted. W.contents (noted_stream noted) };

    ghost refusals = { refusals_of };

    fn put(&mut self, bytes: &[u8]) -> Result<(), Refused> {
        match self.stream.write_all(bytes) {
            Ok(()) => Ok(()),
            Err(error) => Err(self.refuse(error)),
        }
    }

    fn write_fmt<D: Display + Drop>(&mut self, text: D) -> Result<(), Refused> {
        match self.stream.write_fmt(text) {
            Ok(()) => Ok(()),
            Err(error) => Err(self.refuse(error)),
        }
    }

    fn writeln<D: Display + Drop>(&mut self, text: D) -> Result<(), Refused> {
        match self.stream.writeln(text) {
            Ok(()) => Ok(()),
            Err(error) => Err(self.refuse(error)),
        }
    }

    fn error(&self) -> Option<io::Error> {
        self.error
    }
}
