//! Spools whose file is taken away while they are served.
ghost use Rattle.std.specs.Prelude.{◌≡◌};
ghost use Rattle.gateway_up.specs.Guarded.{acceptor_under};

use crate::reports::report_gone;
use gateway_outside::Noted;
use gateway_serve::{Acceptor, Arrival};
use std::os::unix::fs::MetadataExt;
use std::time::{Clock, Duration};
use std::{fs, io};

/// A spool's path is looked at every so many seconds.
const EVERY: u64 = 60;

/// A file: its device, its number there, and its length.
#[derive(Clone, Copy, Debug, PartialEq, Eq, Drop)]
struct Identity {
    device: u64,
    inode: u64,
    len: u64,
}

/// A path, and the file that was there when its spool was opened.
#[derive(Drop)]
pub struct Sentry<'a> {
    rt: &'a HostRuntime,
    path: &'a str,
    file: Option<Identity>,
    /// when the path was looked at last
    looked: Duration,
}

impl<'a> Sentry<'a> {
    /// Looks at the path of a spool that was just opened.
    pub fn new(rt: &'a HostRuntime, path: &'a str) -> Self {
        Sentry {
            rt,
            path,
            file: file_at(rt, path).ok(),
            looked: rt.monotonic().unwrap_or(Duration::ZERO),
        }
    }

    // Once a minute, warns if the path doesn't lead to that file any more: it was removed or cut, or another one is
    // there.
    fn look(&mut self) {
        let Ok(now) = self.rt.monotonic() else {
            return;
        };
        if now.saturating_sub(self.looked).as_secs() < EVERY {
            return;
        }
        self.looked = now;
        if file_at(self.rt, self.path).ok() != self.file {
            // If standard error can't be written, the warning is lost.
            drop(report_gone(&mut Noted::new(self.rt.stderr()), self.path));
        }
    }
}

// The file that this path leads to.
fn file_at(rt: &HostRuntime, path: &str) -> io::Result<Identity> {
    let found = fs::metadata(rt, path)?;
    Ok(Identity {
        device: found.dev(),
        inode: found.ino(),
        len: found.len(),
    })
}

/// A listener that looks after the file of the spool that is served: whenever it is asked, once a minute at most.
#[derive(Drop)]
pub struct Guarded<'a, A> {
    acceptor: A,
    sentry: Sentry<'a>,
}

impl<'a, A> Guarded<'a, A> {
    /// A listener, and what looks after the file.
    pub fn new(acceptor: A, sentry: Sentry<'a>) -> Self
        ensures { acceptor_under result ≡ acceptor }
    {
        Guarded { acceptor, sentry }
    }
}

impl<A: Acceptor> Acceptor for Guarded<'_, A> {
    type Stream = A::Stream;

    ghost answers = { λ guarded. A.answers (acceptor_under guarded) };

    fn accept(&mut self) -> Option<Arrival<A::Stream>> {
        self.sentry.look();
        self.acceptor.accept()
    }

    fn take_failure(&mut self) -> bool {
        self.acceptor.take_failure()
    }
}
