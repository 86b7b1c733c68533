//! Runs whose script reader or output writer is slow or fails, and the uploads after them.

use crate::faults::{Story, hello, replied};
use crate::spools::ran_between;
use crate::stories::HELLO;
use crate::talks::Talk;
use gateway_engine::ScriptFault;
use gateway_rounds::RunFault;
use std::alloc::Global;
use std::io;
use std::io::{ErrorKind, Read, Write};
use std::process::Abort;

/// A writer that accepts at most `step` bytes a call, and fails after `calls` calls.
#[derive(Drop)]
struct SlowWriter {
    bytes: Vec<u8>,
    step: usize,
    calls: usize,
}

impl Write for SlowWriter {
    fn write(&mut self, buf: &[u8]) -> io::Result<usize> {
        if self.calls == 0 {
            return Err(io::Error::from(ErrorKind::TimedOut));
        }
        self.calls -= 1;
        let count = buf.len().min(self.step);
        self.bytes.extend_from_slice(&buf[..count])?;
        Ok(count)
    }

    fn flush(&mut self) -> io::Result<()> {
        Ok(())
    }
}

/// A reader that gives at most `step` bytes a call, and fails after `calls` calls.
#[derive(Drop)]
struct SlowReader<'a> {
    rest: &'a [u8],
    step: usize,
    calls: usize,
}

impl Read for SlowReader<'_> {
    fn read(&mut self, buf: &mut [u8]) -> io::Result<usize> {
        if self.calls == 0 {
            return Err(io::Error::from(ErrorKind::TimedOut));
        }
        self.calls -= 1;
        let count = self.rest.len().min(buf.len()).min(self.step);
        buf[..count].copy_from_slice(&self.rest[..count]);
        self.rest = &self.rest[count..];
        Ok(count)
    }
}

/// Runs a story into a writer of `step` bytes a call that fails after `calls` calls, and returns how many bytes were
/// written. The run is refused if they aren't all, and the uploads are those that were acknowledged, or one change
/// more.
fn writes(rt: &impl Abort, story: &Story<'_>, step: usize, calls: usize) -> usize {
    let talk = story.talk;
    let mut writer = SlowWriter {
        bytes: Vec::new(story.alloc),
        step,
        calls,
    };
    let script = &mut talk.script.as_slice();
    let (disk, fault) = ran_between(story.alloc, script, &mut writer, story.disk(rt));
    story.check(rt, disk, &writer.bytes);
    let whole = writer.bytes.len() == talk.wanted.len();
    let refused = if whole {
        None
    } else {
        Some(RunFault::Script(ScriptFault::Io))
    };
    assert_eq!(rt; fault, refused, "at {step}, {calls}");
    writer.bytes.len()
}

#[test]
fn writers_that_fail(rt: HostRuntime) {
    let talk = Talk::new(&rt, rt.alloc(), HELLO);
    let story = hello(rt.alloc(), &talk);
    // Each byte fails in turn at one byte a call. Then come writers that accept more a call, or nothing.
    let all = talk.wanted.len();
    for count in 0..all {
        assert_eq!(rt; writes(&rt, &story, 1, count), count);
    }
    for (step, calls) in [(1, all), (7, all), (1000, 4)] {
        assert_eq!(rt; writes(&rt, &story, step, calls), all);
    }
    assert_eq!(rt; writes(&rt, &story, 0, 10), 0);
    assert!(rt; writes(&rt, &story, 1000, 3) < all);
}

/// Runs a story from a reader of 7 bytes a call that fails after `calls` calls. A refused run changes nothing. Returns
/// whether the run was refused.
fn read_fails(rt: &impl Abort, story: &Story<'_>, calls: usize) -> bool {
    let mut reader = SlowReader {
        rest: &story.talk.script,
        step: 7,
        calls,
    };
    let mut written = Vec::new(story.alloc);
    let (disk, fault) = ran_between(story.alloc, &mut reader, &mut written, story.disk(rt));
    if fault.is_none() {
        assert_eq!(rt; written, story.talk.wanted);
        story.check(rt, disk, &written);
        return false;
    }
    assert_eq!(rt;
        fault,
        Some(RunFault::Script(ScriptFault::Io)),
        "at {calls}"
    );
    assert!(rt; written.is_empty(), "at {calls}");
    assert!(rt; replied(rt, story.alloc, disk).is_empty(), "at {calls}");
    true
}

/// Each read of 7 bytes fails in turn.
#[test]
fn readers_that_fail(rt: HostRuntime) {
    let talk = Talk::new(&rt, rt.alloc(), HELLO);
    let story = hello(rt.alloc(), &talk);
    let reads = talk.script.len() / 7;
    for calls in 0..reads {
        assert!(rt; read_fails(&rt, &story, calls), "at {calls}");
    }
    assert!(rt; !read_fails(&rt, &story, talk.script.len()));
}
