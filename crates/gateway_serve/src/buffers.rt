//! The bytes between a socket and a session. Each buffer is seen as the bytes that are left in it.
ghost use Rattle.std.specs.Prelude.{◌≡◌, ◌≤◌, ◌++◌, ℕ, List, [], length, take, drop, slice_range, vec_len, Bool, true};
ghost use Rattle.std.specs.Prelude.{◌↔◌, IfOk, OnErr, IsErrOf, IsTrue, vec_capacity};
ghost use Rattle.std.specs.Io.KnownBytes.{Consumes, Appends, Keeps, IsAtEnd};
ghost use Rattle.common.specs.declared.stop.Stop.{Stop};
ghost use Rattle.upload_rules.specs.Answers.{Limits, Quiet, Counts};
ghost use Rattle.tus_session.specs.History.{State, Came, More};
ghost use Rattle.tus_session.specs.Connections.{GivesFor, Falls, mark_of};
ghost use Rattle.tus_session.specs.Images.{shown_by};
ghost use Rattle.gateway_serve.specs.Bytes.{bytes_come, went_of, stream_of, latest_of, spell_of};
ghost use Rattle.gateway_serve.specs.Gone.{after_read, after_write, moved_by};
ghost use Rattle.gateway_serve.specs.Waiting.{FewWait, HasRoom};
ghost use Rattle.gateway_serve.specs.declared.buffers.TheConstants.{PIECE};

use crate::sockets::Socket;
use std::alloc::Global;
use std::io::{self, Read, Write};
use std::marker::Model;
use std::time::Duration;
use tus_session::{Answer, Connections, SessionError};

/// The most bytes that are read at once.
pub(crate) const PIECE: usize = 4096;

/// Where so many bytes wait to be written, the session is given and asked for no more.
const MOST_WAITING: usize = 65_536;

/// A buffer of which all is written holds on to so many bytes of memory: a piece of a text needs none anew.
const MOST_HELD: usize = 131_072;

/// What was read from a socket: the session took a prefix of it.
#[derive(Drop)]
pub(crate) struct Input {
    bytes: [u8; PIECE],
    /// where what isn't taken begins
    taken: usize,
    /// where what was read ends
    end: usize,
}

impl Model for Input {
    ghost Value = { List ℕ };

    ghost view = { λ i. slice_range i.bytes i.taken i.end };

    ghost invariant = { λ i. (i.taken ≤ i.end) × (i.end ≤ PIECE) };
}

impl Input {
    /// Nothing was read.
    pub(crate) fn new() -> Self
        ensures { result ≡ [] }
    {
        Input {
            bytes: [0; PIECE],
            taken: 0,
            end: 0,
        }
    }

    /// What isn't taken.
    pub(crate) fn left(&self) -> &[u8]
        ensures { result.now ≡ self.now }
    {
        &self.bytes[self.taken..self.end]
    }

    /// Reads now the next bytes, in place of those that were read before: how many. None are read at the socket's end.
    pub(crate) fn read<S: Read + Write>(
        &mut self,
        socket: &mut Socket<S>,
        now: Duration,
    ) -> io::Result<usize>
        ensures count { IfOk result (λ n. length self.new ≡ n) }
        ensures few { length self.new ≤ PIECE }
        ensures came { IfOk result (λ n. bytes_come socket.new ≡ bytes_come socket.old ++ self.new) }
        ensures went { went_of socket.new ≡ went_of socket.old }
        ensures same { OnErr result (bytes_come socket.new ≡ bytes_come socket.old) }
        ensures none { OnErr result (self.new ≡ []) }
        ensures latest { latest_of socket.new ≡ after_read PIECE result }
        ensures spell { spell_of socket.new ≡ moved_by result now (spell_of socket.old) }
        ensures bytes { IfOk result (λ n.
            Consumes (S.remaining (stream_of socket.old)) (S.remaining (stream_of socket.new)) self.new) }
        ensures end { IfOk result (λ n. n ≡ 0 → IsAtEnd (S.remaining (stream_of socket.new))) }
        ensures err { OnErr result (Keeps (S.remaining (stream_of socket.old)) (S.remaining (stream_of socket.new))) }
    {
        self.taken = 0;
        self.end = 0;
        match socket.read(&mut self.bytes, now) {
            Ok(count) => {
                self.end = count;
                Ok(count)
            }
            Err(error) => Err(error),
        }
    }

    /// So many more bytes were taken, at most all.
    pub(crate) fn take(&mut self, count: usize)
        ensures { self.new ≡ drop count self.old }
    {
        if count < self.end - self.taken {
            self.taken += count;
        } else {
            self.taken = self.end;
        }
    }
}

/// What a session gave for a socket: a prefix of it is written.
#[derive(Drop)]
pub(crate) struct Output {
    bytes: Vec<u8>,
    /// where what isn't written begins
    written: usize,
}

impl Model for Output {
    ghost Value = { List ℕ };

    ghost view = { λ o. drop o.written o.bytes.items };

    ghost invariant = { λ o. (o.written ≤ length o.bytes.items) × FewWait (drop o.written o.bytes.items) };
}

impl Output {
    /// Nothing was given.
    pub(crate) fn new(alloc: Global) -> Self
        ensures { result ≡ [] }
    {
        Output {
            bytes: Vec::new(alloc),
            written: 0,
        }
    }

    /// What isn't written.
    pub(crate) fn left(&self) -> &[u8]
        ensures left { result.now ≡ self.now }
        ensures few { FewWait self.now }
    {
        &self.bytes[self.written..]
    }

    /// Whether the session may give more: fewer than 65,536 bytes wait to be written.
    pub(crate) fn has_room(&self) -> bool
        ensures { IsTrue result ↔ HasRoom self.now }
    {
        self.left().len() < MOST_WAITING
    }

    /// Writes now a prefix of what is left: how many bytes.
    pub(crate) fn write<S: Read + Write>(
        &mut self,
        socket: &mut Socket<S>,
        now: Duration,
    ) -> io::Result<usize>
        ensures count { IfOk result (λ n. length (take n self.old) ≡ n) }
        ensures rest { IfOk result (λ n. self.new ≡ drop n self.old) }
        ensures went { IfOk result (λ n. went_of socket.new ≡ went_of socket.old ++ take n self.old) }
        ensures came { bytes_come socket.new ≡ bytes_come socket.old }
        ensures none { OnErr result (went_of socket.new ≡ went_of socket.old) }
        ensures same { OnErr result (self.new ≡ self.old) }
        ensures latest { latest_of socket.new ≡ after_write (length self.old) result }
        ensures spell { spell_of socket.new ≡ moved_by result now (spell_of socket.old) }
        ensures bytes { IfOk result (λ n.
            Appends (S.contents (stream_of socket.old)) (S.contents (stream_of socket.new)) (take n self.old)) }
        ensures err { OnErr result (Keeps (S.contents (stream_of socket.old)) (S.contents (stream_of socket.new))) }
    {
        match socket.write(&self.bytes[self.written..], now) {
            Ok(count) => {
                self.written += count;
                if self.written == self.bytes.len() {
                    free_written(&mut self.bytes, self.written);
                    self.written = 0;
                }
                Ok(count)
            }
            Err(error) => Err(error),
        }
    }

    /// Gives the session bytes that came. What it gives goes after what isn't written yet.
    pub(crate) fn came<C: Connections>(
        &mut self,
        gateway: &mut C,
        conn: usize,
        bytes: &[u8],
    ) -> Result<Answer, SessionError>
        requires { HasRoom self.old }
        ensures gives { (sure : Bool) (st : State) → C.represents gateway.old sure st
            → GivesFor sure (C.represents gateway.new sure) result self.old self.new st (Came conn bytes.now) }
        ensures crash { (st : State) → C.represents gateway.old true st
            → Limits (C.moment gateway.old) (C.moment gateway.new) (C.left_only gateway.old) (C.left_only gateway.new)
            st.world.store (shown_by st (Came conn bytes.now) (mark_of result)) }
        ensures counts { Counts (IsErrOf result (SessionError.Stop Stop.DiskFault)) (C.failures gateway.old)
            (C.failures gateway.new) }
        ensures falls { Falls (C.down gateway.old) (C.down gateway.new) result }
    {
        free_written(&mut self.bytes, self.written);
        self.written = 0;
        gateway.came(conn, bytes, &mut self.bytes)
    }

    /// Asks the session for the next piece of a text, which goes after what isn't written yet.
    pub(crate) fn more<C: Connections>(
        &mut self,
        gateway: &mut C,
        conn: usize,
    ) -> Result<Answer, SessionError>
        requires { HasRoom self.old }
        ensures gives { (sure : Bool) (st : State) → C.represents gateway.old sure st
            → GivesFor sure (C.represents gateway.new sure) result self.old self.new st (More conn) }
        ensures crash { Quiet (C.moment gateway.old) (C.moment gateway.new) (C.left_only gateway.old)
            (C.left_only gateway.new) }
        ensures counts { Counts (IsErrOf result (SessionError.Stop Stop.DiskFault)) (C.failures gateway.old)
            (C.failures gateway.new) }
        ensures falls { Falls (C.down gateway.old) (C.down gateway.new) result }
    {
        free_written(&mut self.bytes, self.written);
        self.written = 0;
        gateway.more(conn, &mut self.bytes)
    }
}

// Lets the bytes go that are written: mostly these are all, and then the memory too that a burst took.
fn free_written(bytes: &mut Vec<u8>, written: usize)
    requires { written ≤ vec_len bytes.old }
    ensures items { bytes.new.items ≡ drop written bytes.old.items }
    ensures memory { written ≡ vec_len bytes.old → vec_capacity bytes.new ≤ 131072 }
{
    if written == bytes.len() {
        bytes.clear();
        if bytes.capacity() > MOST_HELD {
            bytes.shrink_to_fit();
        }
    } else if written > 0 {
        drop(bytes.drain(..written));
    }
}
