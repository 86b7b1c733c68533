//! The connections of a server, over any store of uploads.
ghost use Rattle.std.specs.Prelude.{◌≡◌, ◌<◌, ℕ, length, Option, None, IfOk, IfErr, OnOk, OnErr, IsErrOf, Bool, true};
ghost use Rattle.common.specs.declared.stop.Stop.{Stop};
ghost use Rattle.tus_session.specs.History.{State, Opened, Came, More, Ended, Served, step, beginning};
ghost use Rattle.tus_session.specs.Places.{links_of, IsLinkPut, IsOpen};
ghost use Rattle.tus_session.specs.Represents.{SessionRepresents};
ghost use Rattle.tus_session.specs.Results.{Opens, RepliesAs, EndsEvent};
ghost use Rattle.upload_rules.specs.Store.{Store};
ghost use Rattle.upload_rules.specs.World.{at_rest};
ghost use Rattle.upload_rules.specs.Answers.{Limits, Quiet, Counts};
ghost use Rattle.tus_session.specs.At.{at_in};
ghost use Rattle.tus_session.specs.Turns.{GivesFew};

use crate::at::link_at;
use crate::conns::{Awaiting, Link};
use crate::heads::came_of;
use crate::turns::{drop_link, end_of, more_of};
use crate::{Answer, At, SessionError};
use std::alloc::{AllocError, Global};
use std::mem;
use tus_action::{PIECE, PieceBuffer};
use tus_request::{HeadBuffer, Routes};
use upload_rules::Uploads;

/// How many connections may be open at once.
pub const MOST_OPEN: usize = 16;

/// At most `MOST_OPEN` connections: the unfinished head of each, and what it waits for.
///
/// A request that comes in two pieces, over a store in memory:
///
/// ```
/// let mut session = Session::new(alloc).expect(rt, "memory");
/// session.opened(0).expect(rt, "a free place");
/// let first = session.came(&mut store, 0, b"OPTIONS /files HT", &mut out);
/// let second = session.came(&mut store, 0, b"TP/1.1\r\n\r\n", &mut out);
/// assert!(rt; first.is_ok() && second.is_ok());
/// session.close(&mut store);
/// assert!(rt; out.starts_with(b"HTTP/1.1 204 No Content\r\n"));
/// ```
pub struct Session<U: Uploads> {
    alloc: Global,
    links: Vec<Option<Link<U::Draft>>>,
    // The routes by which the heads of all connections are read.
    routes: Routes,
    // One buffer for all connections: it holds a piece of a text only during a call.
    buffer: Box<PieceBuffer>,
}

impl<U: Uploads> Session<U> {
    /// A session without connections. The places, the piece buffer and the routes are allocated here, once.
    ///
    /// # Errors
    ///
    /// `AllocError`.
    pub fn new(alloc: Global) -> Result<Self, AllocError>
        ensures { (sure : Bool) (store : U) (m : Store) (blocks : Option ℕ) → U.represents store sure (at_rest m blocks)
            → IfOk result (λ s. SessionRepresents U.Uploads sure (links_of s) store (beginning m blocks)) }
    {
        let routes = Routes::new(alloc)?;
        let buffer = Box::new(alloc, [0; PIECE])?;
        let mut links = Vec::with_capacity(alloc, MOST_OPEN)?;
        for _ in 0..MOST_OPEN {
            match links.push(None) {
                Ok(()) => {}
                Err(_full) => unreachable!(),
            }
        }
        Ok(Session {
            alloc,
            links,
            routes,
            buffer,
        })
    }

    /// Opens a connection. It needs no memory.
    ///
    /// # Errors
    ///
    /// `TooMany`.
    pub fn opened(&mut self, conn: usize) -> Result<(), SessionError>
        ensures answer { (sure : Bool) (store : U) (st : State)
            → SessionRepresents U.Uploads sure (links_of self.old) store st
            → Opens U.Uploads sure (links_of self.new) store result st (Opened conn) }
        ensures no_disk_fault { IsErrOf result (SessionError.Stop Stop.DiskFault) → ⊥ }
        ensures no_memory { IsErrOf result (SessionError.Stop Stop.NoMemory) → ⊥ }
        ensures no_down { IsErrOf result SessionError.Down → ⊥ }
    {
        if conn >= self.links.len() || self.links[conn].is_some() {
            return Err(SessionError::TooMany);
        }
        let link = Link {
            head: HeadBuffer::new(self.alloc),
            awaiting: Awaiting::Head,
        };
        put_back(&mut self.links[conn], Some(link));
        Ok(())
    }

    /// Takes received bytes, at most to the end of one request, and appends the reply to `out`. At most one change is
    /// made.
    ///
    /// The call takes the bytes up to the end of the current request, or all of them if it doesn't end there. It takes
    /// none while a text is pending. A request that makes a text pending is taken up to the end of its head. At most
    /// 8,192 bytes of an unfinished head are stored, and each call searches its own bytes alone for the head's end.
    ///
    /// # Errors
    ///
    /// `Closed` if the connection isn't open; `NoMemory`, which closes the connection; `DiskFault`.
    pub fn came(
        &mut self,
        store: &mut U,
        conn: usize,
        bytes: &[u8],
        out: &mut Vec<u8>,
    ) -> Result<Answer, SessionError>
        ensures answer { (sure : Bool) (st : State) → SessionRepresents U.Uploads sure (links_of self.old) store.old st
            → RepliesAs U.Uploads sure (links_of self.new) store.new result out.old.items out.new.items st
            (Came conn bytes.now) }
        ensures crash { (st : State) → SessionRepresents U.Uploads true (links_of self.old) store.old st
            → Limits (U.moment store.old) (U.moment store.new) (U.left_only store.old)
            (U.left_only store.new) st.world.store
            (step st (Came conn bytes.now) Served).state.world.store }
        ensures unmade { (st : State) → SessionRepresents U.Uploads true (links_of self.old) store.old st
            → IsErrOf result (SessionError.Stop Stop.NoMemory)
            → Limits (U.moment store.old) (U.moment store.new) (U.left_only store.old)
            (U.left_only store.new) st.world.store st.world.store }
        ensures counts { Counts (IsErrOf result (SessionError.Stop Stop.DiskFault)) (U.failures store.old)
            (U.failures store.new) }
        ensures no_down { IsErrOf result SessionError.Down → ⊥ }
        ensures few { GivesFew out.old.items out.new.items }
    {
        let link = self.take(conn)?;
        let (next, answer) = came_of(
            self.alloc,
            store,
            link,
            bytes,
            &self.routes,
            &mut self.buffer,
            out,
        )?;
        put_back(&mut self.links[conn], next);
        Ok(answer)
    }

    /// Appends the next piece of the pending text to `out`: 65,536 bytes, or the rest if that is shorter. It appends
    /// nothing if no text is pending.
    ///
    /// # Errors
    ///
    /// `Closed` if the connection isn't open; `NoMemory`, which closes the connection; `DiskFault`.
    pub fn more(
        &mut self,
        store: &mut U,
        conn: usize,
        out: &mut Vec<u8>,
    ) -> Result<Answer, SessionError>
        ensures answer { (sure : Bool) (st : State) → SessionRepresents U.Uploads sure (links_of self.old) store.old st
            → RepliesAs U.Uploads sure (links_of self.new) store.new result out.old.items out.new.items st (More conn) }
        ensures crash { Quiet (U.moment store.old) (U.moment store.new) (U.left_only store.old)
            (U.left_only store.new) }
        ensures counts { Counts (IsErrOf result (SessionError.Stop Stop.DiskFault)) (U.failures store.old)
            (U.failures store.new) }
        ensures no_down { IsErrOf result SessionError.Down → ⊥ }
        ensures few { GivesFew out.old.items out.new.items }
    {
        let link = self.take(conn)?;
        let (next, answer) = more_of(store, link, &mut self.buffer, out)?;
        put_back(&mut self.links[conn], next);
        Ok(answer)
    }

    /// Ends a connection. The bytes received of a PATCH's body are committed, without a reply. The connection is closed
    /// even if the call fails.
    ///
    /// # Errors
    ///
    /// `Closed` if the connection isn't open; `NoMemory`; `DiskFault`.
    pub fn ended(&mut self, store: &mut U, conn: usize) -> Result<(), SessionError>
        ensures answer { (sure : Bool) (st : State) → SessionRepresents U.Uploads sure (links_of self.old) store.old st
            → EndsEvent U.Uploads sure (links_of self.new) store.new result st (Ended conn) }
        ensures crash { (st : State) → SessionRepresents U.Uploads true (links_of self.old) store.old st
            → Limits (U.moment store.old) (U.moment store.new) (U.left_only store.old)
            (U.left_only store.new) st.world.store
            (step st (Ended conn) Served).state.world.store }
        ensures unmade { (st : State) → SessionRepresents U.Uploads true (links_of self.old) store.old st
            → IsErrOf result (SessionError.Stop Stop.NoMemory)
            → Limits (U.moment store.old) (U.moment store.new) (U.left_only store.old)
            (U.left_only store.new) st.world.store st.world.store }
        ensures counts { Counts (IsErrOf result (SessionError.Stop Stop.DiskFault)) (U.failures store.old)
            (U.failures store.new) }
        ensures no_down { IsErrOf result SessionError.Down → ⊥ }
    {
        let link = self.take(conn)?;
        end_of(store, link)?;
        Ok(())
    }

    /// What a connection is at, or `None` if it isn't open.
    pub fn at(&self, conn: usize) -> Option<At>
        ensures { (sure : Bool) (store : U) (st : State)
            → SessionRepresents U.Uploads sure (links_of self.now) store st
            → result ≡ at_in st conn }
    {
        let link = self.links.get(conn)?.as_ref()?;
        Some(link_at::<U>(link))
    }

    // Takes the connection out and leaves its place closed.
    fn take(&mut self, conn: usize) -> Result<Link<U::Draft>, SessionError>
        ensures open { (sure : Bool) (store : U) (st : State)
            → SessionRepresents U.Uploads sure (links_of self.old) store st
            → IfOk result (IsOpen U.Uploads st conn) }
        ensures taken { OnOk result (IsLinkPut (links_of self.old) (links_of self.new) conn None) }
        ensures within { OnOk result (conn < length (links_of self.new)) }
        ensures closed { (sure : Bool) (store : U) (st : State)
            → SessionRepresents U.Uploads sure (links_of self.old) store st
            → OnErr result ((st.conns conn ≡ None) × SessionRepresents U.Uploads sure (links_of self.new) store st) }
        ensures refusal { IfErr result (λ e. e ≡ SessionError.Closed) }
    {
        if conn >= self.links.len() {
            return Err(SessionError::Closed);
        }
        self.links[conn].take().ok_or(SessionError::Closed)
    }

    /// Ends the session and drops the open drafts.
    pub fn close(self, store: &mut U)
        ensures represents { (sure : Bool) (st : State) → SessionRepresents U.Uploads sure (links_of self) store.old st
            → U.represents store.new sure (at_rest st.world.store st.world.blocks) }
        ensures crash { Quiet (U.moment store.old) (U.moment store.new) (U.left_only store.old)
            (U.left_only store.new) }
        ensures counts { U.failures store.new ≡ U.failures store.old }
    {
        let Session {
            alloc: _,
            mut links,
            routes: _,
            buffer: _,
        } = self;
        while let Some(place) = links.pop() {
            if let Some(link) = place {
                drop_link(store, link);
            }
        }
        links.destroy_empty();
    }
}

// Puts a connection into a closed place.
fn put_back<B>(place: &mut Option<Link<B>>, next: Option<Link<B>>)
    requires { place.old ≡ None }
    ensures { place.new ≡ next }
{
    match mem::replace(place, next) {
        None => {}
        Some(_link) => unreachable!(),
    }
}
