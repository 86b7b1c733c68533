//! A session over a store of uploads, as one value.
ghost use Rattle.std.specs.Prelude.{◌≡◌, ◌↔◌, ℕ, Bool, true, false, Option, IsTrue, IsErr, IsErrOf, IfOk, IfErr};
ghost use Rattle.upload_rules.specs.Store.{Store};
ghost use Rattle.upload_rules.specs.World.{at_rest};
ghost use Rattle.upload_rules.specs.Answers.{Quiet};
ghost use Rattle.tus_session.specs.History.{State, beginning};
ghost use Rattle.gateway_engine.specs.Gateways.{GatewayRepresents, store_of, is_down};

use common::Stop;
use std::alloc::{AllocError, Global};
use tus_session::{Answer, At, Connections, Session, SessionError};
use upload_rules::Uploads;

/// A session, and the store of uploads that all its calls are given.
///
/// Once a call was refused with `DiskFault` the gateway is down: each further one is refused with `Down` at once, until
/// its store is handed back and opened again.
pub struct Gateway<U: Uploads> {
    session: Session<U>,
    store: U,
    /// whether the disk failed at a call
    down: bool,
}

impl<U: Uploads> Gateway<U> {
    /// No connection is open.
    pub fn new(alloc: Global, store: U) -> Result<Self, (U, AllocError)>
        ensures ok { (sure : Bool) (m : Store) (blocks : Option ℕ) → U.represents store sure (at_rest m blocks)
            → IfOk result (λ g. GatewayRepresents U.Uploads g sure (beginning m blocks)) }
        ensures same { IfOk result (λ g. store_of g ≡ store) }
        ensures up { IfOk result (λ g. is_down g ≡ false) }
        ensures back { IfErr result (λ e. e.0 ≡ store) }
    {
        match Session::new(alloc) {
            Ok(session) => Ok(Gateway {
                session,
                store,
                down: false,
            }),
            Err(error) => Err((store, error)),
        }
    }

    /// The store, to look at.
    pub fn uploads(&self) -> &U
        ensures { result.now ≡ store_of self.now }
    {
        &self.store
    }

    /// Ends the session: the drafts that are open are dropped. The store has the uploads.
    pub fn close(self) -> U
        ensures represents { (sure : Bool) (st : State) → GatewayRepresents U.Uploads self sure st
            → U.represents result sure (at_rest st.world.store st.world.blocks) }
        ensures crash { Quiet (U.moment (store_of self)) (U.moment result) (U.left_only (store_of self))
            (U.left_only result) }
        ensures counts { U.failures result ≡ U.failures (store_of self) }
    {
        let Gateway {
            session,
            mut store,
            down: _,
        } = self;
        session.close(&mut store);
        store
    }

    // Refused with `Down` exactly where the gateway is down.
    fn up(&self) -> Result<(), SessionError>
        ensures refused { IsErr result ↔ (is_down self.now ≡ true) }
        ensures error { IfErr result (λ e. e ≡ SessionError.Down) }
    {
        if self.down {
            Err(SessionError::Down)
        } else {
            Ok(())
        }
    }
}

// Whether the disk failed at the call that answered so.
fn failed<T>(answer: &Result<T, SessionError>) -> bool
    ensures { IsTrue result ↔ IsErrOf answer.now (SessionError.Stop Stop.DiskFault) }
{
    matches!(answer, Err(SessionError::Stop(Stop::DiskFault)))
}

impl<U: Uploads> Connections for Gateway<U> {
    ghost represents = { λ g sure st. GatewayRepresents U.Uploads g sure st };

    ghost moment = { λ g. U.moment (store_of g) };

    ghost left_only = { λ g blocks t ms. U.left_only (store_of g) blocks t ms };

    ghost failures = { λ g. U.failures (store_of g) };

    ghost down = { λ g. is_down g };

    ghost durable = { λ g st ms represents among. U.durable (store_of g) st.world ms represents.session.shown among };

    ghost up = { λ g sure st represents. represents.up };

    fn opened(&mut self, conn: usize) -> Result<(), SessionError> {
        self.up()?;
        self.session.opened(conn)
    }

    fn at(&self, conn: usize) -> Option<At> {
        self.session.at(conn)
    }

    fn came(
        &mut self,
        conn: usize,
        bytes: &[u8],
        out: &mut Vec<u8>,
    ) -> Result<Answer, SessionError> {
        self.up()?;
        let answer = self.session.came(&mut self.store, conn, bytes, out);
        self.down = failed(&answer);
        answer
    }

    fn more(&mut self, conn: usize, out: &mut Vec<u8>) -> Result<Answer, SessionError> {
        self.up()?;
        let answer = self.session.more(&mut self.store, conn, out);
        self.down = failed(&answer);
        answer
    }

    fn ended(&mut self, conn: usize) -> Result<(), SessionError> {
        self.up()?;
        let answer = self.session.ended(&mut self.store, conn);
        self.down = failed(&answer);
        answer
    }
}
