//! A gateway whose calls are logged.
ghost use Rattle.std.specs.Prelude.{◌≡◌};
ghost use Rattle.gateway_engine.specs.Gateways.{GatewayRepresents, is_down, store_of};
ghost use Rattle.gateway_up.specs.Watched.{gateway_under};

use gateway_engine::{Connections, Gateway};
use gateway_indexes::used_of;
use gateway_log::{Call, Log, Progress, Stock};
use std::io::Write;
use std::time::Clock;
use tus_session::{Answer, At, SessionError};
use upload_rules::Uploads;

/// A gateway whose calls are its own, and of which the log is told: what each took and gave, what its connection is at
/// then, and, if the log wants that, what is left in the spool.
pub struct Watched<'a, U: Uploads, T: Clock, W: Write + Drop> {
    gateway: Gateway<U>,
    /// How many text blocks the spool has.
    blocks: u64,
    log: &'a Log<'a, T, W>,
}

impl<'a, U: Uploads, T: Clock, W: Write + Drop> Watched<'a, U, T, W> {
    /// A gateway over a spool of so many text blocks, and its log.
    pub fn new(gateway: Gateway<U>, blocks: u64, log: &'a Log<'a, T, W>) -> Self
        ensures { gateway_under result ≡ gateway }
    {
        Watched {
            gateway,
            blocks,
            log,
        }
    }

    /// The gateway.
    pub fn into_gateway(self) -> Gateway<U>
        ensures { result ≡ gateway_under self.entry }
    {
        let Watched {
            gateway,
            blocks: _,
            log: _,
        } = self;
        gateway
    }

    // Tells the log what a call took and gave.
    fn tell(&self, conn: usize, taken: &[u8], given: &[u8]) {
        let at = self.gateway.at(conn);
        self.log.called(conn, Call { taken, given, at });
    }

    // How far an upload came.
    fn progress(&self, number: u64) -> Option<Progress> {
        let record = self.gateway.uploads().record(number)?;
        Some(Progress {
            accepted: record.accepted,
            declared: record.declared,
        })
    }

    // Looks at the spool, if the log wants that.
    fn look(&self) {
        if self.log.wants_stock() {
            let used = used_of(self.gateway.uploads());
            self.log.take_stock(Stock {
                free_blocks: self.blocks.saturating_sub(used.blocks),
                free_slots: used.free_slots,
                incomplete: used.incomplete,
            });
        }
    }
}

impl<U: Uploads, T: Clock, W: Write + Drop> Connections for Watched<'_, U, T, W> {
    ghost represents = { λ w sure st. GatewayRepresents U.Uploads (gateway_under w) sure st };

    ghost moment = { λ w. U.moment (store_of (gateway_under w)) };

    ghost left_only = { λ w blocks t ms. U.left_only (store_of (gateway_under w)) blocks t ms };

    ghost failures = { λ w. U.failures (store_of (gateway_under w)) };

    ghost down = { λ w. is_down (gateway_under w) };

    ghost durable = { λ w st ms represents among.
        U.durable (store_of (gateway_under w)) st.world ms represents.session.shown among };

    ghost up = { λ w sure st represents. represents.up };

    fn opened(&mut self, conn: usize) -> Result<(), SessionError> {
        let opened = self.gateway.opened(conn);
        if opened.is_ok() {
            self.log.opened(conn);
        }
        opened
    }

    fn at(&self, conn: usize) -> Option<At> {
        self.gateway.at(conn)
    }

    fn came(
        &mut self,
        conn: usize,
        bytes: &[u8],
        out: &mut Vec<u8>,
    ) -> Result<Answer, SessionError> {
        let before = out.len();
        let answer = self.gateway.came(conn, bytes, out);
        // A refusal closes the connection, whatever it took.
        let taken = answer.map_or(bytes.len(), |answer| answer.taken);
        self.tell(
            conn,
            bytes.get(..taken).unwrap_or(bytes),
            out.get(before..).unwrap_or(&[]),
        );
        self.look();
        answer
    }

    fn more(&mut self, conn: usize, out: &mut Vec<u8>) -> Result<Answer, SessionError> {
        let before = out.len();
        let answer = self.gateway.more(conn, out);
        self.tell(conn, &[], out.get(before..).unwrap_or(&[]));
        answer
    }

    fn ended(&mut self, conn: usize) -> Result<(), SessionError> {
        let upload = self.log.upload_at(conn);
        let answer = self.gateway.ended(conn);
        let progress = upload.and_then(|number| self.progress(number));
        self.log.ended(conn, progress);
        self.look();
        answer
    }
}
