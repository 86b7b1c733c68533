//! A gateway over a spool, and what it gave so far.

use crate::digest::Digest;
use crate::faults::Fault;
use crate::ram_disk::RamDisk;
use crate::words::Material;
use gateway_engine::{Connections, Gateway};
use spool_image::Spool;
use std::alloc::Global;

/// A gateway, driven as its sockets drive it: a connection's bytes are given until all are taken, and a text is asked
/// for until all of it was given.
pub(crate) struct Server {
    gateway: Gateway<Spool<RamDisk>>,
    out: Vec<u8>,
    digest: Digest,
}

impl Server {
    /// A gateway over the spool on a disk.
    pub(crate) fn open(alloc: Global, disk: RamDisk, digest: Digest) -> Result<Self, Fault> {
        match Gateway::open(alloc, disk) {
            Ok(gateway) => Ok(Server {
                gateway,
                out: Vec::new(alloc),
                digest,
            }),
            Err((_, fault)) => Err(Fault::from(fault)),
        }
    }

    /// A gateway over a new spool of so many blocks.
    pub(crate) fn over(alloc: Global, blocks: u32, material: &Material) -> Result<Self, Fault> {
        let disk = RamDisk::spool(alloc, blocks, &material.indexes)?;
        Server::open(alloc, disk, Digest::new())
    }

    /// Ends all connections, and gives what came back, if all was well.
    pub(crate) fn end(self, outcome: Result<(), Fault>) -> Result<Digest, Fault> {
        let (_disk, digest) = self.close();
        outcome?;
        Ok(digest)
    }

    /// Ends all connections. The spool is on the disk.
    pub(crate) fn close(self) -> (RamDisk, Digest) {
        let Server {
            gateway,
            out: _,
            digest,
        } = self;
        (gateway.into_disk(), digest)
    }

    /// Opens a connection.
    pub(crate) fn connect(&mut self, conn: usize) -> Result<(), Fault> {
        Ok(self.gateway.opened(conn)?)
    }

    /// The client is gone.
    pub(crate) fn lose(&mut self, conn: usize) -> Result<(), Fault> {
        Ok(self.gateway.ended(conn)?)
    }

    /// A client sends bytes, and gets all that they are answered with.
    ///
    /// # Errors
    ///
    /// `Refused` at an answer of 4xx or 5xx: no job that sends by this call has a request that is to be refused.
    pub(crate) fn send(&mut self, conn: usize, bytes: &[u8]) -> Result<(), Fault> {
        let mut rest = bytes;
        for _ in 0..bytes.len() {
            self.out.clear();
            let answer = self.gateway.came(conn, rest, &mut self.out)?;
            self.digest.add(&self.out);
            if is_refused(&self.out) {
                return Err(Fault::Refused);
            }
            if answer.more {
                self.drain(conn)?;
            }
            rest = rest.get(answer.taken..).unwrap_or(&[]);
            if rest.is_empty() || answer.closes {
                break;
            }
        }
        Ok(())
    }

    // Asks for the pieces of a text until none is pending.
    fn drain(&mut self, conn: usize) -> Result<(), Fault> {
        for _ in 0..u64::MAX {
            self.out.clear();
            let answer = self.gateway.more(conn, &mut self.out)?;
            self.digest.add(&self.out);
            if !answer.more {
                break;
            }
        }
        Ok(())
    }
}

/// Whether what a client gets from one call begins with a status of 4xx or 5xx. No job gives a call two heads, and no
/// text begins so.
pub(crate) fn is_refused(out: &[u8]) -> bool {
    matches!(out.strip_prefix(b"HTTP/1.1 "), Some([b'4' | b'5', ..]))
}
