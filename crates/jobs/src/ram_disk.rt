//! A disk whose calls cost a copy and no more, so that a job's time is the gateway's.
ghost use Rattle.spool_disk.specs.Disk.{IsImage};

use crate::faults::Fault;
use common::Trace;
use enc_index::IndexSet;
use spool_disk::{Disk, DiskFault, GivenRead};
use spool_image::{format, pages_of};
use std::alloc::{AllocError, Global};

// The place of the gate's byte, and what it is where the gate is open (docs/FORMAT.md).
const GATE: usize = 4096;

const OPEN: u8 = 0xA5;

/// A disk in memory. A sync does nothing, and nothing is claimed of what a crash leaves.
#[derive(Drop)]
pub(crate) struct RamDisk {
    bytes: Vec<u8>,
    // What its reads gave, the latest first.
    reads: Trace<GivenRead>,
}

impl RamDisk {
    // A disk of zeros.
    fn new(alloc: Global, len: usize) -> Result<Self, AllocError> {
        let bytes = vec![in alloc; 0; len]?;
        Ok(RamDisk {
            bytes,
            reads: Trace::new(),
        })
    }

    /// A spool of so many blocks, without uploads.
    pub(crate) fn spool(alloc: Global, blocks: u32, indexes: &IndexSet) -> Result<Self, Fault> {
        let Some(pages) = pages_of(blocks) else {
            return Err(Fault::Spool);
        };
        let mut disk = RamDisk::new(alloc, 4096 * pages as usize)?;
        format(&mut disk, blocks, indexes)?;
        Ok(disk)
    }

    /// Opens the gate. The disk is then as after a crash between the latest commit's writes to the places and its
    /// closing of the gate.
    pub(crate) fn open_gate(&mut self) {
        if let Some(gate) = self.bytes.get_mut(GATE) {
            *gate = OPEN;
        }
    }
}

impl Disk for RamDisk {
    ghost use Rattle.jobs.specs.Ram.{ram_size, ram_reads};

    ghost size = { ram_size };

    // It isn't claimed to be honest.
    ghost honest = { λ d. ⊥ };

    ghost current = { λ d p. 0 };

    ghost unsynced = { λ d p. Unit {0} };

    ghost moment = { λ d. 0 };

    ghost left_since = { λ d t image. IsImage (λ p. 0) (λ p. Unit {0}) image };

    ghost failures = { λ d. 0 };

    ghost reads = { ram_reads };

    ghost fails_by = { λ failed old new. failed → ⊥ };

    ghost counts_now = { λ d t image le now. now };

    ghost only_now = { λ d image left. left };

    fn len(&self) -> u64 {
        self.bytes.len() as u64
    }

    fn read(&mut self, at: u64, buf: &mut [u8]) -> Result<(), DiskFault> {
        let from = at as usize;
        let end = from + buf.len();
        buf.copy_from_slice(&self.bytes[from..end]);
        self.reads = self.reads.and(&GivenRead::new(at, buf));
        Ok(())
    }

    fn write_at(&mut self, at: u64, bytes: &[u8]) -> Result<(), DiskFault> {
        let at = at as usize;
        let end = at + bytes.len();
        self.bytes[at..end].copy_from_slice(bytes);
        Ok(())
    }

    fn sync(&mut self) -> Result<(), DiskFault> {
        Ok(())
    }
}
