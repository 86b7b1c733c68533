//! A disk with a single failing call.
ghost use Rattle.std.specs.Prelude.{◌≡◌, ◌≤◌, ◌+◌, ◌↔◌, Some, None, IsErr, OnOk, OnErr, ℕ, length, replicate};
ghost use Rattle.spool_disk.specs.Disk.{Counts, Elapses, Writes};
ghost use Rattle.spool_disk.specs.Hiccup.{Fills};

use crate::{CrashDisk, Disk, DiskFault};

/// The most bytes that a failing write fills.
const FILLED: usize = 65536;

/// A disk with one failing call; all others pass to the inner disk. `len` doesn't count as a call. If a byte is given,
/// a failing write fills its range with that byte, or the first 65,536 bytes of a longer range.
///
/// `write_at` states what a failing write leaves (`leaves`): without a byte the inner disk as it was; with one, on an
/// honest disk, the filled range and nothing else changed. The exception is an inner disk that fails at this write too:
/// its failures grow by one, and what should be filled may hold anything.
#[derive(Drop)]
pub struct HiccupDisk<D> {
    inner: D,
    // How many calls pass before the failing one; None after it.
    wait: Option<u64>,
    fill: Option<u8>,
    missed: u64,
}

impl<D> HiccupDisk<D> {
    ghost use Rattle.spool_disk.specs.Hiccup.{within_of, wait_of, fill_of, missed_of};

    /// The call with this number fails, counted from 0.
    pub fn new(inner: D, call: u64, fill: Option<u8>) -> Self
        ensures inner { within_of result ≡ inner }
        ensures wait { wait_of result ≡ Some call }
        ensures fill { fill_of result ≡ fill }
        ensures none { missed_of result ≡ 0 }
    {
        HiccupDisk {
            inner,
            wait: Some(call),
            fill,
            missed: 0,
        }
    }

    /// The inner disk.
    pub fn into_inner(self) -> D
        ensures { result ≡ within_of self }
    {
        let HiccupDisk {
            inner,
            wait: _,
            fill: _,
            missed: _,
        } = self;
        inner
    }

    // Counts a call: whether it passes.
    fn pass(&mut self) -> Result<(), DiskFault>
        ensures inner { within_of self.new ≡ within_of self.old }
        ensures fill { fill_of self.new ≡ fill_of self.old }
        ensures fails { IsErr result ↔ (wait_of self.old ≡ Some 0) }
        ensures waits { (calls : ℕ) → wait_of self.old ≡ Some (calls + 1) → wait_of self.new ≡ Some calls }
        ensures once { OnErr result (wait_of self.new ≡ None) }
        ensures over { wait_of self.old ≡ None → wait_of self.new ≡ None }
        ensures passes { OnOk result (missed_of self.new ≡ missed_of self.old) }
        ensures counted { Counts (IsErr result) (missed_of self.old) (missed_of self.new) }
    {
        match self.wait {
            None => Ok(()),
            Some(0) => {
                self.wait = None;
                self.missed = self.missed.saturating_add(1);
                Err(DiskFault)
            }
            Some(calls) => {
                self.wait = Some(calls - 1);
                Ok(())
            }
        }
    }
}

// Fills the range of a failing write. Whether the inner disk fails here isn't reported.
fn scrawl<D: Disk>(disk: &mut D, at: u64, bytes: &[u8], filler: &[u8])
    requires { at + length bytes.now ≤ D.size disk.old }
    ensures size { D.size disk.new ≡ D.size disk.old }
    ensures honest { D.honest disk.old ↔ D.honest disk.new }
    ensures writes { D.honest disk.old → Writes at bytes.now ⊥ (D.current disk.old) (D.current disk.new)
        (D.unsynced disk.old)
        (D.unsynced disk.new) }
    ensures fills { D.honest disk.old → (byte : ℕ) → filler.now ≡ replicate FILLED byte
        → Fills D.Disk at (length bytes.now) byte disk.old disk.new }
    ensures time { D.honest disk.old → Elapses (D.moment disk.old) (D.moment disk.new) (D.left_since disk.old)
        (D.left_since disk.new) (D.current disk.new) (D.unsynced disk.new) }
    ensures later { D.failures disk.old ≤ D.failures disk.new }
    ensures forward { D.moment disk.old ≤ D.moment disk.new }
    ensures reads { D.reads disk.new ≡ D.reads disk.old }
{
    let len = bytes.len().min(filler.len());
    let _ = disk.write_at(at, &filler[..len]);
}

impl<D: Disk> Disk for HiccupDisk<D> {
    ghost use Rattle.spool_disk.specs.Hiccup.{Leaves, Waits, within_of, wait_of, missed_of};

    ghost size = { λ d. D.size (within_of d) };

    ghost honest = { λ d. D.honest (within_of d) };

    ghost current = { λ d. D.current (within_of d) };

    ghost unsynced = { λ d. D.unsynced (within_of d) };

    ghost moment = { λ d. D.moment (within_of d) };

    ghost left_since = { λ d. D.left_since (within_of d) };

    ghost failures = { λ d. D.failures (within_of d) + missed_of d };

    ghost reads = { λ d. D.reads (within_of d) };

    ghost fails_by = { λ failed old new. Waits (D.fails_by failed) failed old new };

    ghost leaves = { λ at bytes old new. wait_of old ≡ Some 0 → Leaves D.Disk at (length bytes) old new };

    ghost counts_now = { λ d. D.counts_now (within_of d) };

    ghost only_now = { λ d. D.only_now (within_of d) };

    fn len(&self) -> u64 {
        self.inner.len()
    }

    fn read(&mut self, at: u64, buf: &mut [u8]) -> Result<(), DiskFault> {
        self.pass()?;
        self.inner.read(at, buf)
    }

    fn write_at(&mut self, at: u64, bytes: &[u8]) -> Result<(), DiskFault> {
        match self.pass() {
            Ok(()) => self.inner.write_at(at, bytes),
            Err(fault) => {
                if let Some(byte) = self.fill {
                    scrawl(&mut self.inner, at, bytes, &[byte; FILLED]);
                }
                Err(fault)
            }
        }
    }

    fn sync(&mut self) -> Result<(), DiskFault> {
        self.pass()?;
        self.inner.sync()
    }
}

impl<D: CrashDisk> CrashDisk for HiccupDisk<D> {
    ghost use Rattle.spool_disk.specs.Hiccup.{within_of, wait_of, fill_of};

    /// The choice of the inner disk's crash, and the number of the failing call after it.
    type How = (D::How, u64);

    ghost chosen = { λ how old new. D.chosen how.0 (within_of old)
        (within_of new) × (wait_of new ≡ Some how.1) × (fill_of new ≡ fill_of old) };

    fn restart(self, how: &(D::How, u64)) -> Self {
        let HiccupDisk {
            inner,
            wait: _,
            fill,
            missed,
        } = self;
        HiccupDisk {
            inner: inner.restart(&how.0),
            wait: Some(how.1),
            fill,
            missed,
        }
    }
}
