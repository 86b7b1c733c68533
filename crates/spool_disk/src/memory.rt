//! A disk in memory.
ghost use Rattle.std.specs.Prelude.{◌≡◌, ◌≤◌, ◌<◌, ◌+◌, ℕ, length, get_or, true, false, IfOk};
ghost use Rattle.spool_disk.specs.Crash.{left_by};
ghost use Rattle.spool_disk.specs.Disk.{In, IsImage};

use crate::{Crash, CrashDisk, Disk, DiskFault, GivenRead};
use common::Trace;
use std::alloc::{AllocError, Global};

/// A disk in memory. It never fails, and `crash` makes it crash.
#[derive(Drop)]
pub struct MemoryDisk {
    synced: Vec<u8>,
    written: Vec<u8>,
    // The places that were written since the last sync.
    unsynced: Vec<bool>,
    // What its reads gave, the latest first.
    reads: Trace<GivenRead>,
    ghost same: { length synced.items ≡ length written.items },
    ghost marked: { length unsynced.items ≡ length written.items },
    ghost agree: { (p : ℕ) → (get_or unsynced.items p false ≡ true → ⊥)
        → get_or written.items p 0 ≡ get_or synced.items p 0 },
}

impl MemoryDisk {
    ghost use Rattle.spool_disk.specs.Memory.{size_of, memory_bytes, synced_of, unsynced_of, reads_of};

    /// A disk of zeros, all synced. Later calls need no memory.
    ///
    /// # Errors
    ///
    /// `AllocError`.
    pub fn new(alloc: Global, len: usize) -> Result<Self, AllocError>
        ensures size { IfOk result (λ disk. size_of disk ≡ len) }
        ensures zeros { IfOk result (λ disk. (p : ℕ) → memory_bytes disk p ≡ 0) }
        ensures synced { IfOk result (λ disk. (p : ℕ) → synced_of disk p ≡ 0) }
        ensures is_synced { IfOk result (λ disk. (p : ℕ) → unsynced_of disk p → ⊥) }
    {
        let synced = vec![in alloc; 0; len]?;
        let written = vec![in alloc; 0; len]?;
        let unsynced = vec![in alloc; false; len]?;
        Ok(MemoryDisk {
            synced,
            written,
            unsynced,
            reads: Trace::new(),
        })
    }

    /// The disk after a crash of this kind: one of its crash images, all synced.
    pub fn crash(self, kind: Crash) -> Self
        ensures size { size_of result ≡ size_of self }
        ensures image { IsImage (memory_bytes self) (unsynced_of self) (memory_bytes result) }
        ensures left { (p : ℕ) → unsynced_of self p → memory_bytes result p
            ≡ left_by kind (synced_of self p) (memory_bytes self p) }
        ensures old { kind ≡ Crash.Old → (p : ℕ) → memory_bytes result p ≡ synced_of self p }
        ensures synced { (p : ℕ) → synced_of result p ≡ memory_bytes result p }
        ensures is_synced { (p : ℕ) → unsynced_of result p → ⊥ }
        ensures reads { reads_of result ≡ reads_of self }
    {
        let MemoryDisk {
            mut synced,
            mut written,
            mut unsynced,
            reads,
        } = self;
        tear(&mut written, &synced, &unsynced, kind);
        synced.copy_from_slice(&written);
        unsynced.fill(false);
        MemoryDisk {
            synced,
            written,
            unsynced,
            reads,
        }
    }
}

// Replaces the marked bytes by what the crash makes of them.
fn tear(written: &mut [u8], synced: &[u8], unsynced: &[bool], kind: Crash)
    requires same { length synced.now ≡ length written.old }
    requires marked { length unsynced.now ≡ length written.old }
    ensures unchanged { (p : ℕ) → (get_or unsynced.now p false ≡ true → ⊥) → get_or written.new p 0
        ≡ get_or written.old p 0 }
    ensures left { (p : ℕ) → get_or unsynced.now p false ≡ true → get_or written.new p 0 ≡ left_by kind
        (get_or synced.now p 0) (get_or written.old p 0) }
{
    for i in 0..written.len() {
        if unsynced[i] {
            match kind {
                Crash::Old => written[i] = synced[i],
                Crash::New => {}
                Crash::Torn(byte) => written[i] = byte,
            }
        }
    }
}

// Copies bytes to a place.
fn put(into: &mut [u8], at: usize, bytes: &[u8])
    requires { at + length bytes.now ≤ length into.old }
    ensures outside { (p : ℕ) → (In at (length bytes.now) p → ⊥) → get_or into.new p 0 ≡ get_or into.old p 0 }
    ensures inside { (k : ℕ) → k < length bytes.now → get_or into.new (at + k) 0 ≡ get_or bytes.now k 0 }
{
    into[at..at + bytes.len()].copy_from_slice(bytes);
}

// Marks n places from `at` on.
fn mark(marks: &mut [bool], at: usize, n: usize)
    requires { at + n ≤ length marks.old }
    ensures outside { (p : ℕ) → (In at n p → ⊥) → get_or marks.new p false ≡ get_or marks.old p false }
    ensures all { (k : ℕ) → k < n → get_or marks.new (at + k) false ≡ true }
{
    marks[at..at + n].fill(true);
}

impl Disk for MemoryDisk {
    ghost use Rattle.spool_disk.specs.Memory.{size_of, memory_bytes, unsynced_of, reads_of};

    ghost size = { size_of };

    ghost honest = { λ d. Unit {0} };

    ghost current = { memory_bytes };

    ghost unsynced = { unsynced_of };

    ghost moment = { λ d. 0 };

    ghost left_since = { λ d t image. IsImage (memory_bytes d) (unsynced_of d) image };

    ghost failures = { λ d. 0 };

    ghost reads = { reads_of };

    ghost fails_by = { λ failed old new. failed → ⊥ };

    ghost counts_now = { λ d t image le now. now };

    ghost only_now = { λ d image left. left };

    fn len(&self) -> u64 {
        self.written.len() as u64
    }

    fn read(&mut self, at: u64, buf: &mut [u8]) -> Result<(), DiskFault> {
        let from = at as usize;
        let end = from + buf.len();
        buf.copy_from_slice(&self.written[from..end]);
        self.reads = self.reads.and(&GivenRead::new(at, buf));
        Ok(())
    }

    fn write_at(&mut self, at: u64, bytes: &[u8]) -> Result<(), DiskFault> {
        let at = at as usize;
        put(&mut self.written, at, bytes);
        mark(&mut self.unsynced, at, bytes.len());
        Ok(())
    }

    fn sync(&mut self) -> Result<(), DiskFault> {
        self.synced.copy_from_slice(&self.written);
        self.unsynced.fill(false);
        Ok(())
    }
}

impl CrashDisk for MemoryDisk {
    ghost use Rattle.spool_disk.specs.Memory.{memory_bytes, synced_of, unsynced_of};

    type How = Crash;

    ghost chosen = { λ how old new. (p : ℕ) → unsynced_of old p → memory_bytes new p ≡ left_by how (synced_of old p)
        (memory_bytes old p) };

    fn restart(self, how: &Crash) -> Self {
        self.crash(*how)
    }
}
