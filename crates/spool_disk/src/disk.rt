//! The trait of disks.
ghost use Rattle.std.specs.Prelude.{◌≡◌, ◌≤◌, ◌+◌, ◌↔◌, ℕ, length, IsErr, IsOk, List, ◌∷◌, OnOk, OnErr};
ghost use Rattle.spool_disk.specs.Disk.{Counts, span, IsImage, Elapses, Writes, Syncs, Preserves};
ghost use Rattle.spool_disk.specs.Given.{given};

use common::DiskFault;

/// A disk of bytes. Every call may fail; a call that failed changes nothing outside its range.
pub trait Disk {
    ghost use Rattle.common.specs.declared.given.GivenRead.{GivenRead};

    /// The number of bytes. No call changes it.
    ghost size: { Self → ℕ };

    /// The disk is honest: the clauses about bytes hold only then. No call changes it.
    ghost honest: { Self → Type 0 };

    /// What a read gives at each place.
    ghost current: { Self → ℕ → ℕ };

    /// The unsynced places: a crash may leave any byte there.
    ghost unsynced: { Self → ℕ → Type 0 };

    /// The current moment. It never decreases.
    ghost moment: { Self → ℕ };

    /// The crash images of all moments since that one.
    ghost left_since: { Self → ℕ → (ℕ → ℕ) → Type 0 };

    /// The number of failed calls, up to 2^64 - 1.
    ghost failures: { Self → ℕ };

    /// What its successful reads gave, the latest first.
    ghost reads: { Self → List GivenRead };

    /// Which calls fail, as far as this kind of disk specifies it: whether the call failed, the disk before it and
    /// after it.
    ghost fails_by: { Type 0 → Self → Self → Type 0 };

    /// What a write leaves, as far as this kind of disk specifies more than `writes` does: where the write begins, its
    /// bytes, the disk before it and after it.
    ghost leaves: { ℕ → List ℕ → Self → Self → Type 0 } = { λ at bytes old new. Unit {0} };

    /// The number of bytes.
    fn len(&self) -> u64
        ensures { result ≡ size self.now };

    /// Fills the buffer with the bytes from `at` on. The range has to lie within the disk. If the call fails, the
    /// buffer may hold anything.
    fn read(&mut self, at: u64, buf: &mut [u8]) -> Result<(), DiskFault>
        requires { at + length buf.old ≤ size self.old }
        ensures size { size self.new ≡ size self.old }
        ensures honest { honest self.old ↔ honest self.new }
        ensures bytes { honest self.old → IsOk result → buf.new ≡ span (current self.old) at (length buf.old) }
        ensures preserves { honest self.old → Preserves (current self.old) (current self.new) (unsynced self.old)
            (unsynced self.new) }
        ensures later { moment self.old ≤ moment self.new }
        ensures time { honest self.old → Elapses (moment self.old) (moment self.new) (left_since self.old)
            (left_since self.new) (current self.new) (unsynced self.new) }
        ensures counts { Counts (IsErr result) (failures self.old) (failures self.new) }
        ensures given { OnOk result (reads self.new ≡ given at buf.new ∷ reads self.old) }
        ensures none { OnErr result (reads self.new ≡ reads self.old) }
        ensures fails_by { fails_by (IsErr result) self.old self.new };

    /// Writes the bytes from `at` on. The range has to lie within the disk. Until a sync succeeds, and also if this
    /// call fails, a crash may leave any bytes there.
    fn write_at(&mut self, at: u64, bytes: &[u8]) -> Result<(), DiskFault>
        requires { at + length bytes.now ≤ size self.old }
        ensures size { size self.new ≡ size self.old }
        ensures honest { honest self.old ↔ honest self.new }
        ensures writes { honest self.old → Writes at bytes.now (IsOk result) (current self.old) (current self.new)
            (unsynced self.old) (unsynced self.new) }
        ensures later { moment self.old ≤ moment self.new }
        ensures time { honest self.old → Elapses (moment self.old) (moment self.new) (left_since self.old)
            (left_since self.new) (current self.new) (unsynced self.new) }
        ensures counts { Counts (IsErr result) (failures self.old) (failures self.new) }
        ensures reads { reads self.new ≡ reads self.old }
        ensures fails_by { fails_by (IsErr result) self.old self.new }
        ensures leaves { leaves at bytes.now self.old self.new };

    /// Makes all writes so far durable: after a sync that succeeds, the only crash image is what a read gives. After
    /// one that fails, a read may give any of the crash images.
    fn sync(&mut self) -> Result<(), DiskFault>
        ensures size { size self.new ≡ size self.old }
        ensures honest { honest self.old ↔ honest self.new }
        ensures syncs { honest self.old → Syncs (IsOk result) (current self.old) (current self.new) (unsynced self.old)
            (unsynced self.new) }
        ensures later { moment self.old ≤ moment self.new }
        ensures time { honest self.old → Elapses (moment self.old) (moment self.new) (left_since self.old)
            (left_since self.new) (current self.new) (unsynced self.new) }
        ensures counts { Counts (IsErr result) (failures self.old) (failures self.new) }
        ensures reads { reads self.new ≡ reads self.old }
        ensures fails_by { fails_by (IsErr result) self.old self.new };

    /// The current crash images are among those since any earlier moment.
    ghost counts_now: { (disk : Self) (t : ℕ) (image : ℕ → ℕ) → t ≤ moment disk
        → IsImage (current disk) (unsynced disk) image
        → left_since disk t image };

    /// Since the current moment there are no others.
    ghost only_now: { (disk : Self) (image : ℕ → ℕ) → left_since disk (moment disk) image
        → IsImage (current disk) (unsynced disk) image };
}
