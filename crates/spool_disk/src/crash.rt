//! What a crash makes of unsynced bytes, and disks that go on after one.
ghost use Rattle.std.specs.Prelude.{◌≡◌, ◌↔◌, ℕ};
ghost use Rattle.spool_disk.specs.Disk.{IsImage};

use crate::Disk;

/// What a crash makes of the bytes that were written since the last sync.
#[derive(Clone, Copy, Debug, PartialEq, Eq)]
pub enum Crash {
    /// They go back to the values of the last sync.
    Old,
    /// They keep the written values.
    New,
    /// They all get this value.
    Torn(u8),
}

/// A disk that can crash. It goes on with one of its crash images, all of it synced.
pub trait CrashDisk: Disk {
    /// The choice of a crash image.
    type How;

    /// The relation of a choice, the disk before the crash, and the disk after it.
    ghost chosen: { Self.How → Self → Self → Type 0 };

    /// The disk after a crash. A crash doesn't count as a disk fault.
    fn restart(self, how: &Self::How) -> Self
        ensures size { Self.size result ≡ Self.size self }
        ensures honest { Self.honest self ↔ Self.honest result }
        ensures image { Self.honest self → IsImage (Self.current self) (Self.unsynced self) (Self.current result) }
        ensures is_synced { Self.honest self → (p : ℕ) → Self.unsynced result p → ⊥ }
        ensures counts { Self.failures result ≡ Self.failures self }
        ensures chosen { chosen how.now self result };
}
