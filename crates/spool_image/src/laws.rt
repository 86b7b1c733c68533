//! Laws about crashes: what a call promises is what the next opening requires. The functions do nothing; their
//! contracts are the laws.
ghost use Rattle.std.specs.Prelude.{◌≡◌, ℕ, List, Some};
ghost use Rattle.spool_disk.specs.Disk.{IsImage};
ghost use Rattle.spool_disk.specs.Views.{Lasts};
ghost use Rattle.upload_rules.specs.Store.{Store, Upload, upload_of};
ghost use Rattle.spool_catalog.specs.Shows.{ImageShows};
ghost use Rattle.spool_image.specs.LeftOnly.{AllShow, IsSpool, LeftOnly, LeftOrShows, OpensOne};
ghost use Rattle.spool_image.specs.Texts.{HasText};

use spool_disk::Disk;

/// If every crash image of a disk shows the same uploads, the disk can be opened, and so can a disk of its size that
/// has one of these images. This holds after `format`, after an opening, and after `into_disk`. If such a disk is all
/// synced, as after a crash, its crash images show what a read does.
pub fn images_open<D: Disk>()
    ensures now { (d : D) (n : ℕ) (m : Store) → AllShow D.Disk d n m → IsSpool D.Disk d n m }
    ensures crashed { (d left : D) (n : ℕ) (m : Store) → AllShow D.Disk d n m → D.honest left → D.size left ≡ D.size d
        → IsImage (D.current d) (D.unsynced d) (D.current left) → IsSpool D.Disk left n m }
    ensures synced { (d : D) (n : ℕ) (m : Store) → IsSpool D.Disk d n m → ((p : ℕ) → D.unsynced d p → ⊥)
        → AllShow D.Disk d n m }
{}

/// A disk that a crash left since some moment can be opened. It has one of the stores to which crash images since then
/// are limited, and as many blocks. This also holds of a call that the crash interrupted.
pub fn limits_open<D: Disk>()
    ensures { (d left : D) (n t : ℕ) (ms : List Store) → LeftOnly D.Disk d n t ms → D.honest left
        → D.size left ≡ D.size d
        → D.left_since d t (D.current left) → OpensOne D.Disk left n ms }
{}

/// A disk that a crash left during an opening can be opened again, and has the same uploads. This holds after any
/// number of such crashes.
pub fn cut_openings<D: Disk>()
    ensures { (before d left : D) (n : ℕ) (m : Store) → AllShow D.Disk before n m
        → Lasts D.Disk before d (LeftOrShows D.Disk before n m) → D.honest left → D.size left ≡ D.size before
        → D.left_since d (D.moment before) (D.current left) → IsSpool D.Disk left n m }
{}

/// An image that shows uploads has the text of each: the encoding of the decoding of its accepted bytes.
pub fn shown_texts()
    ensures { (n : ℕ) (image : ℕ → ℕ) (m : Store) (k : ℕ) (u : Upload) → ImageShows n image m → upload_of m k ≡ Some u
        → HasText image m.indexes k u }
{}
