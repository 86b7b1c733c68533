//! Laws about spools at rest. The functions do nothing; their contracts are the laws.
ghost use Rattle.std.specs.Prelude.{◌≡◌, ℕ, List};
ghost use Rattle.spool_disk.specs.Disk.{IsImage, Preserves};
ghost use Rattle.spool_journal.specs.Image.{journal_pages, text_page};
ghost use Rattle.spool_journal.specs.Phases.{Idle, Settled};
ghost use Rattle.spool_texts.specs.Written.{WritesIn, IsImageBut, aside_blocks};
ghost use Rattle.spool_pages.specs.Rests.{Rests, Unowned};
ghost use Rattle.spool_pages.specs.View.{View, Encodes, IsViewOf};

use spool_disk::Disk;

/// Every crash image of a spool at rest has the same view, which is the one of its bytes.
pub fn resting_images<D: Disk>()
    ensures encodes { (v : View) (disk : D) → Rests v (D.current disk) (D.unsynced disk) → Encodes (D.current disk) v }
    ensures images { (v : View) (disk : D) (image : ℕ → ℕ) → Rests v (D.current disk) (D.unsynced disk)
        → IsImage (D.current disk) (D.unsynced disk) image → IsViewOf image v }
{}

/// Reads, and writes to blocks that no row owns, leave a spool at rest. An image that differs from a crash image in
/// such blocks only has the same view.
pub fn resting_writes<D: Disk>()
    ensures reads { (v : View) (old new : D) → Rests v (D.current old) (D.unsynced old)
        → Preserves (D.current old) (D.current new) (D.unsynced old) (D.unsynced new)
        → Rests v (D.current new) (D.unsynced new) }
    ensures writes { (v : View) (n : ℕ) (blocks : List ℕ) (old new : D) → v.blocks ≡ n
        → Rests v (D.current old) (D.unsynced old) → Unowned v.rows blocks
        → WritesIn (text_page n) blocks (D.current old)
        (D.current new) (D.unsynced old) (D.unsynced new) → Rests v (D.current new) (D.unsynced new) }
    ensures aside { (v : View) (n : ℕ) (blocks : List ℕ) (disk : D) (image : ℕ → ℕ) → v.blocks ≡ n
        → Rests v (D.current disk) (D.unsynced disk) → Unowned v.rows blocks
        → IsImage (D.current disk) (D.unsynced disk)
        (aside_blocks (text_page n) blocks (D.current disk) image) → IsViewOf image v }
    ensures but { (v : View) (n : ℕ) (blocks : List ℕ) (disk : D) (image : ℕ → ℕ) → v.blocks ≡ n
        → Rests v (D.current disk) (D.unsynced disk) → Unowned v.rows blocks
        → IsImageBut (text_page n) blocks (D.current disk)
        (D.unsynced disk) image → IsViewOf image v }
{}

/// A recovery or a commit leaves a spool at rest, and a commit may be made of a spool at rest.
pub fn settled_rests<D: Disk>()
    ensures rests { (v : View) (n : ℕ) (bytes : ℕ → ℕ) (disk : D) → v.blocks ≡ n
        → Settled (journal_pages n) bytes (D.current disk) (D.unsynced disk) → Encodes bytes v
        → Rests v (D.current disk) (D.unsynced disk) }
    ensures idle { (v : View) (n : ℕ) (disk : D) → v.blocks ≡ n → Rests v (D.current disk) (D.unsynced disk)
        → Idle (journal_pages n) (D.current disk) (D.unsynced disk) }
{}
