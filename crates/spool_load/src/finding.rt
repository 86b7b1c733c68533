//! Finding a spool on a disk, and recovering it.
ghost use Rattle.std.specs.Prelude.{◌≡◌, ◌⊎◌, ◌≤◌, ◌<◌, ◌+◌, ◌*◌, ◌^◌, ◌↔◌, ◌∷◌, OnErr, ℕ, Err, IsErr, IfOk, IfErr};
ghost use Rattle.std.specs.Prelude.{IfSome, IsNone, IsSomeAnd, IsTrue, MatchOption, get_or};
ghost use Rattle.common.specs.declared.stop.Stop.{Stop};
ghost use Rattle.spool_disk.specs.Disk.{IsImage, Counts, Preserves};
ghost use Rattle.spool_disk.specs.Given.{Anywhere, Between, ReadsGave, ReadsOnce, given};
ghost use Rattle.spool_disk.specs.Views.{Lasts};
ghost use Rattle.spool_journal.specs.Image.{journal_pages, all_pages, byte_of, overlaid};
ghost use Rattle.spool_journal.specs.Phases.{Settled, ReadsAs};
ghost use Rattle.spool_catalog.specs.Loads.{LoadsAs};
ghost use Rattle.spool_catalog.specs.Shows.{IsValid};
ghost use Rattle.spool_load.specs.Loaded.{FindsBy, FoundOn, IsFoundOf, RestoresBy, IsFoundState, FoundIsAt};
ghost use Rattle.spool_load.specs.ReadBy.{IsOfFound, IsOfState, PartsBy};
ghost use Rattle.spool_load.specs.Reads.{OnlyReads, EncodesBlocks};
ghost use Rattle.spool_load.specs.Recovered.{LeavesRead, OfView, ReadsSame, Recovered, Unwritten};
ghost use Rattle.spool_load.specs.Refusals.{IsNoSpool, NotFoundFor, RefusedAt, EncodesKnownVersion};
ghost use Rattle.spool_pages.specs.Bytes.{IsPadded};
ghost use Rattle.spool_pages.specs.View.{View, IsViewOf, AreAt, state_page, state_place};
ghost use Rattle.spool_pages.specs.declared.version.Version.{Version};

use crate::reading::read_at;
use spool_catalog::OpenFault;
use spool_disk::{Disk, DiskFault};
use spool_journal::{Layout, OPEN, PAGE, recover};
use spool_pages::{Version, blocks_encoded, is_blank_after_fields, state_place, version_and_next};

/// A spool that was found on a disk and recovered.
#[derive(Drop)]
pub struct Found {
    /// The layout, which the number of its text blocks gives.
    pub layout: Layout,
    /// The version of its format.
    pub version: Version,
    /// The number of the next upload.
    pub next: u64,
    /// Whether the rest of the state page is zeros.
    pub is_rest_blank: bool,
}

// Reads the first twelve bytes.
fn read_prefix<D: Disk>(disk: &mut D) -> Result<[u8; 12], DiskFault>
    requires { 12 ≤ D.size disk.old }
    ensures size { D.size disk.new ≡ D.size disk.old }
    ensures honest { D.honest disk.old ↔ D.honest disk.new }
    ensures counts { Counts (IsErr result) (D.failures disk.old) (D.failures disk.new) }
    ensures preserves { D.honest disk.old
        → Preserves (D.current disk.old) (D.current disk.new) (D.unsynced disk.old) (D.unsynced disk.new) }
    ensures lasts { D.honest disk.old → Lasts D.Disk disk.old disk.new
        (IsImage (D.current disk.old) (D.unsynced disk.old)) }
    ensures once { ReadsOnce (Between 0 12) (D.reads disk.old) (D.reads disk.new) }
    ensures gave { D.honest disk.old → ReadsGave (D.current disk.old) (D.reads disk.old) (D.reads disk.new) }
    ensures bytes { (bytes : ℕ → ℕ) → ReadsGave bytes (D.reads disk.old) (D.reads disk.new)
        → IfOk result (λ prefix. (i : ℕ) → i < 12 → get_or prefix i 0 ≡ bytes i) }
{
    let mut prefix = [0; 12];
    disk.read(0, &mut prefix)?;
    Ok(prefix)
}

// The layout that page 0 gives; None if the disk isn't a spool.
fn find_layout<D: Disk>(disk: &mut D) -> Result<Option<Layout>, DiskFault>
    ensures size { D.size disk.new ≡ D.size disk.old }
    ensures honest { D.honest disk.old ↔ D.honest disk.new }
    ensures counts { Counts (IsErr result) (D.failures disk.old) (D.failures disk.new) }
    ensures preserves { D.honest disk.old
        → Preserves (D.current disk.old) (D.current disk.new) (D.unsynced disk.old) (D.unsynced disk.new) }
    ensures lasts { D.honest disk.old → Lasts D.Disk disk.old disk.new
        (IsImage (D.current disk.old) (D.unsynced disk.old)) }
    ensures room { IfOk result (λ found. IfSome found (λ layout. PAGE * all_pages layout ≤ D.size disk.old)) }
    ensures once { ReadsOnce (Between 0 12) (D.reads disk.old) (D.reads disk.new) }
    ensures gave { D.honest disk.old → ReadsGave (D.current disk.old) (D.reads disk.old) (D.reads disk.new) }
    ensures found { (bytes : ℕ → ℕ) → ReadsGave bytes (D.reads disk.old) (D.reads disk.new) → IfOk result
        (λ found. MatchOption found (IsNoSpool (D.size disk.old) bytes) (EncodesBlocks (D.size disk.old) bytes)) }
{
    if disk.len() < 12 {
        return Ok(None);
    }
    let prefix = read_prefix(disk)?;
    let Some(blocks) = blocks_encoded(&prefix) else {
        return Ok(None);
    };
    let Some(layout) = Layout::of(blocks) else {
        return Ok(None);
    };
    if disk.len() < PAGE as u64 * layout.pages() as u64 {
        return Ok(None);
    }
    Ok(Some(layout))
}

// What the state page gives; None if its version is unknown.
fn found_in(layout: Layout, page: &[u8; PAGE]) -> Option<Found>
    ensures layout { IfSome result (λ found. found.layout ≡ layout) }
    ensures decoded { (version : Version) (next : ℕ) → next < 2 ^ 64 → IsPadded page.now (state_page version next)
        → IsSomeAnd result (IsFoundState version next) }
    ensures fields { IfSome result (λ found. AreAt (byte_of page.now) 0 12 (state_page found.version found.next)) }
    ensures rest { IfSome result (λ found. IsTrue found.is_rest_blank
        ↔ AreAt (byte_of page.now) 0 PAGE (state_page found.version found.next)) }
    ensures unknown { IsNone result → EncodesKnownVersion (byte_of page.now) 0 → ⊥ }
{
    let (version, next) = version_and_next(page)?;
    Some(Found {
        layout,
        version,
        next,
        is_rest_blank: is_blank_after_fields(page),
    })
}

// Reads the state page. The search needs `reads_on` only to show of a wrong body that it reads more.
#[tactic(auto, using(crate::proofs::Looks::reads_on, crate::proofs::Looks::state_within))]
fn read_state<D: Disk>(disk: &mut D, layout: &Layout) -> Result<[u8; PAGE], DiskFault>
    requires { PAGE * all_pages layout.now ≤ D.size disk.old }
    ensures reads { OnlyReads D.Disk disk.old disk.new }
    ensures given { IfOk result (λ page. D.reads disk.new ≡ given (state_place layout.now) page ∷ D.reads disk.old) }
    ensures none { OnErr result (D.reads disk.new ≡ D.reads disk.old) }
    ensures counts { Counts (IsErr result) (D.failures disk.old) (D.failures disk.new) }
{
    let mut page = [0; PAGE];
    read_at(disk, state_place(layout), &mut page)?;
    Ok(page)
}

// What the state page gives. None if its version is unknown.
fn load_state<D: Disk>(disk: &mut D, layout: Layout) -> Result<Option<Found>, DiskFault>
    requires { PAGE * all_pages layout ≤ D.size disk.old }
    ensures reads { OnlyReads D.Disk disk.old disk.new }
    ensures once { ReadsOnce (IsOfState layout) (D.reads disk.old) (D.reads disk.new) }
    ensures counts { Counts (IsErr result) (D.failures disk.old) (D.failures disk.new) }
    ensures layout { IfOk result (λ decoded. IfSome decoded (λ found. found.layout ≡ layout)) }
    ensures decoded { (bytes : ℕ → ℕ) → ReadsGave bytes (D.reads disk.old) (D.reads disk.new)
        → (version : Version) (next : ℕ) → next < 2 ^ 64
        → AreAt bytes (state_place layout) PAGE (state_page version next)
        → IfOk result (λ decoded. IsSomeAnd decoded (IsFoundState version next)) }
    ensures found { (bytes : ℕ → ℕ) → ReadsGave bytes (D.reads disk.old) (D.reads disk.new)
        → IfOk result (λ decoded. MatchOption decoded (EncodesKnownVersion bytes (state_place layout) → ⊥)
        (FoundIsAt bytes)) }
{
    let page = read_state(disk, &layout)?;
    Ok(found_in(layout, &page))
}

// Recovers a spool and reads its version.
fn restore<D: Disk>(disk: &mut D, layout: Layout) -> Result<Found, OpenFault>
    requires { PAGE * all_pages layout ≤ D.size disk.old }
    ensures size { D.size disk.new ≡ D.size disk.old }
    ensures honest { D.honest disk.old ↔ D.honest disk.new }
    ensures counts { Counts (result ≡ Err (OpenFault.Stop Stop.DiskFault)) (D.failures disk.old) (D.failures disk.new) }
    ensures layout { IfOk result (λ found. found.layout ≡ layout) }
    ensures decoded { D.honest disk.old → (v : View) → IsValid v → v.blocks ≡ layout → IsViewOf (D.current disk.old) v
        → LoadsAs result (IsFoundOf v) }
    ensures found { D.honest disk.old → EncodesBlocks (D.size disk.old) (D.current disk.old) layout
        → IfOk result (FoundOn (D.size disk.old) (D.current disk.old)) }
    ensures refused { D.honest disk.old → IfErr result (RefusedAt layout (D.current disk.old)) }
    ensures settled { D.honest disk.old → IfOk result
        (λ found. Recovered D.Disk layout disk.old disk.new) }
    ensures lasts { D.honest disk.old → LeavesRead D.Disk layout disk.old disk.new }
    ensures unwritten { D.honest disk.old → (D.current disk.old PAGE ≡ OPEN → ⊥)
        → Lasts D.Disk disk.old disk.new (IsImage (D.current disk.old) (D.unsynced disk.old)) }
    ensures same { D.honest disk.old → (D.current disk.old PAGE ≡ OPEN → ⊥)
        → (result ≡ Err (OpenFault.Stop Stop.DiskFault) → ⊥)
        → Preserves (D.current disk.old) (D.current disk.new) (D.unsynced disk.old) (D.unsynced disk.new) }
    ensures given { PartsBy (Between PAGE (PAGE * (3 + journal_pages layout))) (IsOfFound result) (D.reads disk.old)
        (D.reads disk.new) (RestoresBy layout result) }
{
    recover(disk, &layout)?;
    load_state(disk, layout)?.ok_or(OpenFault::Version)
}

/// Finds a spool and recovers it. A crash during it does no harm: it may be called again. It allocates nothing.
///
/// # Errors
///
/// `NotASpool` if the first 12 bytes aren't a spool's or the disk is shorter than its layout; then those of `recover`;
/// then `Version` if the version is unknown. `DiskFault` at a disk fault.
pub fn find<D: Disk>(disk: &mut D) -> Result<Found, OpenFault>
    ensures size { D.size disk.new ≡ D.size disk.old }
    ensures honest { D.honest disk.old ↔ D.honest disk.new }
    ensures counts { Counts (result ≡ Err (OpenFault.Stop Stop.DiskFault)) (D.failures disk.old) (D.failures disk.new) }
    ensures room { IfOk result (λ found. PAGE * all_pages found.layout ≤ D.size disk.old) }

    // If a read gives a valid spool, that one is found, unless there is a disk fault.
    ensures decoded { D.honest disk.old → OfView (D.size disk.old) (D.current disk.old)
        (λ v. LoadsAs result (IsFoundOf v)) }

    // What is found is what a read gives, and each error has its reason.
    ensures found { D.honest disk.old → IfOk result (FoundOn (D.size disk.old) (D.current disk.old)) }
    ensures refused { D.honest disk.old → IfErr result (NotFoundFor (D.size disk.old) (D.current disk.old)) }

    // On any disk the answer follows from the bytes that the reads gave. After the recovery it reads the state page
    // alone.
    ensures given { PartsBy Anywhere (IsOfFound result) (D.reads disk.old) (D.reads disk.new)
        (λ before after. FindsBy (D.size disk.old) before after result) }

    // All of the disk is synced then, and the gate is closed.
    ensures settled { D.honest disk.old → IfOk result (λ found.
        Recovered D.Disk found.layout disk.old disk.new) }

    // A crash leaves an image of before, or one that reads the same.
    ensures lasts { D.honest disk.old → OfView (D.size disk.old) (D.current disk.old)
        (λ v. LeavesRead D.Disk v.blocks disk.old disk.new) }

    // Without a journal to replay nothing is written: every crash image is one of before, and a read gives the same.
    ensures unwritten { D.honest disk.old → Unwritten D.Disk disk.old disk.new }
    ensures same { D.honest disk.old → ReadsSame D.Disk disk.old disk.new
        (result ≡ Err (OpenFault.Stop Stop.DiskFault)) }
{
    match find_layout(disk)? {
        Some(layout) => restore(disk, layout),
        None => Err(OpenFault::NotASpool),
    }
}
