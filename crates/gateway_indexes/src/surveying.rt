//! How much of a spool is in use.
ghost use Rattle.std.specs.Prelude.{◌≡◌, ◌↔◌, ℕ, IfErr, IfOk, Some, false, true};
ghost use Rattle.spool_disk.specs.Disk.{Counts};
ghost use Rattle.spool_disk.specs.Views.{Lasts};
ghost use Rattle.upload_rules.specs.Store.{Store};
ghost use Rattle.upload_rules.specs.World.{at_rest};
ghost use Rattle.spool_pages.specs.View.{View, version_number};
ghost use Rattle.spool_catalog.specs.Shows.{Shows};
ghost use Rattle.spool_load.specs.Refusals.{HasOtherVersion, IsDamaged, IsNoSpool, RefusedFor};
ghost use Rattle.spool_image.specs.LeftOnly.{AllShow, IsSpool, LeftOrShows};
ghost use Rattle.spool_image.specs.Opening.{OpensBy, ReadsBy, ReadsSame, Unwritten};
ghost use Rattle.spool_image.specs.Spool.{IsOpenFault, SpoolHasView, OpensAs, OpensFrom, RefusesAs, SpoolRepresents};
ghost use Rattle.spool_image.specs.Spool.{disk_of, block_count_of};
ghost use Rattle.gateway_indexes.specs.Surveying.{disk_left};

use crate::found::Found;
use crate::spool_indexes::found_in;
use common::SLOTS;
use spool_disk::Disk;
use spool_image::{OpenFault, Spool};
use spool_journal::PAGE;
use std::alloc::Global;
use upload_rules::{Uploads, is_length};

/// How many bytes of a text a block has.
const BLOCK: u64 = PAGE as u64;

/// A spool's version and size, how much of it is in use, and what it has of the standard's indexes.
#[derive(Clone, Copy, Drop)]
pub struct Survey {
    /// The version of its layout.
    pub version: u32,
    /// How many text blocks it has.
    pub blocks: u64,
    /// How many of them no text has.
    pub free_blocks: u64,
    /// How many uploads more it may have.
    pub free_slots: u64,
    /// What it has of each index, in the order of its index area.
    pub indexes: [Found; 18],
}

/// Opens the spool on a disk, and surveys it. The disk comes back with each refusal.
pub fn open_surveyed<D: Disk>(alloc: Global, disk: D) -> Result<(Spool<D>, Survey), (D, OpenFault)>
    ensures size { D.size (disk_left result) ≡ D.size disk }
    ensures honest { D.honest disk ↔ D.honest (disk_left result) }
    ensures counts { Counts (IsOpenFault result) (D.failures disk) (D.failures (disk_left result)) }

    // A spool is opened, unless memory or the disk refuses it, and represents its uploads. The survey has its number of
    // blocks and its version.
    ensures represents { (n : ℕ) (m : Store) → IsSpool D.Disk disk n m
        → OpensAs result (λ opened. SpoolRepresents opened.0 true (at_rest m (Some n))) }
    ensures blocks { (n : ℕ) (m : Store) → IsSpool D.Disk disk n m → IfOk result (λ opened. opened.1.blocks ≡ n) }
    ensures survey { (v : View) → IfOk result (λ opened. SpoolHasView opened.0 v
        → (opened.1.version ≡ version_number v.version) × (opened.1.blocks ≡ v.blocks)) }

    // On any disk its catalog has a view, which shows uploads, and it represents these.
    ensures view { IfOk result (λ opened. (v : View) × (m : Store) × SpoolHasView opened.0 v × Shows v m) }
    ensures represents_view { (v : View) (m : Store) → Shows v m
        → IfOk result (λ opened. SpoolHasView opened.0 v → SpoolRepresents opened.0 false (at_rest m (Some v.blocks))) }

    // And the answer follows from the bytes that the reads gave, and so does this view.
    ensures given { ReadsBy (D.reads disk) (D.reads (disk_left result))
        (OpensBy (λ opened. SpoolHasView opened.0) (D.size disk) result) }

    // What is opened is a valid spool, and it is what a read shows. Each refusal has its reason, and each reason is
    // answered so, unless memory or the disk refuses it.
    ensures valid { D.honest disk → IfOk result (λ opened. OpensFrom (D.size disk) (D.current disk) opened.0) }
    ensures refused { D.honest disk → IfErr result (λ e. RefusedFor (D.size disk) (D.current disk) e.1) }
    ensures not_a_spool { D.honest disk → IsNoSpool (D.size disk) (D.current disk)
        → RefusesAs result OpenFault.NotASpool }
    ensures version { D.honest disk → HasOtherVersion (D.size disk) (D.current disk)
        → RefusesAs result OpenFault.Version }
    ensures damaged { D.honest disk → IsDamaged (D.size disk) (D.current disk) → RefusesAs result OpenFault.Damaged }

    // Where no journal is to be replayed it writes nothing: every image is one from before, and so is what a read
    // gives.
    ensures unwritten { D.honest disk → Unwritten D.Disk disk (disk_left result) }
    ensures same { D.honest disk → ReadsSame D.Disk disk (disk_left result) (IsOpenFault result) }

    // Every image shows these then, and a crash during it leaves what it might have left before, or what shows them.
    ensures shows { (n : ℕ) (m : Store) → IsSpool D.Disk disk n m
        → IfOk result (λ opened. AllShow D.Disk (disk_of opened.0) n m) }
    ensures lasts { (n : ℕ) (m : Store) → IsSpool D.Disk disk n m
        → Lasts D.Disk disk (disk_left result) (LeftOrShows D.Disk disk n m) }
{
    let spool = Spool::open(alloc, disk)?;
    let survey = survey_of(&spool);
    Ok((spool, survey))
}

/// How much of a spool is in use.
pub fn survey_of<D: Disk>(spool: &Spool<D>) -> Survey
    ensures blocks { result.blocks ≡ block_count_of spool.now }
    ensures version { (v : View) → SpoolHasView spool.now v → result.version ≡ version_number v.version }
{
    let blocks = u64::from(spool.blocks());
    let used = used_of(spool);
    Survey {
        version: spool.version().number(),
        blocks,
        free_blocks: blocks.saturating_sub(used.blocks),
        free_slots: used.free_slots,
        indexes: found_in(spool.indexes()),
    }
}

/// What the uploads of a spool use.
#[derive(Clone, Copy, Debug, PartialEq, Eq, Drop)]
pub struct Used {
    /// How many blocks their texts have.
    pub blocks: u64,
    /// How many uploads more there may be.
    pub free_slots: u64,
    /// How many of them aren't complete.
    pub incomplete: u64,
}

/// What the uploads of a spool use. Blocks that open appends have reserved aren't counted.
pub fn used_of<U: Uploads>(uploads: &U) -> Used {
    let mut used = Used {
        blocks: 0,
        free_slots: u64::from(SLOTS),
        incomplete: 0,
    };
    let mut number = 0;
    for _ in 0..SLOTS {
        let Some(record) = uploads.record_after(number) else {
            return used;
        };
        let complete = is_length(record.declared, record.accepted);
        used.blocks = used.blocks.saturating_add(record.text_len.div_ceil(BLOCK));
        used.free_slots = used.free_slots.saturating_sub(1);
        used.incomplete = used.incomplete.saturating_add(u64::from(!complete));
        number = record.number;
    }
    used
}
