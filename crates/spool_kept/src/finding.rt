//! What a commit finds of its draft's upload.

ghost use Rattle.std.specs.Prelude.{◌≡◌, ◌<◌, ◌⊎◌, false, true};
ghost use Rattle.upload_rules.specs.Lengths.{is_length};
ghost use Rattle.spool_kept.specs.Committing.{Finds};

use spool_catalog::Catalog;
use spool_drafts::SpoolDraft;
use upload_rules::{Record, UploadRefusal, is_length, is_new, length_then};

/// The upload's slot, its length with the draft's, and whether its text stays.
#[derive(Clone, Copy)]
pub struct Found {
    /// The upload's slot.
    pub slot: u32,
    /// Whether the draft gives it its length.
    pub declares: bool,
    /// Its length with the draft's, where one is known.
    pub declared: Option<u64>,
    /// Whether its text stays: no bytes came, and no length makes the accepted ones all.
    pub stays: bool,
}

// Whether a text stays: no bytes came, and no new length makes the accepted ones all.
fn stays(declares: bool, declared: Option<u64>, accepted: u64, came: u64) -> bool
    ensures stays { result ≡ true → (came ≡ 0) × (declares ≡ true → is_length declared accepted ≡ false) }
    ensures goes { result ≡ false → (0 < came) ⊎ ((declares ≡ true) × (is_length declared accepted ≡ true)) }
{
    came == 0 && !(declares && is_length(declared, accepted))
}

/// What a commit finds of a draft's upload, which has as many bytes as when the draft began: refused with `NoSuch`,
/// `Offset`, `LengthSet`, `TooLong`.
pub fn found_for(catalog: &Catalog, draft: &SpoolDraft) -> Result<Found, UploadRefusal>
    ensures { Finds catalog.now.slots draft.now result }
{
    let Some(slot) = catalog.slot_of(draft.number()) else {
        return Err(UploadRefusal::NoSuch);
    };
    let Some(used) = catalog.in_slot(slot) else {
        return Err(UploadRefusal::NoSuch);
    };
    let Record {
        declared: known,
        accepted,
        ..
    } = *used.record();
    if accepted != draft.offset() {
        return Err(UploadRefusal::Offset);
    }
    let came = draft.came();
    let declare = draft.declare();
    let declared = length_then(known, declare, accepted, came)?;
    let declares = is_new(known, declare);
    Ok(Found {
        slot,
        declares,
        declared,
        stays: stays(declares, declared, accepted, came),
    })
}
