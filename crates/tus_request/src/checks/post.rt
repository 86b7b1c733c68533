//! The checks of a POST (tus 1.0.0, Creation).
ghost use Rattle.std.specs.Prelude.{◌≡◌, IfOk, codes, option_map};
ghost use Rattle.enc_model.specs.Indexes.{offers};
ghost use Rattle.tus_request.specs.Checks.{post_checked, with_metadata, with_pairs, with_choice};
ghost use Rattle.tus_request.specs.Fields.{values};
ghost use Rattle.tus_request.specs.Metadata.{metadata_of};
ghost use Rattle.tus_request.specs.Pairs.{choice_shown};
ghost use Rattle.tus_request.specs.CheckParts.{asking_shown, verdict_shown};

use super::rules::{passed, refused};
use super::{Asking, Verdict};
use crate::faults::Fault;
use crate::lookups::{declared_in, has_metadata, metadata_in};
use crate::metadata::{Choice, choice_of, read};
use crate::requests::Action;
use enc_index::IndexSet;
use std::alloc::{AllocError, Global};
use std::str::from_utf8;

/// Checks a POST. It has no body and exactly one of a length and its deferral.
pub(super) fn check_post(
    alloc: Global,
    asking: &Asking<'_>,
    set: &IndexSet,
) -> Result<Verdict, AllocError>
    ensures { IfOk result (λ v. verdict_shown v ≡ post_checked (offers set.now) (asking_shown asking.now)) }
{
    if asking.length > 0 {
        return Ok(refused(asking, Fault::BadHeader));
    }
    match declared_in(asking.fields) {
        Some(declared) => check_metadata(alloc, asking, set, declared),
        None => Ok(refused(asking, Fault::BadHeader)),
    }
}

/// Checks that the metadata is given at most once.
fn check_metadata(
    alloc: Global,
    asking: &Asking<'_>,
    set: &IndexSet,
    declared: Option<u64>,
) -> Result<Verdict, AllocError>
    ensures { IfOk result (λ v. verdict_shown v ≡ with_metadata (offers set.now) (asking_shown asking.now) declared
        (values asking.now.fields.now (codes "upload-metadata"))) }
{
    let Some(found) = metadata_in(asking.fields) else {
        return check_pairs(alloc, asking, set, declared, "");
    };
    if has_metadata(found.rest) {
        return Ok(refused(asking, Fault::BadHeader));
    }
    check_value(alloc, asking, set, declared, found.value)
}

/// Checks the value of the metadata field.
fn check_value(
    alloc: Global,
    asking: &Asking<'_>,
    set: &IndexSet,
    declared: Option<u64>,
    value: &[u8],
) -> Result<Verdict, AllocError>
    ensures { IfOk result (λ v. verdict_shown v ≡ with_pairs (offers set.now) (asking_shown asking.now) declared
        value.now (metadata_of value.now)) }
{
    match from_utf8(value) {
        Ok(metadata) => check_pairs(alloc, asking, set, declared, metadata),
        Err(_) => Ok(refused(asking, Fault::BadMetadata)),
    }
}

/// Checks the form of the metadata.
fn check_pairs(
    alloc: Global,
    asking: &Asking<'_>,
    set: &IndexSet,
    declared: Option<u64>,
    metadata: &str,
) -> Result<Verdict, AllocError>
    ensures { IfOk result (λ v. verdict_shown v ≡ with_pairs (offers set.now) (asking_shown asking.now) declared
        metadata.now (metadata_of metadata.now)) }
{
    match read(alloc, metadata.as_bytes())? {
        Some(pairs) => check_choice(alloc, asking, set, declared, metadata, choice_of(&pairs)),
        None => Ok(refused(asking, Fault::BadMetadata)),
    }
}

/// Checks that the encodings and the mode are known and offered.
fn check_choice(
    alloc: Global,
    asking: &Asking<'_>,
    set: &IndexSet,
    declared: Option<u64>,
    metadata: &str,
    choice: Option<Choice>,
) -> Result<Verdict, AllocError>
    ensures { IfOk result (λ v. verdict_shown v ≡ with_choice (offers set.now) (asking_shown asking.now) declared
        metadata.now (option_map choice_shown choice)) }
{
    let Some(choice) = choice else {
        return Ok(refused(asking, Fault::BadLabel));
    };
    if !set.offers(choice.from) || !set.offers(choice.to) {
        return Ok(refused(asking, Fault::BadLabel));
    }
    let action = Action::Create {
        declared,
        from: choice.from,
        to: choice.to,
        mode: choice.mode,
        metadata: String::from_str(alloc, metadata)?,
    };
    Ok(passed(asking, action))
}
