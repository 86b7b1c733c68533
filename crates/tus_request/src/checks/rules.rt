//! The checks of the fields, in their order.
ghost use Rattle.std.specs.Prelude.{◌≡◌, IfOk};
ghost use Rattle.enc_model.specs.Indexes.{offers};
ghost use Rattle.tus_request.specs.Checks.{decided, on_all, on_upload, patch_checked, accepted_request, passed_patch};
ghost use Rattle.tus_request.specs.Checks.{refused};
ghost use Rattle.tus_request.specs.Checks.{lacks_version};
ghost use Rattle.tus_request.specs.CheckParts.{asking_shown, verdict_shown};
ghost use Rattle.tus_request.specs.Shown.{action_shown};

use super::post::check_post;
use super::{Asking, Refusal, Verdict};
use crate::faults::Fault;
use crate::lookups::{has_version, is_patch_media, new_length_in, offset_in};
use crate::methods::Verb;
use crate::places::{Place, on_files};
use crate::requests::{Action, Request};
use enc_index::IndexSet;
use std::alloc::{AllocError, Global};

/// Refuses a request. A client that awaits 100 Continue also gets a close, since its body may or may not follow.
pub(super) fn refused(asking: &Asking<'_>, fault: Fault) -> Verdict
    ensures { verdict_shown result ≡ refused (asking_shown asking.now) fault }
{
    Verdict::Refuses(Refusal {
        fault,
        length: asking.length,
        on_files: on_files(asking.place),
        bare: asking.bare,
        closes: asking.closes || asking.expects,
    })
}

/// Accepts a request other than PATCH.
pub(super) fn passed(asking: &Asking<'_>, action: Action) -> Verdict
    ensures { verdict_shown result ≡ accepted_request (asking_shown asking.now) (action_shown action) }
{
    Verdict::Asks(Request {
        action,
        length: asking.length,
        bare: asking.bare,
        expects: false,
        closes: asking.closes || asking.expects,
    })
}

/// Accepts a PATCH.
fn passed_patch(asking: &Asking<'_>, number: u64, offset: u64, declare: Option<u64>) -> Verdict
    ensures { verdict_shown result ≡ passed_patch (asking_shown asking.now) number offset declare }
{
    Verdict::Asks(Request {
        action: Action::Patch {
            number,
            offset,
            declare,
        },
        length: asking.length,
        bare: asking.bare,
        expects: asking.expects,
        closes: asking.closes,
    })
}

/// Whether the protocol's version is required and missing. OPTIONS and GET don't require it.
fn lacks_version(asking: &Asking<'_>) -> bool
    ensures { result ≡ lacks_version (asking_shown asking.now) }
{
    match asking.verb {
        Verb::Options | Verb::Get => false,
        _ => !has_version(asking.fields),
    }
}

/// Checks a PATCH (tus 1.0.0, PATCH).
#[tactic(auto, using(crate::proofs::CheckLemmas::patch_passes))]
fn check_patch(asking: &Asking<'_>, number: u64) -> Verdict
    ensures { verdict_shown result ≡ patch_checked (asking_shown asking.now) number }
{
    if !is_patch_media(asking.fields) {
        return refused(asking, Fault::MediaType);
    }
    let Some(offset) = offset_in(asking.fields) else {
        return refused(asking, Fault::BadHeader);
    };
    let Some(declare) = new_length_in(asking.fields) else {
        return refused(asking, Fault::BadHeader);
    };
    passed_patch(asking, number, offset, declare)
}

/// Checks a request for one upload.
fn on_upload(asking: &Asking<'_>, number: u64) -> Verdict
    ensures { verdict_shown result ≡ on_upload (asking_shown asking.now) number asking.now.verb }
{
    match asking.verb {
        Verb::Options => passed(asking, Action::Options),
        Verb::Head => passed(asking, Action::Head(number)),
        Verb::Patch => check_patch(asking, number),
        Verb::Get => passed(asking, Action::Get(number)),
        Verb::Delete => passed(asking, Action::Delete(number)),
        Verb::Post | Verb::Other => refused(asking, Fault::BadMethod),
    }
}

/// Checks a request for `/files`.
fn on_all(alloc: Global, asking: &Asking<'_>, set: &IndexSet) -> Result<Verdict, AllocError>
    ensures { IfOk result (λ v. verdict_shown v ≡ on_all (offers set.now) (asking_shown asking.now) asking.now.verb) }
{
    match asking.verb {
        Verb::Options => Ok(passed(asking, Action::Options)),
        Verb::Post => check_post(alloc, asking, set),
        _ => Ok(refused(asking, Fault::BadMethod)),
    }
}

/// All checks from the protocol's version on.
pub(super) fn decide(
    alloc: Global,
    asking: &Asking<'_>,
    set: &IndexSet,
) -> Result<Verdict, AllocError>
    ensures { IfOk result (λ v. verdict_shown v ≡ decided (offers set.now) (asking_shown asking.now)) }
{
    if lacks_version(asking) {
        return Ok(refused(asking, Fault::TusVersion));
    }
    match asking.place {
        None => Ok(refused(asking, Fault::NoRoute)),
        Some(Place::Files) => on_all(alloc, asking, set),
        Some(Place::Upload(number)) => Ok(on_upload(asking, number)),
    }
}
