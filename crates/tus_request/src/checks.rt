//! The checks of a head. Their order decides which refusal a bad request gets.
ghost use Rattle.std.specs.Prelude.{◌≡◌, IfOk};
ghost use Rattle.enc_model.specs.Indexes.{offers};
ghost use Rattle.tus_request.specs.Fields.{values};
ghost use Rattle.tus_request.specs.Checks.{checked, asking, line_place, is_bare, cut_off};
ghost use Rattle.tus_request.specs.CheckParts.{asking_shown, line_shown, refusal_shown, verdict_shown};
ghost use Rattle.tus_request.specs.Requests.{Refuses};

use crate::faults::Fault;
use crate::lookups::{awaits_continue, body_length, has_coding, method_or, wants_close};
use crate::methods::{Verb, verb_of};
use crate::places::{Place, Routes, named_by, on_files};
use crate::requests::Request;
use crate::texts::path;
use enc_index::IndexSet;
use httparse::Header;
use rules::decide;
use std::alloc::{AllocError, Global};

mod post;
mod rules;

/// A request line. `minor` is the digit after `HTTP/1.`.
#[derive(Clone, Copy, Drop)]
pub(crate) struct Line<'h> {
    pub(crate) method: &'h str,
    pub(crate) target: &'h str,
    pub(crate) minor: u8,
}

/// A request line and its fields, as the checks read them. `bare`: the reply has no body; `expects`: the client awaits
/// `100 Continue`; `closes`: the connection closes after the reply.
#[derive(Drop)]
struct Asking<'h> {
    verb: Verb,
    place: Option<Place>,
    fields: &'h [Header<'h>],
    length: u64,
    bare: bool,
    expects: bool,
    closes: bool,
}

/// A refused request: the reason, the length of its body, and what its reply needs.
#[derive(Clone, Copy, Drop)]
pub(crate) struct Refusal {
    pub(crate) fault: Fault,
    pub(crate) length: u64,
    pub(crate) on_files: bool,
    pub(crate) bare: bool,
    pub(crate) closes: bool,
}

/// The verdict on a head.
#[derive(Drop)]
pub(crate) enum Verdict {
    Asks(Request),
    Refuses(Refusal),
}

/// Checks a request line and its fields. Without a router the path is compared with both routes.
pub(crate) fn check(
    alloc: Global,
    line: Line<'_>,
    fields: &[Header<'_>],
    set: &IndexSet,
    routes: Option<&Routes>,
) -> Result<Verdict, AllocError>
    ensures { IfOk result
        (λ v. verdict_shown v ≡ checked (offers set.now) (line_shown line.entry) (values fields.now)) }
{
    let place = match routes {
        Some(routes) => routes.place_of(path(line.target)),
        None => named_by(path(line.target)),
    };
    judge(alloc, line, place, fields, set)
}

/// Checks a request line, what its path names, and its fields. A body of unknown length is refused first, since nothing
/// after it could be read.
fn judge(
    alloc: Global,
    line: Line<'_>,
    place: Option<Place>,
    fields: &[Header<'_>],
    set: &IndexSet,
) -> Result<Verdict, AllocError>
    requires { place ≡ line_place (line_shown line) }
    ensures { IfOk result
        (λ v. verdict_shown v ≡ checked (offers set.now) (line_shown line.entry) (values fields.now)) }
{
    if has_coding(fields) {
        return Ok(Verdict::Refuses(cut_off(line, place, Fault::Coding)));
    }
    let Some(length) = body_length(fields) else {
        return Ok(Verdict::Refuses(cut_off(line, place, Fault::BadLength)));
    };
    let asking = ask(alloc, line, place, fields, length);
    decide(alloc, &asking, set)
}

/// Collects what the further checks read.
fn ask<'h>(
    alloc: Global,
    line: Line<'h>,
    place: Option<Place>,
    fields: &'h [Header<'h>],
    length: u64,
) -> Asking<'h>
    requires { place ≡ line_place (line_shown line) }
    ensures { asking_shown result ≡ asking (line_shown line.entry) (values fields.now) length }
{
    Asking {
        verb: verb_of(alloc, method_or(fields, line.method)),
        place,
        fields,
        length,
        bare: is_bare(line),
        expects: line.minor == 1 && length > 0 && awaits_continue(fields),
        closes: line.minor == 0 || wants_close(fields),
    }
}

/// Whether the method is HEAD, so that the reply has no body.
fn is_bare(line: Line<'_>) -> bool
    ensures { result ≡ is_bare (line_shown line.entry) }
{
    line.method == "HEAD"
}

/// The refusal of a request whose body has no known end: the connection closes.
fn cut_off(line: Line<'_>, place: Option<Place>, fault: Fault) -> Refusal
    requires { place ≡ line_place (line_shown line) }
    ensures { Refuses (refusal_shown result) ≡ cut_off (line_shown line.entry) fault }
{
    Refusal {
        fault,
        length: 0,
        on_files: on_files(place),
        bare: is_bare(line),
        closes: true,
    }
}
