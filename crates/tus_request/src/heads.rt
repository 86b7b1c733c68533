//! Parsing the head at the start of a stream.
ghost use Rattle.std.specs.Prelude.{◌≡◌, IfOk, OnErr, nat_lt, if◌then◌else◌};
ghost use Rattle.enc_model.specs.Indexes.{offers};
ghost use Rattle.tus_request.specs.Answers.{More, Judged, answer_of};
ghost use Rattle.tus_request.specs.Checks.{no_head};
ghost use Rattle.tus_request.specs.CheckParts.{verdict_shown};
ghost use Rattle.tus_request.specs.declared.faults.Fault.TheVariants.{HeadTooLong};
ghost use Rattle.tus_request.specs.Grammar.{prefix, IsWholeHead, IsAnswer, IsHeadAnswer, IsShortHead};
ghost use Rattle.tus_request.specs.Shown.{answer_shown};

use crate::checks::{Line, Verdict, check};
use crate::faults::Fault;
use crate::lines::measure;
use crate::places::Routes;
use crate::requests::Parsed;
use enc_index::IndexSet;
use httparse::{Request, Status};
use std::alloc::{AllocError, Global};

/// The most bytes of a request's head.
pub const MOST_HEAD: usize = 8192;

/// The most lines of a head after its request line.
pub const MOST_LINES: usize = 64;

/// Parses the head at the start of a stream: of all bytes that arrived and aren't taken yet.
///
/// The result depends on the bytes and on the encodings that the index set offers, on nothing else. It is the one that
/// the grammar of request heads gives (RFC 9112, sections 2 to 5, as `httparse` reads it by default). A head has at
/// most 8,192 bytes and 64 lines after its request line. It ends at the first empty line after one that isn't empty. An
/// unfinished head is only searched for its end.
///
/// # Errors
///
/// `AllocError` if memory for the metadata is refused, which needs a finished head within the limits.
pub fn parse(alloc: Global, bytes: &[u8], set: &IndexSet) -> Result<Parsed, AllocError>
    ensures function { IfOk result (λ answer. answer_shown answer ≡ answer_of (offers set.now) bytes.now) }
    ensures grammar { IfOk result (λ answer. IsAnswer (offers set.now) bytes.now (answer_shown answer)) }
    ensures memory { OnErr result (IsWholeHead (prefix bytes.now)) }
{
    parse_by(alloc, bytes, set, None)
}

/// The same, by routes if there are any.
pub(crate) fn parse_by(
    alloc: Global,
    bytes: &[u8],
    set: &IndexSet,
    routes: Option<&Routes>,
) -> Result<Parsed, AllocError>
    ensures function { IfOk result (λ answer. answer_shown answer ≡ answer_of (offers set.now) bytes.now) }
    ensures grammar { IfOk result (λ answer. IsAnswer (offers set.now) bytes.now (answer_shown answer)) }
    ensures memory { OnErr result (IsWholeHead (prefix bytes.now)) }
{
    parse_head(alloc, bytes, set, routes)
}

/// The same, stated by the grammar alone.
fn parse_head(
    alloc: Global,
    bytes: &[u8],
    set: &IndexSet,
    routes: Option<&Routes>,
) -> Result<Parsed, AllocError>
    ensures grammar { IfOk result (λ answer. IsAnswer (offers set.now) bytes.now (answer_shown answer)) }
    ensures memory { OnErr result (IsWholeHead (prefix bytes.now)) }
{
    let prefix = &bytes[..bytes.len().min(MOST_HEAD)];
    let Some(extent) = measure(prefix) else {
        return Ok(unmeasured(prefix.len()));
    };
    if extent.texts > MOST_LINES + 1 {
        return Ok(no_head(extent.len, Fault::HeadTooLong));
    }
    read_whole(alloc, &prefix[..extent.len], set, routes)
}

/// The answer to an unfinished head of `came` bytes.
fn unmeasured(came: usize) -> Parsed
    ensures { answer_shown result ≡ (if nat_lt came MOST_HEAD then More else Judged MOST_HEAD (no_head HeadTooLong)) }
{
    if came < MOST_HEAD {
        Parsed::More
    } else {
        no_head(MOST_HEAD, Fault::HeadTooLong)
    }
}

/// The answer to bytes that aren't a head.
fn no_head(taken: usize, fault: Fault) -> Parsed
    ensures { answer_shown result ≡ Judged taken (no_head fault) }
{
    Parsed::Refused {
        taken,
        length: 0,
        fault,
        on_files: false,
        bare: false,
        closes: true,
    }
}

/// The answer with this verdict.
fn answer(taken: usize, verdict: Verdict) -> Parsed
    ensures { answer_shown result ≡ Judged taken (verdict_shown verdict) }
{
    match verdict {
        Verdict::Asks(request) => Parsed::Head { taken, request },
        Verdict::Refuses(refusal) => Parsed::Refused {
            taken,
            length: refusal.length,
            fault: refusal.fault,
            on_files: refusal.on_files,
            bare: refusal.bare,
            closes: refusal.closes,
        },
    }
}

/// Parses a finished head.
fn read_whole(
    alloc: Global,
    head: &[u8],
    set: &IndexSet,
    routes: Option<&Routes>,
) -> Result<Parsed, AllocError>
    requires { IsShortHead head.now }
    ensures { IfOk result (λ answer. IsHeadAnswer (offers set.now) head.now (answer_shown answer)) }
{
    let mut headers = [httparse::EMPTY_HEADER; MOST_LINES];
    let mut request = Request::new(&mut headers);
    match request.parse(head) {
        Ok(Status::Complete(_)) => {}
        Ok(Status::Partial) => return Ok(no_head(head.len(), Fault::Malformed)),
        Err(_) => return Ok(no_head(head.len(), Fault::Malformed)),
    }
    let line = Line {
        method: request.method.unwrap(),
        target: request.path.unwrap(),
        minor: request.version.unwrap(),
    };
    let verdict = check(alloc, line, request.headers, set, routes)?;
    Ok(answer(head.len(), verdict))
}
