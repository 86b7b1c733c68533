//! The methods of a request.
ghost use Rattle.std.specs.Prelude.{◌≡◌};
ghost use Rattle.tus_request.specs.Methods.{verb_of};

use http::Method;
use std::alloc::Global;

// The most bytes of a method's name that `http` stores without memory. No method of tus is longer.
const SHORT: usize = 15;

/// The methods that tus uses, and all others as one.
#[derive(Clone, Copy, Drop)]
pub(crate) enum Verb {
    Options,
    Post,
    Head,
    Patch,
    Get,
    Delete,
    Other,
}

/// The method of this name. It needs no memory.
#[tactic(auto, using(crate::proofs::MethodLemmas::no_verb))]
pub(crate) fn verb_of(alloc: Global, name: &[u8]) -> Verb
    ensures { result ≡ verb_of name.now }
{
    if name.len() > SHORT {
        return Verb::Other;
    }
    // An error means that the name is no token, since a short name needs no memory.
    let Ok(method) = Method::from_bytes(alloc, name) else {
        return Verb::Other;
    };
    match method.as_str() {
        "OPTIONS" => Verb::Options,
        "POST" => Verb::Post,
        "HEAD" => Verb::Head,
        "PATCH" => Verb::Patch,
        "GET" => Verb::Get,
        "DELETE" => Verb::Delete,
        _ => Verb::Other,
    }
}
