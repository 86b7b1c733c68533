//! The fields of a head, looked up where `httparse` found them.
ghost use Rattle.std.specs.Prelude.{◌≡◌, bytes_eq};
ghost use Rattle.http_header.specs.Token.{lowercase};
ghost use Rattle.tus_request.specs.Fields.{values};
ghost use Rattle.tus_request.specs.FoundFields.{found_values};

use http_header::HeaderName;
use httparse::Header;

/// A value of a name, and the fields after it.
#[derive(Clone, Copy, Drop)]
pub(crate) struct Found<'f, 'b> {
    pub(crate) value: &'b [u8],
    pub(crate) rest: &'f [Header<'b>],
}

/// Whether this is the field's name. Names are compared without case (RFC 9110, 5.1).
#[inline(always)]
#[tactic(auto, using(crate::proofs::FieldLemmas::same_name))]
pub(crate) fn is_named(field: &Header<'_>, name: &HeaderName) -> bool
    ensures { result ≡ bytes_eq (lowercase field.now.name.now) name.now }
{
    // Most names differ in their length.
    if field.name.len() != name.as_str().len() {
        return false;
    }
    name.eq_str(field.name)
}

/// The first value of the name. Nothing is copied: a head has few fields, and most names differ in their length.
pub(crate) fn find<'f, 'b>(fields: &'f [Header<'b>], name: &HeaderName) -> Option<Found<'f, 'b>>
    ensures { values fields.now name.now ≡ found_values result name.now }
{
    for at in 0..fields.len() {
        if is_named(&fields[at], name) {
            return Some(Found {
                value: fields[at].value,
                rest: &fields[at + 1..],
            });
        }
    }
    None
}
