//! What is in an upload's line of JSON.

ghost use Rattle.std.specs.Prelude.{◌≡◌, IfOk, Some, string_bytes};
ghost use Rattle.gateway_list.specs.Json.{number_or_null, record_counts, record_encodings, record_head};

use crate::json_texts::{json_text, text_or_null};
use crate::upload_lines::mode_name;
use enc_labels::name_of;
use gateway_texts::given_name;
use std::alloc::{AllocError, Global};
use std::fmt;
use upload_rules::{Record, is_length};

/// The line of an upload, but for its losses.
pub(crate) fn head_of(alloc: Global, record: &Record) -> Result<String, AllocError>
    ensures { IfOk result (λ head. string_bytes head ≡ record_head record.now) }
{
    let name = given_name(alloc, record.metadata.as_str().as_bytes())?;
    let filename = text_or_null(alloc, name)?;
    let metadata = json_text(alloc, record.metadata.as_str())?;
    let counts = Counts(record);
    let encodings = Encodings(record);
    format!(in alloc; "{counts}{encodings},\"filename\":{filename},\"metadata\":{metadata}")
}

/// How many bytes an upload has: the first fields of its line.
#[derive(Drop)]
struct Counts<'r>(&'r Record);

impl fmt::Display for Counts<'_> {
    ghost output = { λ counts. Some (record_counts counts.0.now) };

    fn fmt<W: fmt::Write>(&self, f: &mut fmt::Formatter<W>) -> fmt::Result {
        let record = self.0;
        let declared = OrNull(record.declared);
        let complete = is_length(record.declared, record.accepted);
        write!(
            f,
            "{{\"number\":{},\"accepted\":{},\"declared\":{declared},\"complete\":{complete},\"text\":{}",
            record.number, record.accepted, record.text_len
        )
    }
}

/// What its text is in: the next fields.
#[derive(Drop)]
struct Encodings<'r>(&'r Record);

impl fmt::Display for Encodings<'_> {
    ghost output = { λ encodings. Some (record_encodings encodings.0.now) };

    fn fmt<W: fmt::Write>(&self, f: &mut fmt::Formatter<W>) -> fmt::Result {
        let record = self.0;
        let from = name_of(record.from);
        let to = name_of(record.to);
        let mode = mode_name(record.mode);
        write!(
            f,
            ",\"from\":\"{from}\",\"to\":\"{to}\",\"mode\":\"{mode}\""
        )
    }
}

/// A number, or null.
#[derive(Drop)]
struct OrNull(Option<u64>);

impl fmt::Display for OrNull {
    ghost output = { λ number. Some (number_or_null number.0) };

    fn fmt<W: fmt::Write>(&self, f: &mut fmt::Formatter<W>) -> fmt::Result {
        match self.0 {
            Some(number) => write!(f, "{number}"),
            None => f.write_str("null"),
        }
    }
}
