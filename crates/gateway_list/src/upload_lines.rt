//! An upload's line in a list.

ghost use Rattle.std.specs.Prelude.{◌≡◌, ◌++◌, IfOk, OnOk, Some, option_map, string_bytes, Bool};
ghost use Rattle.upload_rules.specs.World.{World};
ghost use Rattle.gateway_outside.specs.InOrder.{IsInOrder};
ghost use Rattle.gateway_list.specs.Lines.{length_text, list_lines, mode_text, record_line, spaced};
ghost use Rattle.gateway_list.specs.Lines.{shown_name, to_show};

use enc_labels::name_of;
use enc_model::Mode;
use gateway_texts::{given_name, is_clean};
use std::alloc::{AllocError, Global};
use std::fmt;
use std::io::Write;
use upload_rules::{Record, Uploads};

/// The lines of the uploads, by number.
pub(crate) fn lines_of<U: Uploads>(
    alloc: Global,
    uploads: &U,
    long: bool,
) -> Result<String, AllocError>
    ensures lines { (sure : Bool) (w : World) → U.represents uploads.now sure w → IsInOrder w.store
        → IfOk result (λ lines. string_bytes lines ≡ list_lines long w.store) }
{
    let mut lines = String::new(alloc);
    let mut number = 0;
    for _ in 0..u64::MAX {
        let Some(record) = uploads.record_after(number) else {
            return Ok(lines);
        };
        push_line(alloc, &mut lines, record, long)?;
        number = record.number;
    }
    // No memory holds so many lines.
    Err(AllocError)
}

// Adds the line of an upload.
fn push_line(
    alloc: Global,
    lines: &mut String,
    record: &Record,
    long: bool,
) -> Result<(), AllocError>
    ensures { OnOk result (string_bytes lines.new ≡ string_bytes lines.old ++ record_line long record.now) }
{
    let from = name_of(record.from);
    let to = name_of(record.to);
    let mode = mode_name(record.mode);
    let declared = Declared(record.declared);
    let reported = to_show(record, long);
    let name = given_name(alloc, reported.as_bytes())?;
    let metadata = Spaced(reported);
    let named = Named(name);
    writeln!(
        lines,
        "{} {}/{declared} {} {from} {to} {mode}{metadata}{named}",
        record.number, record.accepted, record.text_len
    )
}

/// A declared length, and `?` for one that isn't known yet.
#[derive(Drop)]
struct Declared(Option<u64>);

impl fmt::Display for Declared {
    ghost output = { λ declared. Some (length_text declared.0) };

    fn fmt<W: fmt::Write>(&self, f: &mut fmt::Formatter<W>) -> fmt::Result {
        match self.0 {
            Some(length) => write!(f, "{length}"),
            None => f.write_str("?"),
        }
    }
}

// What is shown of an upload's metadata: all or nothing.
fn to_show(record: &Record, long: bool) -> &str
    ensures { result.now ≡ to_show long record.now.metadata.bytes.items }
{
    if long { record.metadata.as_str() } else { "" }
}

/// Some text after a space, or nothing.
#[derive(Drop)]
struct Spaced<'t>(&'t str);

impl fmt::Display for Spaced<'_> {
    ghost output = { λ text. Some (spaced text.0.now) };

    fn fmt<W: fmt::Write>(&self, f: &mut fmt::Formatter<W>) -> fmt::Result {
        if self.0.is_empty() {
            Ok(())
        } else {
            write!(f, " {}", self.0)
        }
    }
}

/// A file name, where it has no control character and no path separator.
#[derive(Drop)]
struct Named(Option<String>);

impl fmt::Display for Named {
    ghost output = { λ named. Some (shown_name (option_map string_bytes named.0)) };

    fn fmt<W: fmt::Write>(&self, f: &mut fmt::Formatter<W>) -> fmt::Result {
        match &self.0 {
            Some(name) if is_clean(name) => write!(f, " (filename: {name})"),
            _ => Ok(()),
        }
    }
}

/// A mode, as it is named in the metadata of an upload.
pub(crate) fn mode_name(mode: Mode) -> &'static str
    ensures { result.now ≡ mode_text mode }
{
    match mode {
        Mode::Html => "html",
        Mode::Fatal => "fatal",
    }
}
