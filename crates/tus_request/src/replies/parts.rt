//! The lines that replies are made of.
ghost use Rattle.std.specs.Prelude.{◌^◌, ◌≡◌, ◌+◌, ◌<◌, ◌≤◌, ◌++◌, [], None, codes, length, OnOk, OnErr};
ghost use Rattle.std.specs.Prelude.{vec_len, vec_capacity};
ghost use Rattle.std.specs.Fmt.{decimal};
ghost use Rattle.enc_labels.specs.Labels.{name_of};
ghost use Rattle.tus_request.specs.Replies.{header, crlf, length_line, close_line, declared_line, metadata_line};
ghost use Rattle.tus_request.specs.Replies.{status_of, refusal_lead, refusal_line, reply, longest_reply};
ghost use Rattle.tus_request.specs.ReplyParts.{line_shown, lines_shown};

use crate::faults::Fault;
use enc_labels::name_of;
use enc_model::Encoding;
use itoa::Buffer;
use std::alloc::AllocError;

// What is between the status and a reply's own header lines.
const COMMON: &str = "\r\nTus-Resumable: 1.0.0\r\nCache-Control: no-store\r\n";

// What is before the status.
const FIRST: &str = "HTTP/1.1 ";

/// A line in three texts, or nothing.
#[derive(Clone, Copy, Drop)]
pub(super) struct Line<'m> {
    name: &'m str,
    value: &'m str,
    end: &'m str,
}

/// A text that is a line, several, or none.
pub(super) fn whole_line(text: &str) -> Line<'_>
    ensures { line_shown result ≡ text.now }
{
    Line {
        name: text,
        value: "",
        end: "",
    }
}

/// The status of a refusal.
pub(super) fn status_of(fault: Fault) -> &'static str
    ensures { result.now ≡ status_of fault }
{
    match fault {
        Fault::Unencodable => "422 Unprocessable Entity",
        Fault::NoSuch | Fault::NoRoute => "404 Not Found",
        Fault::Offset => "409 Conflict",
        Fault::TooLong | Fault::TooLarge => "413 Payload Too Large",
        Fault::Slots | Fault::Full => "507 Insufficient Storage",
        Fault::HeadTooLong => "431 Request Header Fields Too Large",
        Fault::Coding => "501 Not Implemented",
        Fault::TusVersion => "412 Precondition Failed",
        Fault::BadMethod => "405 Method Not Allowed",
        Fault::MediaType => "415 Unsupported Media Type",
        _ => "400 Bad Request",
    }
}

/// The line before `X-Refusal`, for the two refusals that have one.
pub(super) fn refusal_lead(fault: Fault, on_files: bool) -> &'static str
    ensures { result.now ≡ refusal_lead fault on_files }
{
    match (fault, on_files) {
        (Fault::TusVersion, _) => "Tus-Version: 1.0.0\r\n",
        (Fault::BadMethod, true) => "Allow: OPTIONS, POST\r\n",
        (Fault::BadMethod, false) => "Allow: OPTIONS, HEAD, PATCH, GET, DELETE\r\n",
        _ => "",
    }
}

/// The line of a refusal's number.
pub(super) fn refusal_line(fault: Fault, digits: &mut Buffer) -> Line<'_>
    ensures { line_shown result ≡ refusal_line fault }
{
    Line {
        name: "X-Refusal: ",
        value: digits.format(fault.number()),
        end: "\r\n",
    }
}

/// The line of a new upload's path.
pub(super) fn location_line(number: u64, digits: &mut Buffer) -> Line<'_>
    ensures { line_shown result ≡ header (codes "Location") (codes "/files/" ++ decimal number) }
{
    Line {
        name: "Location: /files/",
        value: digits.format(number),
        end: "\r\n",
    }
}

/// The line of a text's type.
pub(super) fn type_line(to: Encoding) -> Line<'static>
    ensures { line_shown result ≡ header (codes "Content-Type") (codes "text/plain; charset=" ++ name_of to) }
{
    Line {
        name: "Content-Type: text/plain; charset=",
        value: name_of(to),
        end: "\r\n",
    }
}

/// The line of an upload's offset.
pub(super) fn offset_line(offset: u64, digits: &mut Buffer) -> Line<'_>
    ensures { line_shown result ≡ header (codes "Upload-Offset") (decimal offset) }
{
    Line {
        name: "Upload-Offset: ",
        value: digits.format(offset),
        end: "\r\n",
    }
}

/// The line of an upload's length, or of its deferral.
pub(super) fn declared_line(declared: Option<u64>, digits: &mut Buffer) -> Line<'_>
    ensures { line_shown result ≡ declared_line declared }
{
    match declared {
        Some(declared) => Line {
            name: "Upload-Length: ",
            value: digits.format(declared),
            end: "\r\n",
        },
        None => whole_line("Upload-Defer-Length: 1\r\n"),
    }
}

/// The line of an upload's metadata, if it has any.
pub(super) fn metadata_line(metadata: &str) -> Line<'_>
    ensures line { line_shown result ≡ metadata_line metadata.now }
    ensures few { length metadata.now < 2 ^ 63 }
{
    if metadata.len() == 0 {
        return whole_line("");
    }
    Line {
        name: "Upload-Metadata: ",
        value: metadata,
        end: "\r\n",
    }
}

/// The line of the body's length, if the reply has it.
pub(super) fn length_line(length: Option<u64>, digits: &mut Buffer) -> Line<'_>
    ensures { line_shown result ≡ length_line length }
{
    match length {
        Some(length) => Line {
            name: "Content-Length: ",
            value: digits.format(length),
            end: "\r\n",
        },
        None => whole_line(""),
    }
}

/// The line of the connection's close, if it closes, and the empty line at the end.
fn last_lines(closes: bool) -> &'static str
    ensures { result.now ≡ close_line closes ++ crlf }
{
    if closes {
        "Connection: close\r\n\r\n"
    } else {
        "\r\n"
    }
}

/// How many bytes a reply with these lines has.
fn room_for(status: &str, lines: &[Line<'_>], closes: bool) -> usize
    requires { length (reply status.now (lines_shown lines.now) None closes) < 2 ^ 64 }
    ensures { result ≡ length (reply status.now (lines_shown lines.now) None closes) }
{
    let mut room = FIRST.len() + status.len() + COMMON.len() + last_lines(closes).len();
    for line in lines {
        room += line.name.len() + line.value.len() + line.end.len();
    }
    room
}

/// Appends a text, for which there is room.
fn put_text(text: &str, out: &mut Vec<u8>)
    requires { vec_len out.old + length text.now ≤ vec_capacity out.old }
    ensures items { out.new.items ≡ out.old.items ++ text.now }
    ensures len { vec_len out.new ≡ vec_len out.old + length text.now }
    ensures capacity { vec_capacity out.old ≤ vec_capacity out.new }
{
    match out.extend_from_slice(text.as_bytes()) {
        Ok(()) => {}
        Err(_full) => unreachable!(),
    }
}

/// Appends a line, for which there is room.
fn put(line: Line<'_>, out: &mut Vec<u8>)
    requires { vec_len out.old + length (line_shown line) ≤ vec_capacity out.old }
    ensures items { out.new.items ≡ out.old.items ++ line_shown line.entry }
    ensures len { vec_len out.new ≡ vec_len out.old + length (line_shown line.entry) }
    ensures capacity { vec_capacity out.old ≤ vec_capacity out.new }
{
    put_text(line.name, out);
    put_text(line.value, out);
    put_text(line.end, out);
}

/// Appends a reply, for which there is room.
fn print(status: &str, lines: &[Line<'_>], closes: bool, out: &mut Vec<u8>)
    requires { vec_len out.old + length (reply status.now (lines_shown lines.now) None closes) ≤ vec_capacity out.old }
    ensures { out.new.items ≡ out.old.items ++ reply status.now (lines_shown lines.now) None closes }
{
    let first = Line {
        name: FIRST,
        value: status,
        end: COMMON,
    };
    put(first, out);
    for line in lines {
        put(*line, out);
    }
    put_text(last_lines(closes), out);
}

/// Appends a reply with these lines of its own, or leaves `out` unchanged. Room is made for all of it at once, so that
/// nothing after that can fail.
pub(super) fn append(
    status: &str,
    lines: &[Line<'_>],
    closes: bool,
    out: &mut Vec<u8>,
) -> Result<(), AllocError>
    requires { length (reply status.now (lines_shown lines.now) None closes) < 2 ^ 64 }
    ensures ok { OnOk result (out.new.items ≡ out.old.items ++ reply status.now (lines_shown lines.now) None closes) }
    ensures err { OnErr result (out.new.items ≡ out.old.items) }
    ensures full { OnErr result (vec_capacity out.old
        < vec_len out.old + length (reply status.now (lines_shown lines.now) None closes)) }
{
    out.reserve(room_for(status, lines, closes))?;
    print(status, lines, closes, out);
    Ok(())
}

/// Appends the reply to a HEAD, or leaves `out` unchanged. It is a function of its own so that its lines, of which one
/// borrows the metadata and others the caller's digits, have one lifetime.
pub(super) fn append_head<'m>(
    offset: Line<'m>,
    declared: Line<'m>,
    metadata: &'m str,
    size: Line<'m>,
    closes: bool,
    out: &mut Vec<u8>,
) -> Result<(), AllocError>
    requires { length (line_shown offset) + length (line_shown declared) + length (line_shown size) ≤ 200 }
    ensures ok { OnOk result (out.new.items ≡ out.old.items ++ reply (codes "200 OK")
        (line_shown offset.entry ++ (line_shown declared.entry ++ (metadata_line metadata.now
        ++ (line_shown size.entry ++ [])))) None closes) }
    ensures err { OnErr result (out.new.items ≡ out.old.items) }
{
    let lines = [offset, declared, metadata_line(metadata), size];
    append("200 OK", &lines, closes, out)
}
