//! The lines of the log.

use crate::counts::Counts;
use crate::heads::RequestHead;
use crate::refusals::name_of;
use crate::stock::{Progress, Stock, write_stock};
use crate::talks::{Exchange, Spent};
use jiff::Timestamp;
use std::io::{self, Write};
use std::net::SocketAddr;
use std::time::Duration;

/// How many bytes a client's word has at most in a line.
const MOST_SHOWN: usize = 200;

/// The client of a connection.
#[derive(Clone, Copy, Drop)]
pub(crate) struct Client {
    /// The number of the connection, in the order of acceptance, from 1 on.
    pub(crate) number: u64,
    pub(crate) address: SocketAddr,
}

/// A client that waited for a place at least so many milliseconds has its wait in its first line.
const LEAST_WAIT: u128 = 20;

/// The refusal of an unknown label or mode, `BadLabel`.
const BAD_LABEL: u64 = 28;

/// Writes the line of an exchange that ended at this time: `TIME NUMBER CLIENT METHOD PATH by=.. offset=.. length=..
/// body=.. status=.. refusal=.. metadata=.. in=.. out=.. ms=.. wait=.. number=.. now=.. from=.. to=.. mode=..`. The
/// metadata is shown if its labels are refused, and so are these; the wait, if it was no short one.
pub(crate) fn write_exchange(
    out: &mut Vec<u8>,
    time: Duration,
    client: Client,
    exchange: &Exchange,
    spent: Spent,
    progress: Option<Progress>,
) -> io::Result<()> {
    write_time(out, time)?;
    write!(out, " {} {}", client.number, client.address)?;
    write_request(out, &exchange.head)?;
    write_reply(out, exchange)?;
    let refusal = exchange.reply.and_then(|reply| reply.refusal);
    let is_bad_label = refusal == Some(BAD_LABEL);
    if is_bad_label {
        write!(out, " metadata=")?;
        write_shown(out, exchange.head.metadata())?;
    }
    write!(out, " in={} out={}", exchange.came, exchange.sent)?;
    write_spent(out, spent)?;
    write_upload(out, exchange, progress)?;
    if is_bad_label {
        write_labels(out, &exchange.head)?;
    }
    writeln!(out)
}

/// Writes the line of a minute's counts, and how many bodies are under way and what is left in the spool at its end.
pub(crate) fn write_counts(
    out: &mut Vec<u8>,
    time: Duration,
    counts: &Counts,
    bodies: usize,
    stock: Option<Stock>,
) -> io::Result<()> {
    write_time(out, time)?;
    write!(
        out,
        " minute connections={} requests={} 2xx={} 4xx={} 5xx={} in={} out={} bodies={bodies}",
        counts.connections,
        counts.requests,
        counts.served,
        counts.refused,
        counts.failed,
        counts.bytes_in,
        counts.bytes_out
    )?;
    if counts.unaccepted > 0 {
        write!(out, " unaccepted={}", counts.unaccepted)?;
    }
    write_stock(out, stock)?;
    writeln!(out)
}

// Writes a time since 1970 in UTC, or a dash if the calendar doesn't have it.
fn write_time(out: &mut Vec<u8>, time: Duration) -> io::Result<()> {
    let millis = i64::try_from(time.as_millis()).unwrap_or(i64::MAX);
    match Timestamp::from_millisecond(millis) {
        Ok(time) => write!(out, "{time:.3}"),
        Err(_) => write!(out, "-"),
    }
}

// Writes the request: its method and its path, with the method of the first line behind them if another one counts, and
// its numbers if it has them.
fn write_request(out: &mut Vec<u8>, head: &RequestHead) -> io::Result<()> {
    write_word(out, " ", head.method().or(head.word(0)))?;
    write_word(out, " ", head.word(1))?;
    if head.method().is_some() {
        write_word(out, " by=", head.word(0))?;
    }
    write_number(out, "offset", head.offset)?;
    write_number(out, "length", head.length)?;
    write_number(out, "body", head.body)
}

// Writes the reply.
fn write_reply(out: &mut Vec<u8>, exchange: &Exchange) -> io::Result<()> {
    let Some(reply) = exchange.reply else {
        return write!(out, " status=none");
    };
    write!(out, " status={}", reply.status)?;
    if !exchange.is_whole {
        write!(out, " cut")?;
    }
    write_number(out, "refusal", reply.refusal)?;
    match reply.refusal.and_then(|number| name_of(number)) {
        Some(name) => write!(out, ":{name}"),
        None => Ok(()),
    }
}

// Writes how long an exchange took, and how long its client waited for its place.
fn write_spent(out: &mut Vec<u8>, spent: Spent) -> io::Result<()> {
    write!(out, " ms={}", spent.took.as_millis())?;
    let waited = spent.waited.as_millis();
    if waited >= LEAST_WAIT {
        write!(out, " wait={waited}")?;
    }
    Ok(())
}

// Writes what is known of an upload: its number if it is new, and how many bytes it has now, of how many: by the reply,
// or where a body was cut without one, by how far it came.
fn write_upload(
    out: &mut Vec<u8>,
    exchange: &Exchange,
    progress: Option<Progress>,
) -> io::Result<()> {
    let (number, now, length) = match exchange.reply {
        Some(reply) => (reply.number, reply.offset, reply.length),
        None => (
            None,
            progress.map(|progress| progress.accepted),
            progress.and_then(|progress| progress.declared),
        ),
    };
    write_number(out, "number", number)?;
    write_number(out, "now", now)?;
    match (now, length) {
        (Some(_), Some(length)) => write!(out, "/{length}"),
        _ => Ok(()),
    }
}

// Writes the labels and the mode that the metadata has, decoded.
fn write_labels(out: &mut Vec<u8>, head: &RequestHead) -> io::Result<()> {
    for key in ["from", "to", "mode"] {
        if let Some(label) = head.value_of(key) {
            write!(out, " {key}=")?;
            write_shown(out, &label)?;
        }
    }
    Ok(())
}

// Writes a number with its name, if there is one.
fn write_number(out: &mut Vec<u8>, name: &str, number: Option<u64>) -> io::Result<()> {
    match number {
        Some(number) => write!(out, " {name}={number}"),
        None => Ok(()),
    }
}

// Writes what stands before a client's word, and the word, or a dash without one.
fn write_word(out: &mut Vec<u8>, lead: &str, word: Option<&[u8]>) -> io::Result<()> {
    write!(out, "{lead}")?;
    match word {
        Some(word) if !word.is_empty() => write_shown(out, word),
        _ => write_shown(out, b"-"),
    }
}

// Writes what a client sent, at most 200 bytes of it. Bytes other than printable ASCII are written as `\xNN`, and so is
// a backslash.
fn write_shown(out: &mut Vec<u8>, word: &[u8]) -> io::Result<()> {
    let mut room = MOST_SHOWN;
    for byte in word {
        let plain = byte.is_ascii_graphic() && *byte != b'\\';
        let width = if plain { 1 } else { 4 };
        if width > room {
            break;
        }
        room -= width;
        if plain {
            out.push(*byte)?;
        } else {
            write!(out, "\\x{byte:02x}")?;
        }
    }
    Ok(())
}
