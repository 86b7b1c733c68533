//! The lines of a script.
ghost use Rattle.std.specs.Prelude.{◌≡◌, IfOk};
ghost use Rattle.gateway_script.specs.Script.{bared, order_of, conn_number, order_of_word};
ghost use Rattle.gateway_script.specs.Shown.{order_shown, say_of, came_order};

use crate::digits::HexDigits;
use common::{after, number, prefix};
use std::alloc::{AllocError, Global};

/// What a line of a script asks for.
#[derive(Drop)]
pub(crate) enum Order {
    /// Nothing: an empty line, or one that begins with `#`.
    Skip,
    /// A connection is opened.
    Open(usize),
    /// Bytes come on a connection.
    Give(usize, Vec<u8>),
    /// A connection is cut.
    Cut(usize),
    /// The line is none of these.
    Bad,
}

/// A line without the CR at its end.
fn bare(line: &[u8]) -> &[u8]
    ensures { result.now ≡ bared line.now }
{
    match line.last() {
        Some(b'\r') => &line[..line.len() - 1],
        _ => line,
    }
}

/// The number of a connection: 1 to 9 digits.
fn connection(text: &[u8]) -> Option<u64>
    ensures { result ≡ conn_number text.now }
{
    if text.len() > 9 {
        return None;
    }
    number(text)
}

/// The rest of a line after `say`: its text comes with CRLF after.
fn say(alloc: Global, rest: &[u8]) -> Result<Order, AllocError>
    ensures { IfOk result (λ o. order_shown o ≡ say_of rest.now) }
{
    let Some(conn) = connection(prefix(rest, b' ')) else {
        return Ok(Order::Bad);
    };
    let text = after(rest, b' ');
    let mut bytes = Vec::with_capacity(alloc, text.len() + 2)?;
    bytes.extend_from_slice(text)?;
    bytes.extend_from_slice(b"\r\n")?;
    Ok(Order::Give(conn as usize, bytes))
}

/// The rest of a line after `came`: at least one byte in hex.
fn came(alloc: Global, digits: &HexDigits, rest: &[u8]) -> Result<Order, AllocError>
    ensures { IfOk result (λ o. order_shown o ≡ came_order rest.now) }
{
    let Some(conn) = connection(prefix(rest, b' ')) else {
        return Ok(Order::Bad);
    };
    Ok(match digits.decode(alloc, after(rest, b' '))? {
        Some(bytes) if !bytes.is_empty() => Order::Give(conn as usize, bytes),
        _ => Order::Bad,
    })
}

/// What a line asks for.
pub(crate) fn read_order(
    alloc: Global,
    digits: &HexDigits,
    line: &[u8],
) -> Result<Order, AllocError>
    ensures { IfOk result (λ o. order_shown o ≡ order_of (bared line.now)) }
{
    let line = bare(line);
    match line.first() {
        None | Some(b'#') => Ok(Order::Skip),
        Some(_) => read_word(alloc, digits, prefix(line, b' '), after(line, b' ')),
    }
}

/// What a line asks for by its first word.
fn read_word(
    alloc: Global,
    digits: &HexDigits,
    word: &[u8],
    rest: &[u8],
) -> Result<Order, AllocError>
    ensures { IfOk result (λ o. order_shown o ≡ order_of_word word.now rest.now) }
{
    match word {
        b"open" => Ok(match connection(rest) {
            Some(conn) => Order::Open(conn as usize),
            None => Order::Bad,
        }),
        b"cut" => Ok(match connection(rest) {
            Some(conn) => Order::Cut(conn as usize),
            None => Order::Bad,
        }),
        b"say" => say(alloc, rest),
        b"came" => came(alloc, digits, rest),
        _ => Ok(Order::Bad),
    }
}
