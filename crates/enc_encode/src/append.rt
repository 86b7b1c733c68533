//! Appending bytes and character references to a vector.

ghost use Rattle.std.specs.Prelude.{◌≡◌, ◌≤◌, ◌+◌, ◌++◌, OnErr, decimal, length, take, vec_capacity, vec_len};
ghost use Rattle.enc_model.specs.Encode.{reference};
ghost use Rattle.enc_encode.specs.Growth.{Grew};

use std::alloc::AllocError;

/// Appends bytes that there is room for.
pub fn fill(bytes: &[u8], out: &mut Vec<u8>)
    requires { vec_len out.old + length bytes.now ≤ vec_capacity out.old }
    ensures items { out.new.items ≡ out.old.items ++ bytes.now }
    ensures capacity { vec_capacity out.old ≤ vec_capacity out.new }
{
    let _ = out.extend_from_slice(bytes);
}

/// Appends bytes after a request for exactly as much memory as they lack, or none of them if that is refused. Gives how
/// many were appended.
#[cold]
fn append_exactly(bytes: &[u8], out: &mut Vec<u8>) -> usize
    ensures few { result ≤ length bytes.now }
    ensures items { out.new.items ≡ out.old.items ++ take result bytes.now }
    ensures capacity { vec_capacity out.old ≤ vec_capacity out.new }
    ensures room { vec_len out.old + length bytes.now ≤ vec_capacity out.old → result ≡ length bytes.now }
{
    match out.reserve_exact(bytes.len()) {
        Ok(()) => {
            fill(bytes, out);
            bytes.len()
        }
        Err(_) => 0,
    }
}

/// Appends bytes in parts: first as many as there is room for, and then as many as memory is granted for. It requests
/// exactly all the rest, then half of it and so on, down to one byte.
#[cold]
fn append_in_parts(bytes: &[u8], out: &mut Vec<u8>) -> Result<(), AllocError>
    ensures grew { Grew out.old bytes.now out.new result }
    ensures full { OnErr result (vec_capacity out.old ≤ length out.new.items) }
{
    let mut done = (out.capacity() - out.len()).min(bytes.len());
    fill(&bytes[..done], out);
    let mut size = bytes.len() - done;
    while size > 0 {
        let end = done + size.min(bytes.len() - done);
        done += append_exactly(&bytes[done..end], out);
        size = if size > 1 { size - size / 2 } else { 0 };
    }
    if done < bytes.len() {
        return Err(AllocError);
    }
    Ok(())
}

/// Appends bytes, or if memory ends, as many of them as there is memory for. A vector asks for more than it needs, so
/// that it grows seldom: where only that is refused, all are appended.
#[tactic(auto, using(crate::proofs::Growth::again))]
pub fn append(bytes: &[u8], out: &mut Vec<u8>) -> Result<(), AllocError>
    ensures grew { Grew out.old bytes.now out.new result }
    ensures full { OnErr result (vec_capacity out.old ≤ length out.new.items) }
{
    match out.extend_from_slice(bytes) {
        Ok(()) => Ok(()),
        Err(_) => append_in_parts(bytes, out),
    }
}

/// Appends a number in decimal.
fn append_decimal(number: u32, out: &mut Vec<u8>) -> Result<(), AllocError>
    ensures { Grew out.old (decimal number) out.new result }
{
    if number < 10 {
        return append(&[b'0' + number as u8], out);
    }
    append_decimal(number / 10, out)?;
    append(&[b'0' + (number % 10) as u8], out)
}

/// Appends a character's reference: `&#`, its code point in decimal, `;`.
pub fn append_reference(c: char, out: &mut Vec<u8>) -> Result<(), AllocError>
    ensures { Grew out.old (reference c) out.new result }
{
    append(b"&#", out)?;
    append_decimal(c as u32, out)?;
    append(b";", out)
}
