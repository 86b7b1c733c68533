//! The reference of a character.

ghost use Rattle.std.specs.Prelude.{◌≡◌, ◌<◌, ◌≤◌, ◌+◌, ◌++◌, ◌∷◌, [], decimal, length, replicate, take, drop};
ghost use Rattle.std.specs.Prelude.{slice_index};
ghost use Rattle.enc_model.specs.Encode.{reference};

use crate::buffer::{LANES, ROOM};
use std::simd::prelude::*;

/// The room that a reference is given: more bytes than the longest has. `put_any` stores so many at once.
pub const REFERENCE_ROOM: usize = 16;

/// A code point's digits and `;`, from a place up to the sixteenth byte. The bytes after are `;` too.
#[inline(always)]
fn digits_at(number: u32) -> ([u8; LANES], usize)
    requires { number < 10000000 }
    ensures place { (8 ≤ result.1) × (result.1 < REFERENCE_ROOM) }
    ensures long { length result.0 ≡ LANES }
    ensures digits { drop result.1 result.0 ≡ decimal number ++ replicate 17 0x3B }
{
    let mut bytes = [b';'; LANES];
    let mut place = REFERENCE_ROOM - 1;
    let mut left = number;
    while left >= 10 {
        place -= 1;
        bytes[place] = b'0' + (left % 10) as u8;
        left /= 10;
    }
    place -= 1;
    bytes[place] = b'0' + left as u8;
    (bytes, place)
}

/// A character's reference, from a place up to the sixteenth byte. The bytes after are `;`.
#[inline(always)]
fn reference_at(c: char) -> ([u8; LANES], usize)
    ensures place { result.1 < REFERENCE_ROOM }
    ensures long { length result.0 ≡ LANES }
    ensures bytes { drop result.1 result.0 ≡ reference c ++ replicate 16 0x3B }
{
    let (mut bytes, place) = digits_at(c as u32);
    bytes[place - 1] = b'#';
    bytes[place - 2] = b'&';
    (bytes, place - 2)
}

/// Puts a reference of any length after the first so many bytes, and gives how many there are then. It is made from its
/// end and then stored whole.
fn put_any(held: &mut [u8; ROOM], from: usize, c: char) -> usize
    requires { from + REFERENCE_ROOM ≤ ROOM }
    ensures room { result ≤ ROOM }
    ensures put { take result held.new ≡ take from held.old ++ reference c }
{
    let (bytes, place) = reference_at(c);
    u8x16::from_slice(&bytes[place..]).copy_to_slice(&mut held[from..]);
    from + (REFERENCE_ROOM - place)
}

/// Puts some bytes after the first so many, and gives how many there are then.
#[inline(always)]
fn put_bytes<const N: usize>(held: &mut [u8; ROOM], from: usize, bytes: [u8; N]) -> usize
    requires { from + N ≤ ROOM }
    ensures room { result ≤ ROOM }
    ensures put { take result held.new ≡ take from held.old ++ bytes.entry }
{
    let end = from + N;
    held[from..end].copy_from_slice(&bytes);
    end
}

/// The last five digits of a number, the last one at the end.
#[inline(always)]
#[tactic(auto, using(crate::proofs::Digits::three, crate::proofs::Digits::four, crate::proofs::Digits::five))]
fn last_digits(number: u32) -> [u8; 5]
    ensures three { 100 ≤ number → number < 1000
        → slice_index result 2 ∷ slice_index result 3 ∷ slice_index result 4 ∷ [] ≡ decimal number }
    ensures four { 1000 ≤ number → number < 10000
        → slice_index result 1 ∷ slice_index result 2 ∷ slice_index result 3 ∷ slice_index result 4 ∷ [] ≡ decimal
        number }
    ensures five { 10000 ≤ number → number < 100000 → slice_index result 0 ∷ slice_index result 1
        ∷ slice_index result 2 ∷ slice_index result 3 ∷ slice_index result 4 ∷ [] ≡ decimal number }
{
    [
        b'0' + (number / 10000 % 10) as u8,
        b'0' + (number / 1000 % 10) as u8,
        b'0' + (number / 100 % 10) as u8,
        b'0' + (number / 10 % 10) as u8,
        b'0' + (number % 10) as u8,
    ]
}

/// Puts a character's reference after the first so many bytes, and gives how many there are then. One of three to five
/// digits, as those of nearly all letters are, is stored from registers: no byte of it is read back.
#[inline(always)]
pub fn put_reference(held: &mut [u8; ROOM], from: usize, c: char) -> usize
    requires { from + REFERENCE_ROOM ≤ ROOM }
    ensures room { result ≤ ROOM }
    ensures put { take result held.new ≡ take from held.old ++ reference c }
{
    let [first, second, third, fourth, fifth] = last_digits(c as u32);
    match c as u32 {
        100..=999 => put_bytes(held, from, [b'&', b'#', third, fourth, fifth, b';']),
        1000..=9999 => put_bytes(held, from, [b'&', b'#', second, third, fourth, fifth, b';']),
        10000..=99999 => put_bytes(
            held,
            from,
            [b'&', b'#', first, second, third, fourth, fifth, b';'],
        ),
        _ => put_any(held, from, c),
    }
}
