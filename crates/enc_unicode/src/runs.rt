//! Runs of UTF-16 without surrogates, 32 units at a time.

ghost use Rattle.std.specs.Prelude.{◌≡◌, ◌+◌, ◌*◌, ◌/◌, ◌%◌, ◌<◌, ◌≤◌, IfSome, IfNone, All, false, not};
ghost use Rattle.std.specs.Prelude.{length, map, take};
ghost use Rattle.std.specs.Bool.{OnTrue};
ghost use Rattle.std.specs.List.{prefix_len};
ghost use Rattle.std.specs.Simd.Lanes.{mask_l};
ghost use Rattle.std.specs.Str.{chars, IsUtf8};
ghost use Rattle.enc_model.specs.Index.{within};
ghost use Rattle.enc_model.specs.Stream.{steps};
ghost use Rattle.enc_model.specs.Utf16.{utf16, utf16_start};
ghost use Rattle.lane_kernels.specs.Orders.{is_big};
ghost use Rattle.lane_kernels.specs.Units.{units_of};
ghost use Rattle.enc_unicode.specs.WroteUnits.{WroteUnits};

use crate::narrow::write_narrow;
use crate::packing::{BLOCK_CODE, write_units};
use lane_kernels::{Order, low_first, mask_within, turned_round};
use std::simd::prelude::*;

/// How many bytes are decoded at once.
const LANES: usize = 64;

/// How many bytes of UTF-8 are gathered before the sink takes them.
pub const CODE: usize = 2048;

/// The units of 64 bytes.
#[inline(always)]
fn units_in(order: Order, bytes: &[u8; LANES]) -> u16x32
    ensures { result ≡ units_of (is_big order) bytes.now }
{
    let units = low_first(u8x64::from_array(*bytes));
    match order {
        Order::Big => turned_round(units),
        Order::Little => units,
    }
}

/// Whether no unit is from the lowest to the highest.
#[inline(always)]
fn has_none(units: u16x32, lowest: u16, highest: u16) -> bool
    ensures { OnTrue result (prefix_len (λ unit. not (within lowest highest unit)) units ≡ 32) }
{
    mask_within(units, lowest, highest) == 0
}

/// Whether all units are below 80.
#[inline(always)]
#[tactic(auto, using(crate::proofs::Spans::all_low, std::proofs::lemmas::Simd::below_from_Fits))]
fn is_ascii(units: u16x32) -> bool
    ensures { OnTrue result (All (λ unit. unit < 128) units) }
{
    has_none(units, 0x80, 0xFFFF)
}

/// Whether all units are below 800.
#[inline(always)]
#[tactic(auto, using(crate::proofs::Spans::all_low, std::proofs::lemmas::Simd::below_from_Fits))]
fn is_narrow(units: u16x32) -> bool
    ensures { OnTrue result (All (λ unit. unit < 2048) units) }
{
    has_none(units, 0x800, 0xFFFF)
}

/// Writes units below 80 at `from`, after a text.
#[inline(always)]
fn write_ascii(units: u16x32, code: &mut [u8], from: usize)
    requires room { from + 32 ≤ length code.old }
    requires utf8 { IsUtf8 (take from code.old) }
    requires below { All (λ unit. unit < 128) units }
    ensures { WroteUnits units (take from code.old) (take (from + 32) code.new) }
{
    units.cast::<u8>().copy_to_slice(&mut code[from..]);
}

/// Encodes the units of 64 bytes at `from`, after a text, and returns the length after them; None if one is a
/// surrogate.
#[inline(always)]
fn write_block(
    order: Order,
    bytes: &[u8; LANES],
    code: &mut [u8; CODE],
    from: usize,
) -> Option<usize>
    requires room { from + BLOCK_CODE ≤ CODE }
    requires utf8 { IsUtf8 (take from code.old) }
    ensures unchanged { IfNone result (code.new ≡ code.old) }
    ensures wrote { IfSome result (λ n. (n ≤ from + BLOCK_CODE) × WroteUnits (units_of (is_big order) bytes.now)
        (take from code.old) (take n code.new)) }
{
    let units = units_in(order, bytes);
    if is_ascii(units) {
        write_ascii(units, code, from);
        return Some(from + 32);
    }
    if is_narrow(units) {
        return Some(write_narrow(units, code, from));
    }
    if has_none(units, 0xD800, 0xDFFF) {
        return Some(write_units(units, code, from));
    }
    None
}

/// The same for the first 64 bytes, if there are as many.
#[inline(always)]
fn write_next(order: Order, rest: &[u8], code: &mut [u8; CODE], from: usize) -> Option<usize>
    requires room { from + BLOCK_CODE ≤ CODE }
    requires utf8 { IsUtf8 (take from code.old) }
    ensures unchanged { IfNone result (code.new ≡ code.old) }
    ensures wrote { IfSome result (λ n. (LANES ≤ length rest.now) × (n ≤ from + BLOCK_CODE) × WroteUnits
        (units_of (is_big order) (take LANES rest.now)) (take from code.old) (take n code.new)) }
{
    match rest.first_chunk::<LANES>() {
        Some(bytes) => write_block(order, bytes, code, from),
        None => None,
    }
}

/// Decodes leading blocks without surrogates as long as there is room. Returns how many bytes were read and written.
pub fn write_text(order: Order, bytes: &[u8], code: &mut [u8; CODE]) -> (usize, usize)
    ensures read { result.0 ≤ length bytes.now }
    ensures few { result.1 ≤ CODE }
    ensures utf8 { IsUtf8 (take result.1 code.new) }
    ensures run { steps (utf16 (is_big order)) false utf16_start (take result.0 bytes.now)
        ≡ record { text = chars (take result.1 code.new); state = utf16_start } }
{
    let mut read = 0;
    let mut len = 0;
    'by_blocks: while len + BLOCK_CODE <= CODE {
        match write_next(order, &bytes[read..], code, len) {
            Some(end) => {
                len = end;
                read += LANES;
            }
            None => break,
        }
    }
    (read, len)
}
