//! 32 units at a time.

ghost use Rattle.std.specs.Prelude.{◌≡◌, ◌↔◌, ◌+◌, ◌-◌, ◌*◌, ◌/◌, ◌%◌, true, false, ◌∷◌, take, map, IsTrue};
ghost use Rattle.std.specs.List.{prefix_len};
ghost use Rattle.std.specs.Simd.Lanes.{mask_l};
ghost use Rattle.enc_model.specs.Index.{within};
ghost use Rattle.enc_model.specs.Utf16.{unit_of};
ghost use Rattle.lane_kernels.specs.Units.{ArePaired, IsCarried, is_lead, is_scalar_unit, is_trail, lead_of, left_over};
ghost use Rattle.lane_kernels.specs.Units.{units_of, with_carried};
ghost use Rattle.lane_kernels.specs.Orders.{is_big};

use crate::lanes::{LANES, first_set};
use crate::order::Order;
use std::simd::prelude::*;

/// The unit of two bytes.
#[inline(always)]
pub fn unit_in(order: Order, first: u8, second: u8) -> u16
    ensures { result ≡ unit_of (is_big order) first second }
{
    match order {
        Order::Big => first as u16 * 256 + second as u16,
        Order::Little => second as u16 * 256 + first as u16,
    }
}

/// The character of a surrogate pair.
#[inline(always)]
pub fn paired(lead: u16, trail: u16) -> char
    requires lead { is_lead lead ≡ true }
    requires trail { is_trail trail ≡ true }
    ensures { result ≡ 0x10000 + (lead - 0xD800) * 0x400 + (trail - 0xDC00) }
{
    match char::from_u32(0x10000 + (lead as u32 - 0xD800) * 0x400 + (trail as u32 - 0xDC00)) {
        Some(c) => c,
        None => unreachable!(),
    }
}

/// The first 64 bytes of this byte and those after it. It is rarely called, and not inlined so that its moves aren't
/// mixed with plain loads.
#[inline(never)]
fn joined(first: u8, bytes: &[u8; 64]) -> [u8; 64]
    ensures { result ≡ take 64 (first ∷ bytes.now) }
{
    let mut joined = [first; 64];
    joined[1..].copy_from_slice(&bytes[..63]);
    joined
}

/// The byte that is left over after the units.
#[tactic(auto, using(crate::proofs::Made::left_of_none, crate::proofs::Made::left_of_one))]
pub(crate) fn left_after(odd: Option<u8>, bytes: &[u8; 64]) -> Option<u8>
    ensures { result ≡ left_over (with_carried odd bytes.now) }
{
    match odd {
        None => None,
        Some(_) => Some(bytes[63]),
    }
}

/// The unit, if it is a lead surrogate.
#[inline(always)]
pub fn lead_in(unit: u16) -> Option<u16>
    ensures value { result ≡ lead_of unit }
    ensures carried { IsCarried result }
{
    match unit {
        0xD800..=0xDBFF => Some(unit),
        _ => None,
    }
}

/// The units of 64 bytes in little-endian order.
#[inline(always)]
pub fn low_first(bytes: u8x64) -> u16x32
    ensures { result ≡ units_of false bytes }
{
    u16x32::from_le_bytes(bytes)
}

/// The units with their bytes swapped.
#[inline(always)]
pub fn turned_round(units: u16x32) -> u16x32
    ensures { result ≡ map (λ unit. unit % 256 * 256 + unit / 256) units }
{
    (units << 8) + (units >> 8)
}

/// The units of 64 bytes.
#[inline(always)]
fn units_in(order: Order, bytes: u8x64) -> u16x32
    ensures { result ≡ units_of (is_big order) bytes }
{
    let units = low_first(bytes);
    match order {
        Order::Big => turned_round(units),
        Order::Little => units,
    }
}

/// The units of the first 64 bytes, with the carried byte before them.
#[inline(always)]
pub(crate) fn units_after(order: Order, odd: Option<u8>, bytes: &[u8; 64]) -> u16x32
    ensures { result ≡ units_of (is_big order) (take 64 (with_carried odd bytes.now)) }
{
    match odd {
        None => units_in(order, u8x64::from_array(*bytes)),
        Some(first) => units_in(order, u8x64::from_array(joined(first, bytes))),
    }
}

/// A bit for each unit from the lowest to the highest.
#[inline(always)]
pub fn mask_within(units: u16x32, lowest: u16, highest: u16) -> u64
    ensures { result ≡ mask_l (map (within lowest highest) units) }
{
    (units.simd_ge(u16x32::splat(lowest)) & units.simd_le(u16x32::splat(highest))).to_bitmask()
}

/// How many units precede the first surrogate.
#[inline(always)]
#[tactic(auto, using(std::proofs::lemmas::Simd::first_set_mask_l))]
pub fn scalar_prefix(units: &[u16; 32]) -> usize
    ensures { result ≡ prefix_len is_scalar_unit units.now }
{
    first_set(
        mask_within(u16x32::from_array(*units), 0xD800, 0xDFFF),
        LANES,
    )
}

/// Whether the units are paired, given a carried lead or none: the trails are exactly the places after leads.
#[inline(never)]
fn surrogates_are_paired(carried: Option<u16>, units: u16x32) -> bool
    ensures { IsTrue result ↔ ArePaired carried units }
{
    let leads = mask_within(units, 0xD800, 0xDBFF);
    let trails = mask_within(units, 0xDC00, 0xDFFF);
    let after_leads = (leads << 1) | carried.is_some() as u64;
    trails == after_leads % (1 << 32)
}

/// The same. Units without surrogates are recognized at once.
#[inline(always)]
#[tactic(auto, using(crate::proofs::Pairs::scalars_paired))]
pub(crate) fn are_paired(carried: Option<u16>, units: u16x32) -> bool
    ensures { IsTrue result ↔ ArePaired carried units }
{
    if carried.is_none() {
        if mask_within(units, 0xD800, 0xDFFF) == 0 {
            return true;
        }
    }
    surrogates_are_paired(carried, units)
}
