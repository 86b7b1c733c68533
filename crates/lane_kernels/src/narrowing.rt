//! Units below 80 as bytes.

ghost use Rattle.std.specs.Prelude.{◌≡◌, ◌+◌, ◌≤◌, ◌++◌, length, take, drop, min};
ghost use Rattle.std.specs.Simd.Lanes.{chunk, put_chunk};
ghost use Rattle.std.specs.List.{prefix_len};
ghost use Rattle.std.specs.Char.{is_ascii};

use crate::lanes::{LANES, first_set};
use std::simd::prelude::*;

/// How many of the units are below 80 before the first other one.
#[inline(always)]
fn ascii_lanes(lanes: u16x32) -> usize
    ensures { result ≡ prefix_len is_ascii lanes }
{
    first_set(lanes.simd_ge(u16x32::splat(0x80)).to_bitmask(), LANES)
}

/// How many of the 32 units from `at` on are below 80 before the first other one.
#[inline(always)]
fn narrow_run(units: &[u16], at: usize) -> usize
    requires { at + LANES ≤ length units.now }
    ensures { result ≡ prefix_len is_ascii (chunk at LANES units.now) }
{
    ascii_lanes(u16x32::from_slice(&units[at..]))
}

/// Writes the 32 units from `at` on, all below 80, as bytes at the same place.
#[inline(always)]
fn write_lanes(units: &[u16], out: &mut [u8], at: usize)
    requires units { at + LANES ≤ length units.now }
    requires room { at + LANES ≤ length out.old }
    requires below { prefix_len is_ascii (chunk at LANES units.now) ≡ LANES }
    ensures { out.new ≡ put_chunk at out.old (chunk at LANES units.now) }
{
    let lanes = u16x32::from_slice(&units[at..]);
    lanes.cast::<u8>().copy_to_slice(&mut out[at..]);
}

/// Writes units below 80 from `at` on, one by one, up to the first other one or the end of the output. Returns where it
/// ended.
///
/// Never inlined: a caller that has the units in lanes would otherwise take each of them out first, even if all go by
/// lanes.
#[inline(never)]
fn narrow_by_units(units: &[u16], out: &mut [u8], at: usize) -> usize
    requires prefix { at ≤ prefix_len is_ascii units.now }
    requires room { at ≤ length out.old }
    requires written { take at out.old ≡ take at units.now }
    ensures length { result ≡ min (prefix_len is_ascii units.now) (length out.old) }
    ensures written { out.new ≡ take result units.now ++ drop result out.old }
{
    let mut end = at;
    while end < units.len() && end < out.len() && units[end] < 0x80 {
        out[end] = units[end] as u8;
        end += 1;
    }
    end
}

/// Writes leading units below 80 as bytes, as many as fit, and returns their count. The rest of the output is
/// unchanged.
#[inline(always)]
pub fn narrow(units: &[u16], out: &mut [u8]) -> usize
    ensures length { result ≡ min (prefix_len is_ascii units.now) (length out.old) }
    ensures written { out.new ≡ take result units.now ++ drop result out.old }
{
    let mut at = 0;
    'by_lanes: while units.len() - at >= LANES
        && out.len() - at >= LANES
        && narrow_run(units, at) == LANES
    {
        write_lanes(units, out, at);
        at += LANES;
    }
    if at == units.len() {
        return at;
    }
    narrow_by_units(units, out, at)
}
