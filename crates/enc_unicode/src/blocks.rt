//! Decoding UTF-16 in blocks: 32 units at a time if their surrogates are paired.

ghost use Rattle.std.specs.Prelude.{◌≡◌, ◌<◌, ◌≤◌, ◌+◌, ◌*◌, false, length, take};
ghost use Rattle.std.specs.Bool.{OnTrue, OnFalse};
ghost use Rattle.enc_feed.specs.Batches.{BatchTook};
ghost use Rattle.enc_model.specs.Stream.{steps};
ghost use Rattle.enc_model.specs.Utf16.{utf16};
ghost use Rattle.lane_kernels.specs.Orders.{is_big};
ghost use Rattle.lane_kernels.specs.Steps.{scalar_text, scalars_of, step_text, unit_scalar};
ghost use Rattle.lane_kernels.specs.Units.{IsCarried};

use enc_feed::{Batch, ROOM};
use lane_kernels::{Order, Pairing, Step, lead_in, paired, paired_units_decode};

/// How many bytes are decoded at once.
const LANES: usize = 64;

/// Appends the text of a step.
fn push_step(step: Step, batch: &mut Batch)
    requires { length batch.old + 8 ≤ ROOM }
    ensures { BatchTook batch.old (step_text step) batch.new }
{
    if step.fault {
        batch.push('\u{FFFD}');
    }
    if let Some(c) = step.scalar {
        batch.push(c);
    }
}

/// Appends the character that a unit completes, given the lead surrogate before it, if any.
#[inline(always)]
fn push_unit(carried: Option<u16>, unit: u16, batch: &mut Batch)
    requires carried { IsCarried carried }
    requires room { length batch.old + 4 ≤ ROOM }
    ensures { BatchTook batch.old (scalar_text (unit_scalar carried unit)) batch.new }
{
    if let Some(c) = char::from_u32(unit as u32) {
        batch.push(c);
    } else if let (Some(lead), 0xDC00..=0xDFFF) = (carried, unit) {
        batch.push(paired(lead, unit));
    }
}

/// Appends the characters of units, given the lead surrogate before them, if any.
///
/// Never inlined: its caller would otherwise take each unit out of the lanes even if it doesn't call this.
#[inline(never)]
fn push_units(carried: Option<u16>, units: &[u16; 32], batch: &mut Batch)
    requires carried { IsCarried carried }
    requires room { length batch.old + 128 ≤ ROOM }
    ensures { BatchTook batch.old (scalars_of carried units.now) batch.new }
{
    let mut lead = carried;
    for unit in units {
        push_unit(lead, *unit, batch);
        lead = lead_in(*unit);
    }
}

/// Decodes bytes one by one.
fn decode_each(pairing: &mut Pairing, order: Order, bytes: &[u8], batch: &mut Batch)
    requires { length batch.old + 12 * length bytes.now ≤ ROOM }
    ensures text { BatchTook batch.old (steps (utf16 (is_big order)) false pairing.old bytes.now).text batch.new }
    ensures state { pairing.new ≡ (steps (utf16 (is_big order)) false pairing.old bytes.now).state }
{
    for byte in bytes {
        push_step(pairing.tail(order, *byte), batch);
    }
}

/// Decodes 64 bytes if their units are paired. Returns whether they are.
fn decode_paired(pairing: &mut Pairing, order: Order, bytes: &[u8; 64], batch: &mut Batch) -> bool
    requires { length batch.old + 128 ≤ ROOM }
    ensures text { OnTrue result
        (BatchTook batch.old (steps (utf16 (is_big order)) false pairing.old bytes.now).text batch.new) }
    ensures state { OnTrue result (pairing.new ≡ (steps (utf16 (is_big order)) false pairing.old bytes.now).state) }
    ensures unchanged { OnFalse result ((pairing.new ≡ pairing.old) × (batch.new ≡ batch.old)) }
{
    paired_units_decode();
    let carried = pairing.lead();
    let mut units = [0; 32];
    let is_paired = pairing.block(order, bytes, &mut units);
    if is_paired {
        push_units(carried, &units, batch);
    }
    is_paired
}

/// Decodes the next part of a block: 64 bytes, or all if there are fewer. Returns its length.
fn decode_some(pairing: &mut Pairing, order: Order, rest: &[u8], batch: &mut Batch) -> usize
    requires some { 0 < length rest.now }
    requires room { length batch.old + 12 * length rest.now ≤ ROOM }
    ensures some { (0 < result) × (result ≤ length rest.now) }
    ensures text { BatchTook batch.old (steps (utf16 (is_big order)) false pairing.old (take result rest.now)).text
        batch.new }
    ensures state { pairing.new ≡ (steps (utf16 (is_big order)) false pairing.old (take result rest.now)).state }
{
    if let Some(bytes) = rest.first_chunk::<LANES>() {
        if decode_paired(pairing, order, bytes, batch) {
            return LANES;
        }
    }
    let count = LANES.min(rest.len());
    decode_each(pairing, order, &rest[..count], batch);
    count
}

/// Decodes a block, for which the batch has room.
pub fn decode_block(pairing: &mut Pairing, order: Order, block: &[u8], batch: &mut Batch)
    requires { length batch.old + 12 * length block.now ≤ ROOM }
    ensures text { BatchTook batch.old (steps (utf16 (is_big order)) false pairing.old block.now).text batch.new }
    ensures state { pairing.new ≡ (steps (utf16 (is_big order)) false pairing.old block.now).state }
{
    let mut at = 0;
    while at < block.len() {
        at += decode_some(pairing, order, &block[at..], batch);
    }
}
