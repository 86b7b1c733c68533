//! The kernels compared with loops that take a byte or a unit at a time.

ghost use Rattle.std.specs.Prelude.{◌≤◌};

use lane_kernels::{
    Order, Pairing, Step, ascii_front, narrow, plain_front_2022, range_front, scalar_prefix,
};
use std::process::Abort;

/// The length of the longest prefix of bytes below 80 (hexadecimal) without those of `without`, a byte at a time.
fn slow_prefix(bytes: &[u8], without: &[u8]) -> usize {
    for i in 0..bytes.len() {
        let byte = bytes[i];
        if byte >= 0x80 || without.contains(&byte) {
            return i;
        }
    }
    bytes.len()
}

/// The length of the longest prefix of bytes from `lo` to `hi`, a byte at a time.
fn slow_range(bytes: &[u8], lo: u8, hi: u8) -> usize {
    for i in 0..bytes.len() {
        if bytes[i] < lo || hi < bytes[i] {
            return i;
        }
    }
    bytes.len()
}

const PLACES: [usize; 14] = [0, 1, 30, 31, 32, 33, 63, 64, 100, 127, 128, 198, 199, 200];

/// 200 bytes of one value, with another value at `place` if it is in range.
fn filled(fill: u8, place: usize, stop: u8) -> [u8; 200] {
    let mut bytes = [fill; 200];
    if place < 200 {
        bytes[place] = stop;
    }
    bytes
}

#[test]
fn prefixes(rt: HostRuntime) {
    for place in PLACES {
        for stop in [0x00, 0x0E, 0x0F, 0x1B, 0x7F, 0x80, 0xA0, 0xA1, 0xFE, 0xFF] {
            let bytes = filled(0x61, place, stop);
            for length in 0..201 {
                let prefix = &bytes[..length];
                assert_eq!(rt;
                    ascii_front(prefix),
                    slow_prefix(prefix, &[]),
                    "of {length}"
                );
                assert_eq!(rt;
                    plain_front_2022(prefix),
                    slow_prefix(prefix, &[0x0E, 0x0F, 0x1B]),
                    "of {length}"
                );
            }
        }
    }
}

#[test]
fn ranges(rt: HostRuntime) {
    // Each row: a range, a byte within it, and one outside it. The range of all bytes has none outside, and the last
    // range is empty.
    for (lo, hi, fill, stop) in [
        (0xA1, 0xFE, 0xA1, 0xA0),
        (0xA1, 0xFE, 0xFE, 0xFF),
        (0xA1, 0xFE, 0xC1, 0x7F),
        (0x00, 0x7F, 0x00, 0x80),
        (0x00, 0xFF, 0xFF, 0x00),
        (0x80, 0x80, 0x80, 0x7F),
        (0xFF, 0x00, 0xFF, 0x00),
    ] {
        for place in PLACES {
            let bytes = filled(fill, place, stop);
            for length in 0..201 {
                let prefix = &bytes[..length];
                assert!(rt;
                    range_front(prefix, lo, hi) == slow_range(prefix, lo, hi),
                    "{lo:X} to {hi:X}, {stop:X} at {place} of {length}"
                );
            }
        }
    }
}

/// Writes the units below 80 (hexadecimal) at the start as bytes, one at a time, and returns how many.
fn slow_narrow(units: &[u16], out: &mut [u8]) -> usize {
    for i in 0..units.len() {
        if i >= out.len() || units[i] >= 0x80 {
            return i;
        }
        out[i] = units[i] as u8;
    }
    units.len()
}

fn narrows(rt: &impl Abort, units: &[u16], room: usize)
    requires { room ≤ 200 }
{
    let mut out = [0xEE; 200];
    let mut slow = [0xEE; 200];
    assert_eq!(rt;
        narrow(units, &mut out[..room]),
        slow_narrow(units, &mut slow[..room])
    );
    assert!(rt; out == slow, "{room} bytes of room");
}

#[test]
fn narrowing(rt: HostRuntime) {
    for place in [0, 1, 31, 32, 33, 64, 100, 199] {
        for stop in [0x00, 0x7F, 0x80, 0x141, 0xFF61] {
            let mut units = [0x61; 200];
            units[place] = stop;
            for length in 0..201 {
                narrows(&rt, &units[..length], 200);
                narrows(&rt, &units[..length], length / 2);
                narrows(&rt, &units[..length], length);
            }
        }
    }
}

/// The byte that is left over at the end of a block after a carried one.
const LEFT: u8 = 0x7F;

/// The bytes of 32 units. If one is carried, the first byte comes apart, and the block ends with `LEFT`.
fn bytes_of_units(order: Order, units: &[u16; 32], is_carried: bool) -> (Option<u8>, [u8; 64]) {
    let mut bytes = [LEFT; 65];
    for i in 0..32 {
        let [high, low] = units[i].to_be_bytes();
        let pair = match order {
            Order::Big => (high, low),
            Order::Little => (low, high),
        };
        bytes[2 * i] = pair.0;
        bytes[2 * i + 1] = pair.1;
    }
    let mut block = [0; 64];
    if is_carried {
        for i in 0..64 {
            block[i] = bytes[i + 1];
        }
        (Some(bytes[0]), block)
    } else {
        for i in 0..64 {
            block[i] = bytes[i];
        }
        (None, block)
    }
}

/// Checks a block of these units in both orders, with and without a carried byte, after a carried lead D83D if
/// `carries` is true. If `paired` is given, the block is accepted, and this is the lead that is carried afterwards.
/// Otherwise it is refused, and what is carried doesn't change.
fn is_paired(rt: &impl Abort, units: &[u16; 32], carries: bool, paired: Option<Option<u16>>) {
    for (order, is_carried) in [
        (Order::Big, false),
        (Order::Big, true),
        (Order::Little, false),
        (Order::Little, true),
    ] {
        let (odd, bytes) = bytes_of_units(order, units, is_carried);
        let mut out = [0u16; 32];
        let mut pairing = if carries {
            Pairing::carrying(odd, Some(0xD83D))
        } else {
            Pairing::carrying(odd, None)
        };
        let lead = pairing.lead();
        let answer = pairing.block(order, &bytes, &mut out);
        assert!(rt; out == *units && answer == paired.is_some());
        assert_eq!(rt; pairing.lead(), paired.unwrap_or(lead));
        let left = if is_carried { Some(LEFT) } else { None };
        assert_eq!(rt; pairing.odd(), if answer { left } else { odd });
    }
}

/// A lead at each place, a trail, and both, after a carried lead and after none. A block is accepted only if each lead
/// is followed by a trail, and each trail follows a lead; the first trail may follow the carried lead, and the last
/// lead is carried.
#[test]
fn surrogates_at_each_place_of_a_block(rt: HostRuntime) {
    for place in 0..32usize {
        let mut units = [0x41; 32];
        units[place] = 0xD83D;
        let last = if place == 31 {
            Some(Some(0xD83D))
        } else {
            None
        };
        is_paired(&rt, &units, false, last);
        is_paired(&rt, &units, true, None);
        if place < 31 {
            units[place + 1] = 0xDE00;
            is_paired(&rt, &units, false, Some(None));
            is_paired(&rt, &units, true, None);
        }
        units = [0x41; 32];
        units[place] = 0xDE00;
        let first = if place == 0 { Some(None) } else { None };
        is_paired(&rt, &units, false, None);
        is_paired(&rt, &units, true, first);
    }
}

#[test]
fn byte_carried_through_a_block(rt: HostRuntime) {
    // 3D D8 00 DE, then 41 00 from unit to unit, and 3D D8 at the end
    let mut bytes = [0u8; 64];
    for i in 1..32 {
        bytes[2 * i + 1] = 0x41;
    }
    bytes[0] = 0xD8;
    bytes[2] = 0xDE;
    bytes[3] = 0x41;
    bytes[61] = 0x3D;
    bytes[62] = 0xD8;
    bytes[63] = 0x7F;
    let mut units = [0u16; 32];
    let mut pairing = Pairing::carrying(Some(0x3D), None);
    assert!(rt; pairing.block(Order::Little, &bytes, &mut units));
    assert!(rt;
        units[0] == 0xD83D && units[1] == 0xDE00 && units[2] == 0x41 && units[31] == 0xD83D
    );
    assert_eq!(rt; pairing.odd(), Some(0x7F));
    assert_eq!(rt; pairing.lead(), Some(0xD83D));
}

fn steps_to(rt: &impl Abort, pairing: &mut Pairing, order: Order, bytes: &[u8], last: Step) {
    let mut step = Step {
        fault: false,
        scalar: None,
    };
    for byte in bytes {
        step = pairing.tail(order, *byte);
    }
    assert!(rt; step == last);
}

#[test]
fn tails(rt: HostRuntime) {
    let grin = Step {
        fault: false,
        scalar: Some('\u{1F600}'),
    };
    let torn = Step {
        fault: true,
        scalar: Some('A'),
    };
    let stray = Step {
        fault: true,
        scalar: None,
    };
    let runs: [(Order, &[u8], Step); 5] = [
        (Order::Little, &[0x3D, 0xD8, 0x00, 0xDE], grin),
        (Order::Big, &[0xD8, 0x3D, 0xDE, 0x00], grin),
        (Order::Little, &[0x3D, 0xD8, 0x41, 0x00], torn),
        (Order::Big, &[0xDE, 0x00], stray),
        (Order::Big, &[0xD8, 0x00, 0xD8, 0x3D], stray),
    ];
    let mut pairing = Pairing::new();
    for (order, bytes, last) in runs {
        steps_to(&rt, &mut pairing, order, bytes, last);
    }
    assert_eq!(rt; pairing.lead(), Some(0xD83D));
}

#[test]
fn prefixes_of_scalars(rt: HostRuntime) {
    for place in 0..32 {
        for (unit, prefix) in [
            (0xD7FF, 32),
            (0xD800, place),
            (0xDBFF, place),
            (0xDC00, place),
            (0xDFFF, place),
        ] {
            let mut units = [0xE000; 32];
            units[place] = unit;
            assert!(rt; scalar_prefix(&units) == prefix, "{unit:X} at {place}");
        }
    }
}
