//! Index areas: the pages of a set, and the set of the pages.

use crate::sets::set_of;
use enc_index::{AREA_SIZE, AreaError, IndexSet, Kind};
use enc_model::Encoding;
use std::alloc::Global;
use std::process::Abort;

/// The 22 pages of a set's area, one after the other.
fn area_of(rt: &impl Abort, alloc: Global, set: &IndexSet) -> Vec<u8> {
    let mut area = Vec::new(alloc);
    for page in 0..22usize {
        area.extend_from_slice(&set.to_area(page))
            .expect(rt, "memory");
    }
    area
}

/// The area of a set with the index jis0208 alone, with three pointers.
fn small_area(rt: &impl Abort, alloc: Global) -> Vec<u8> {
    let files = [(Kind::Jis0208, "0\t3000\n60\tFF0D\n61\tFF0D\n")];
    area_of(rt, alloc, &set_of(rt, alloc, &files))
}

#[test]
fn area_gives_its_set_back(rt: HostRuntime) {
    let alloc = rt.alloc();
    let area = small_area(&rt, alloc);
    assert!(rt; area.len() == AREA_SIZE);
    assert_eq!(rt; (area[0], area[1], area[17]), (1, 0, 0));
    assert!(rt; area[32..40] == [0, 0, 0x30, 0, 0xFF, 0xFF, 0xFF, 0xFF]);
    assert!(rt; area[272..276] == [0, 0, 0xFF, 0x0D]);
    let set = IndexSet::from_area(alloc, &area).expect(&rt, "the area of a set");
    assert!(rt; set.offers(Encoding::ShiftJis) && !set.offers(Encoding::EucJp));
    assert!(rt; area_of(&rt, alloc, &set) == area);
}

/// A byte of the area at a place, in place of its own: what no set has there.
static DAMAGES: [(usize, u8); 8] = [
    (0, 0),
    (0, 2),
    (18, 1),
    (31, 1),
    (33, 0x11),
    (34, 0xD8),
    (88428, 1),
    (90111, 1),
];

#[test]
fn area_of_no_set_is_refused(rt: HostRuntime) {
    let alloc = rt.alloc();
    for (place, byte) in DAMAGES {
        let mut area = small_area(&rt, alloc);
        assert!(rt; place < area.len());
        area[place] = byte;
        let refused = IndexSet::from_area(alloc, &area).map(drop);
        assert_eq!(rt; refused, Err(AreaError::Damaged), "{place}");
    }
    let area = small_area(&rt, alloc);
    assert!(rt; area.len() == AREA_SIZE);
    for length in [0, 4096, AREA_SIZE - 1] {
        let refused = IndexSet::from_area(alloc, &area[..length]).map(drop);
        assert_eq!(rt; refused, Err(AreaError::Damaged), "{length}");
    }
}
