//! The table in memory in use.

use crate::uploads::{patched, plain};
use enc_index::IndexSet;
use std::alloc::Global;
use std::process::Abort;
use upload_rules::{Table, Uploads};

/// A table with an empty upload of this length.
fn with_one(rt: &impl Abort, alloc: Global, length: u64) -> Table {
    let indexes = IndexSet::new(alloc).expect(rt, "memory for a set");
    let mut table = Table::new(alloc, indexes);
    assert_eq!(rt; table.create(plain(alloc, length)), Ok(1));
    table
}

#[test]
fn hello(rt: HostRuntime) {
    let mut table = with_one(&rt, rt.alloc(), 5);
    assert_eq!(rt; table.next_number(), 2);
    assert_eq!(rt; table.record(1).map(|r| r.accepted), Some(0));
    assert_eq!(rt; patched(&mut table, 1, 0, b"hello"), Ok(5));
    assert_eq!(rt; table.record(1).map(|r| r.accepted), Some(5));
    assert_eq!(rt; table.record_after(0).map(|r| r.text_len), Some(5));
    assert!(rt; table.record_after(1).is_none());
    let mut buf = [0; 4];
    let read = table.read_text(1, 2, &mut buf);
    assert_eq!(rt; (read, buf), (Ok(3), *b"llo\0"));
}
