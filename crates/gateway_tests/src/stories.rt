//! Steps that more than one test takes.

use crate::steps::Step::{
    self, Added, Bytes, Came, Changed, Declare, Deferred, Deleted, Given, Gone, Line, Made, Open,
    Patch, Patched, Refused, Reply, Say, Shown, Text,
};

/// As many letters as a block holds.
pub(crate) const BLOCK: &[u8] = &[b'a'; 4096];

/// As many letters as 15 blocks hold.
pub(crate) const FIFTEEN_BLOCKS: &[u8] = &[b'a'; 61_440];

/// A sixth of these.
const PIECE: &[u8] = &[b'a'; 10_240];

pub(crate) const TEN_THOUSAND: &[u8] = &[b'a'; 10_000];

/// An upload of five bytes, filled and read.
pub(crate) const HELLO: &[Step] = &[
    Open(3),
    Made(1, 5, ""),
    Changed(&[(1, 0, Some(5), b"")]),
    Added(1, 0, b"hello", 5),
    Changed(&[(1, 5, Some(5), b"hello")]),
    Shown(1, 1, 5, Some(5), ""),
    Text(1, "UTF-8", b"hello"),
];

/// A text in Shift_JIS that is cut within its first character.
pub(crate) const CUT_CHARACTER: &[Step] = &[
    Open(1),
    Made(1, 4, "from c2hpZnRfamlz"),
    Changed(&[(1, 0, Some(4), b"")]),
    Added(1, 0, b"\x82", 1),
    Changed(&[(1, 1, Some(4), b"")]),
    Added(1, 1, b"\xA0", 2),
    Changed(&[(1, 2, Some(4), b"\xE3\x81\x82")]),
    Added(1, 2, b"\x82 ", 4),
    Changed(&[(1, 4, Some(4), b"\xE3\x81\x82\xEF\xBF\xBD ")]),
];

/// A text in Shift_JIS whose length is declared after its last byte.
pub(crate) const DECLARED_LAST: &[Step] = &[
    Open(1),
    Deferred(1, "from c2hpZnRfamlz"),
    Changed(&[(1, 0, None, b"")]),
    Added(1, 0, b"\x82", 1),
    Changed(&[(1, 1, None, b"")]),
    Text(1, "UTF-8", b""),
    Declare(1, 1, 1, 1, 0),
    Patched(1, 1),
    Changed(&[(1, 1, Some(1), b"\xEF\xBF\xBD")]),
    Text(1, "UTF-8", b"\xEF\xBF\xBD"),
];

/// A PATCH that declares the length, and whose body is cut.
pub(crate) const DECLARED_AND_CUT: &[Step] = &[
    Open(2),
    Deferred(1, ""),
    Bytes(110),
    Changed(&[(1, 0, None, b"")]),
    Shown(2, 1, 0, None, ""),
    Bytes(108),
    Declare(1, 1, 0, 5, 5),
    Came(1, b"abcd"),
    Line("cut 1"),
    Shown(2, 1, 4, Some(5), ""),
    Changed(&[(1, 4, Some(5), b"abcd")]),
];

/// Two connections append at the same offset, and the first one to finish wins.
pub(crate) const ONE_WINNER: &[Step] = &[
    Open(2),
    Made(1, 5, ""),
    Changed(&[(1, 0, Some(5), b"")]),
    Patch(1, 1, 0, 3),
    Came(1, b"ab"),
    Patch(2, 1, 0, 2),
    Came(2, b"xy"),
    Patched(2, 2),
    Bytes(92),
    Changed(&[(1, 2, Some(5), b"xy")]),
    Came(1, b"c"),
    Refused(1, "409 Conflict", 9),
    Bytes(105),
];

/// All blocks of a spool of 16 are in use.
pub(crate) const FULL_SPOOL: &[Step] = &[
    Open(1),
    Made(1, 4096, ""),
    Changed(&[(1, 0, Some(4096), b"")]),
    Added(1, 0, BLOCK, 4096),
    Changed(&[(1, 4096, Some(4096), BLOCK)]),
    Made(2, 61_441, ""),
    Changed(&[(1, 4096, Some(4096), BLOCK), (2, 0, Some(61_441), b"")]),
    Patch(1, 2, 0, 61_440),
    Came(1, PIECE),
    Came(1, PIECE),
    Came(1, PIECE),
    Came(1, PIECE),
    Came(1, PIECE),
    Came(1, PIECE),
    Patched(1, 61_440),
    Changed(&[
        (1, 4096, Some(4096), BLOCK),
        (2, 61_440, Some(61_441), FIFTEEN_BLOCKS),
    ]),
    Patch(1, 2, 61_440, 1),
    Came(1, b"a"),
    Refused(1, "507 Insufficient Storage", 17),
];

/// An upload that is filled and deleted, and another one after it.
pub(crate) const DELETED: &[Step] = &[
    Open(1),
    Made(1, 5, ""),
    Changed(&[(1, 0, Some(5), b"")]),
    Added(1, 0, b"hello", 5),
    Changed(&[(1, 5, Some(5), b"hello")]),
    Deleted(1, 1),
    Bytes(74),
    Changed(&[]),
    Gone(1, 1),
    Bytes(87),
    Made(2, 5, ""),
    Changed(&[(2, 0, Some(5), b"")]),
];

const SIXTEENTH: &[u8] = &[b'b'; 16_384];

/// A PATCH of an upload that ends within a block and is deleted, while another upload fills all blocks of a spool of
/// 16.
pub(crate) const PATCH_OF_A_DELETED: &[Step] = &[
    Open(2),
    Made(1, 5001, ""),
    Changed(&[(1, 0, Some(5001), b"")]),
    Added(1, 0, &[b'a'; 5000], 5000),
    Changed(&[(1, 5000, Some(5001), &[b'a'; 5000])]),
    Patch(2, 1, 5000, 1),
    Deleted(1, 1),
    Changed(&[]),
    Made(2, 65_536, ""),
    Changed(&[(2, 0, Some(65_536), b"")]),
    Patch(1, 2, 0, 65_536),
    Came(1, SIXTEENTH),
    Came(1, SIXTEENTH),
    Came(1, SIXTEENTH),
    Came(1, SIXTEENTH),
    Patched(1, 65_536),
    Changed(&[(2, 65_536, Some(65_536), &[b'b'; 65_536])]),
    Came(2, b"c"),
    Refused(2, "404 Not Found", 8),
    Bytes(106),
];

/// All blocks of a spool of 16 are in use, and a deletion frees them.
pub(crate) const FREED: &[Step] = &[
    Open(1),
    Made(1, 65_536, ""),
    Patch(1, 1, 0, 65_536),
    Came(1, SIXTEENTH),
    Came(1, SIXTEENTH),
    Came(1, SIXTEENTH),
    Came(1, SIXTEENTH),
    Patched(1, 65_536),
    Made(2, 1, ""),
    Patch(1, 2, 0, 1),
    Came(1, b"a"),
    Refused(1, "507 Insufficient Storage", 17),
    Deleted(1, 1),
    Added(2, 0, b"a", 1),
    Text(2, "UTF-8", b"a"),
];

/// A text that a GET returns in two pieces.
pub(crate) const LONG_TEXT: &[Step] = &[
    Open(1),
    Made(1, 70_000, ""),
    Changed(&[(1, 0, Some(70_000), b"")]),
    Patch(1, 1, 0, 70_000),
    Came(1, TEN_THOUSAND),
    Came(1, TEN_THOUSAND),
    Came(1, TEN_THOUSAND),
    Came(1, TEN_THOUSAND),
    Came(1, TEN_THOUSAND),
    Came(1, TEN_THOUSAND),
    Came(1, TEN_THOUSAND),
    Patched(1, 70_000),
    Changed(&[(1, 70_000, Some(70_000), &[b'a'; 70_000])]),
    Say(1, "GET /files/1 HTTP/1.1"),
    Reply(
        1,
        "200 OK",
        "Content-Type: text/plain; charset=UTF-8\nContent-Length: 70000",
        &[b'a'; 65_536],
    ),
    Bytes(65_666),
    Given(1, &[b'a'; 4464]),
];
