//! The steps of scripts, and what each must write.

use crate::replies::Wanted;
use crate::steps::Step::{
    self, Added, Bytes, Came, Declare, Deferred, Deleted, Gone, Line, Made, Open, Patch, Patched,
    Post, Refused, Replied, Reply, Say, Shown, Text, Written,
};
use crate::stories::{BLOCK, FIFTEEN_BLOCKS};
use crate::talks::Files;
use common::MOST_LENGTH;
use enc_index::Kind;
use enc_model::Encoding;
use tus_request::MOST_HEAD;

const MAX: &str =
    "Tus-Version: 1.0.0\nTus-Extension: creation,creation-defer-length,termination\nTus-Max-Size: 1073741824";

const MAX_AND_CLOSE: &str =
    "Tus-Version: 1.0.0\nTus-Extension: creation,creation-defer-length,termination\nTus-Max-Size: 1073741824\n\
    Connection: close";

/// Metadata that asks for windows-1252 in the mode `fatal`.
const FATAL: &str = "to d2luZG93cy0xMjUy,mode ZmF0YWw=";

/// An index of two characters.
pub(crate) const WINDOWS_1252: Files = &[(
    Kind::Single(Encoding::Windows1252),
    b"0\t20AC\n105\t00E9\n",
)];

/// Three index files of one character each.
pub(crate) const JAPANESE: Files = &[
    (Kind::Jis0208, b"283\t3042\n"),
    (Kind::Jis0212, b"1410\t4E02\n"),
    (Kind::Katakana, b"0\t3002\n"),
];

/// A PATCH that expects `100 Continue`.
const WAITING: &str =
    "PATCH /files/1 HTTP/1.1\nTus-Resumable: 1.0.0\nContent-Type: application/offset+octet-stream\n\
    Upload-Offset: 0\nContent-Length: 2\nExpect: 100-continue";

/// A PATCH with a body, and a HEAD after it.
const TWO_REQUESTS: &[u8] =
    b"PATCH /files/1 HTTP/1.1\r\nTus-Resumable: 1.0.0\r\nContent-Type: text/plain\r\nUpload-Offset: 0\r\n\
    Content-Length: 3\r\n\r\nabcHEAD /files/1 HTTP/1.1\r\nTus-Resumable: 1.0.0\r\n\r\n";

/// OPTIONS, and requests that close their connection.
pub(crate) const OPTIONS: &[Step] = &[
    Open(2),
    Say(1, "OPTIONS /files HTTP/1.1\nTus-Resumable: 0.2.2"),
    Reply(1, "204 No Content", MAX, b""),
    Bytes(179),
    Say(
        1,
        "OPTIONS /files HTTP/1.1\nTus-Resumable: 0.2.2\nConnection: Keep-Alive, Close",
    ),
    Reply(1, "204 No Content", MAX_AND_CLOSE, b""),
    Bytes(198),
    Written("x 1"),
    Say(2, "OPTIONS /files HTTP/1.0\nTus-Resumable: 0.2.2"),
    Reply(2, "204 No Content", MAX_AND_CLOSE, b""),
    Bytes(198),
    Written("x 2"),
];

/// Characters in UTF-8 that are cut: between two requests, by the end of the text, and by another byte.
pub(crate) const CHARACTERS: &[Step] = &[
    Open(1),
    Made(1, 3, ""),
    Added(1, 0, b"\xF0\x90", 2),
    Text(1, "UTF-8", b""),
    Added(1, 2, b"\x80", 3),
    Text(1, "UTF-8", b"\xEF\xBF\xBD"),
    Made(2, 3, ""),
    Added(2, 0, b"\xE0\x80A", 3),
    Text(2, "UTF-8", b"\xEF\xBF\xBD\xEF\xBF\xBDA"),
];

/// Characters in UTF-16LE, EUC-JP and ISO-2022-JP that are cut, and a text that is stored in ISO-2022-JP.
pub(crate) const CUT_UNITS: &[Step] = &[
    Open(1),
    Made(1, 6, "from dXRmLTE2bGU="),
    Added(1, 0, b"\x3D", 1),
    Added(1, 1, b"\xD8\x00", 3),
    Text(1, "UTF-8", b""),
    Added(1, 3, b"\xDE\x3D", 5),
    Text(1, "UTF-8", b"\xF0\x9F\x98\x80"),
    Added(1, 5, b"\xD8", 6),
    Text(1, "UTF-8", b"\xF0\x9F\x98\x80\xEF\xBF\xBD"),
    Made(2, 5, "from ZXVjLWpw"),
    Added(2, 0, b"\x8F", 1),
    Added(2, 1, b"\xB0", 2),
    Text(2, "UTF-8", b""),
    Added(2, 2, b"\xA1\xA4", 4),
    Text(2, "UTF-8", b"\xE4\xB8\x82"),
    Added(2, 4, b"\xA2", 5),
    Text(2, "UTF-8", b"\xE4\xB8\x82\xE3\x81\x82"),
    Made(3, 8, "from aXNvLTIwMjItanA="),
    Added(3, 0, b"\x1B$", 2),
    Added(3, 2, b"B$", 4),
    Text(3, "UTF-8", b""),
    Added(3, 4, b"\"\x1B", 6),
    Added(3, 6, b"(B", 8),
    Text(3, "UTF-8", b"\xE3\x81\x82"),
    Made(4, 6, "to aXNvLTIwMjItanA="),
    Added(4, 0, b"\xE3\x81", 2),
    Text(4, "ISO-2022-JP", b""),
    Added(4, 2, b"\x82", 3),
    Text(4, "ISO-2022-JP", b"\x1B$B$\""),
    Added(4, 3, b"\xE3\x81\x82", 6),
    Text(4, "ISO-2022-JP", b"\x1B$B$\"$\"\x1B(B"),
];

/// Texts in the mode `fatal`, two of them with an unmappable character.
pub(crate) const NOT_ENCODED: &[Step] = &[
    Open(1),
    Made(1, 3, FATAL),
    Added(1, 0, b"\xE3\x81", 2),
    Patch(1, 1, 2, 1),
    Came(1, b"\x82"),
    Refused(1, "422 Unprocessable Entity", 6),
    Shown(1, 1, 2, Some(3), "to d2luZG93cy0xMjUy,mode ZmF0YWw="),
    Made(2, 2, FATAL),
    Added(2, 0, b"\xC3", 1),
    Added(2, 1, b"\xA9", 2),
    Text(2, "windows-1252", b"\xE9"),
    Made(3, 2, FATAL),
    Patch(1, 3, 0, 2),
    Came(1, b"A\xE3"),
    Refused(1, "422 Unprocessable Entity", 6),
    Shown(1, 3, 0, Some(2), "to d2luZG93cy0xMjUy,mode ZmF0YWw="),
];

/// The upload after `ONE_WINNER`.
pub(crate) const WINNER_SHOWN: &[Step] = &[Shown(1, 1, 2, Some(5), ""), Text(1, "UTF-8", b"xy")];

/// The bytes of a cut body are stored up to the cut.
pub(crate) const CUT_BODY: &[Step] = &[
    Open(2),
    Made(1, 10, ""),
    Patch(1, 1, 0, 10),
    Came(1, b"abcd"),
    Line("cut 1"),
    Shown(2, 1, 4, Some(10), ""),
    Patch(2, 1, 4, 6),
    Came(2, b"efghij"),
    Patched(2, 10),
];

/// Requests that are refused.
pub(crate) const REFUSED: &[Step] = &[
    Open(1),
    Say(1, "POST /files HTTP/1.1\nUpload-Length: 5"),
    Reply(
        1,
        "412 Precondition Failed",
        "Tus-Version: 1.0.0\nX-Refusal: 22\nContent-Length: 0",
        b"",
    ),
    Bytes(137),
    Say(1, "HEAD /files/1 HTTP/1.1\nTus-Resumable: 1.0.0"),
    Reply(1, "404 Not Found", "X-Refusal: 8", b""),
    Bytes(87),
    Say(1, "DELETE /files HTTP/1.1\nTus-Resumable: 1.0.0"),
    Reply(
        1,
        "405 Method Not Allowed",
        "Allow: OPTIONS, POST\nX-Refusal: 24\nContent-Length: 0",
        b"",
    ),
    Bytes(138),
    Say(1, "delete /files/1 HTTP/1.1\nTus-Resumable: 1.0.0"),
    Reply(
        1,
        "405 Method Not Allowed",
        "Allow: OPTIONS, HEAD, PATCH, GET, DELETE\nX-Refusal: 24\nContent-Length: 0",
        b"",
    ),
    Bytes(158),
    Made(1, 5, ""),
];

/// The body of a refused request is skipped.
pub(crate) const PASSED_OVER: &[Step] = &[
    Open(1),
    Made(1, 5, ""),
    Came(1, TWO_REQUESTS),
    Refused(1, "415 Unsupported Media Type", 25),
    Replied(1, Wanted::Shown(0, Some(5), "")),
];

/// Metadata that is refused, and metadata that is stored.
pub(crate) const METADATA: &[Step] = &[
    Open(1),
    Post(5, "from a2xpbmdvbg=="),
    Refused(1, "400 Bad Request", 28),
    Post(5, "from dXRmLTg=,from dXRmLTg="),
    Refused(1, "400 Bad Request", 27),
    Made(1, 5, "note"),
    Shown(1, 1, 0, Some(5), "note"),
];

/// The least and the greatest length, and one byte more.
pub(crate) const LENGTHS: &[Step] = &[
    Open(1),
    Made(1, 0, ""),
    Shown(1, 1, 0, Some(0), ""),
    Text(1, "UTF-8", b""),
    Patch(1, 1, 0, 1),
    Came(1, b"a"),
    Refused(1, "413 Payload Too Large", 10),
    Made(2, MOST_LENGTH, ""),
    Post(MOST_LENGTH + 1, ""),
    Refused(1, "413 Payload Too Large", 12),
];

/// PATCHes that expect `100 Continue`: one is answered with it, and one is refused.
pub(crate) const WAITERS: &[Step] = &[
    Open(1),
    Made(1, 5, ""),
    Say(1, WAITING),
    Written("< 1 25\nHTTP/1.1 100 Continue\r\n\r\n"),
    Came(1, b"he"),
    Patched(1, 2),
    Say(1, WAITING),
    Reply(
        1,
        "409 Conflict",
        "X-Refusal: 9\nContent-Length: 0\nConnection: close",
        b"",
    ),
    Written("x 1"),
];

/// A connection that is open can't be opened again.
pub(crate) const OPENED_TWICE: &[Step] = &[Line("open 3"), Line("open 3"), Written("! 3 29")];

/// A head that is too long, and one that isn't HTTP.
pub(crate) const NO_HEADS: &[Step] = &[
    Open(2),
    Came(1, &[b'a'; MOST_HEAD]),
    Reply(
        1,
        "431 Request Header Fields Too Large",
        "X-Refusal: 19\nContent-Length: 0\nConnection: close",
        b"",
    ),
    Written("x 1"),
    Say(2, "BAD"),
    Reply(
        2,
        "400 Bad Request",
        "X-Refusal: 18\nContent-Length: 0\nConnection: close",
        b"",
    ),
    Bytes(128),
    Written("x 2"),
];

/// After `HELLO`: HEAD inside a POST, by `X-HTTP-Method-Override`.
pub(crate) const OTHER_METHOD: &[Step] = &[
    Say(
        1,
        "POST /files/1 HTTP/1.1\nTus-Resumable: 1.0.0\nX-HTTP-Method-Override: HEAD",
    ),
    Replied(1, Wanted::ShownToPost(5, Some(5))),
    Bytes(121),
];

/// PATCH inside a POST.
pub(crate) const OTHER_METHOD_OF_PATCH: &[Step] = &[
    Open(1),
    Made(1, 5, ""),
    Say(
        1,
        "POST /files/1 HTTP/1.1\nTus-Resumable: 1.0.0\nContent-Type: application/offset+octet-stream\n\
        Upload-Offset: 0\nContent-Length: 5\nX-HTTP-Method-Override: PATCH",
    ),
    Came(1, b"hello"),
    Patched(1, 5),
    Bytes(92),
    Text(1, "UTF-8", b"hello"),
];

/// The first byte of three becomes U+FFFD if the text ends after it, and windows-1252 has no code for that.
pub(crate) const DECLARED_END: &[Step] = &[
    Open(1),
    Deferred(1, FATAL),
    Added(1, 0, b"\xE3", 1),
    Declare(1, 1, 1, 1, 0),
    Refused(1, "422 Unprocessable Entity", 6),
    Shown(1, 1, 1, None, "to d2luZG93cy0xMjUy,mode ZmF0YWw="),
    Declare(1, 1, 1, 3, 0),
    Patched(1, 1),
];

/// A PATCH fails if another one declares a shorter length meanwhile.
pub(crate) const OTHER_PATCH: &[Step] = &[
    Open(2),
    Deferred(1, ""),
    Patch(1, 1, 0, 3),
    Came(1, b"ab"),
    Declare(2, 1, 0, 2, 0),
    Patched(2, 0),
    Came(1, b"c"),
    Refused(1, "413 Payload Too Large", 10),
    Declare(1, 1, 0, 3, 0),
    Refused(1, "400 Bad Request", 34),
    Declare(1, 1, 0, 2, 0),
    Patched(1, 0),
    Shown(1, 1, 0, Some(2), ""),
    Text(1, "UTF-8", b""),
    Added(1, 0, b"ab", 2),
];

/// Lengths that are refused.
pub(crate) const REFUSED_LENGTHS: &[Step] = &[
    Open(2),
    Say(
        1,
        "POST /files HTTP/1.1\nTus-Resumable: 1.0.0\nUpload-Length: 5\nUpload-Defer-Length: 1",
    ),
    Refused(1, "400 Bad Request", 26),
    Deferred(1, ""),
    Declare(1, 1, 0, 1_073_741_825, 0),
    Refused(1, "413 Payload Too Large", 12),
    Patch(1, 1, 0, 1_073_741_825),
    Refused(1, "413 Payload Too Large", 10),
    Shown(2, 1, 0, None, ""),
];

/// A PATCH whose upload is deleted meanwhile.
pub(crate) const DELETED_MEANWHILE: &[Step] = &[
    Open(2),
    Made(1, 5, ""),
    Patch(1, 1, 0, 3),
    Came(1, b"ab"),
    Deleted(2, 1),
    Came(1, b"c"),
    Refused(1, "404 Not Found", 8),
    Bytes(106),
    Gone(1, 1),
];

/// The uploads after `FULL_SPOOL`.
pub(crate) const FULL_SHOWN: &[Step] = &[
    Shown(1, 2, 61440, Some(61441), ""),
    Text(1, "UTF-8", BLOCK),
    Text(2, "UTF-8", FIFTEEN_BLOCKS),
];
