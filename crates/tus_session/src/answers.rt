//! The answer of a call on a session.

/// What a call answers besides the bytes that it appends.
///
/// A request and the first seven bytes of the next one, which the call leaves:
///
/// ```
/// let bytes = b"OPTIONS /files HTTP/1.1\r\n\r\nOPTIONS";
/// let came = session.came(&mut store, 0, bytes, &mut out);
/// let answer = came.expect(rt, "memory");
/// assert_eq!(rt; answer.taken, bytes.len() - 7);
/// assert!(rt; !answer.closes && !answer.more);
/// ```
#[derive(Clone, Copy, Debug, PartialEq, Eq, Drop)]
pub struct Answer {
    /// How many of the given bytes the call took. They belong to at most one request.
    pub taken: usize,
    /// Whether the connection closes once the appended bytes are sent.
    pub closes: bool,
    /// Whether a text is pending; `more` gives its next piece.
    pub more: bool,
}
