//! The progress of a transcoder.

/// How far a transcoder has come.
///
/// A BOM that comes in two pieces, and a letter after it:
///
/// ```
/// let mut out = Vec::new(alloc);
/// let mut transcoder = Transcoder::new(Encoding::Utf8, Encoding::Utf8, Mode::Html);
/// transcoder.feed(&set, b"\xEF\xBB", &mut out)?;
/// assert_eq!(rt; transcoder.progress(), Progress::Holding(2));
/// transcoder.feed(&set, b"\xBFa", &mut out)?;
/// assert_eq!(rt; transcoder.progress(), Progress::Decoding);
/// transcoder.finish(&set, &mut out)?;
/// assert_eq!(rt; transcoder.progress(), Progress::Ended);
/// ```
#[derive(Clone, Copy, Debug, PartialEq, Eq, Drop)]
pub enum Progress {
    /// A BOM may still come. This many bytes arrived and are held.
    Holding(usize),
    /// The encoding is known, and bytes are decoded.
    Decoding,
    /// The end was decoded.
    Ended,
}
