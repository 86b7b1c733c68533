//! The byte order of UTF-16.

/// Which byte of a unit comes first.
#[derive(Clone, Copy, Debug, PartialEq, Eq)]
pub enum Order {
    /// The higher byte, as in UTF-16BE.
    Big,
    /// The lower byte, as in UTF-16LE.
    Little,
}
