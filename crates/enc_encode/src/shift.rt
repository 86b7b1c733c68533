//! The states of an encoder.

/// The set of characters that an encoder of ISO-2022-JP has switched to; every other encoder stays in `Ascii`.
///
/// The Encoding Standard's 'ISO-2022-JP encoder state'.
#[derive(Clone, Copy, Debug, PartialEq, Eq)]
pub enum ShiftState {
    Ascii,
    Roman,
    Jis,
}
