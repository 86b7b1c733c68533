//! The pointers that an encoder may use.

/// The pointers that an encoder may use. The Shift_JIS encoder leaves out 8272 to 8835 (Encoding Standard, section 5).
#[derive(Clone, Copy)]
pub enum Usable {
    All,
    OfShiftJis,
}
