//! The numbers of the loops over a text's characters, and the encoding that each knows.

ghost use Rattle.std.specs.Prelude.{◌≡◌};
ghost use Rattle.enc_encode.specs.Loops.{IsLoopOf};

use enc_model::Encoding;

/// The loop over characters for all encodings that have none of their own: the single-byte ones.
pub const OTHERS: usize = 0;

/// The loop for Shift_JIS.
pub const SHIFT_JIS: usize = 1;

/// The loop for EUC-JP.
pub const EUC_JP: usize = 2;

/// The loop for ISO-2022-JP.
pub const ISO_2022_JP: usize = 3;

/// The encoding given. In a loop that is made for one encoding the compiler knows which, so that no step of the loop
/// chooses by it.
#[inline(always)]
pub fn encoding_of<const LOOP: usize>(given: Encoding) -> Encoding
    requires { IsLoopOf LOOP given }
    ensures { result ≡ given }
{
    match LOOP {
        SHIFT_JIS => Encoding::ShiftJis,
        EUC_JP => Encoding::EucJp,
        ISO_2022_JP => Encoding::Iso2022Jp,
        _ => given,
    }
}
