//! The least pointers by code point, for encoders.

ghost use Rattle.std.specs.Prelude.{◌≡◌, ℕ, Option, IfOk, IfSome, None, ◌<◌, length, slice_index_or};
ghost use Rattle.enc_index.specs.Entries.{found_pointer, GivesLeast};
ghost use Rattle.enc_index.specs.Usable.{includes};

use crate::usable::Usable;
use std::alloc::{AllocError, Global};
use std::marker::Model;

/// The entry of a code point without a pointer.
const NO_POINTER: u16 = u16::MAX;

/// The pointers of an index by code point. A lookup takes one step. The table has two bytes for each code point up to
/// the greatest.
#[derive(Drop)]
pub struct Pointers {
    at: Vec<u16>,
}

impl Model for Pointers {
    ghost use Rattle.std.specs.Prelude.{ℕ, List};

    ghost Value = { List ℕ };

    ghost view = { λ p. p.at.items };
}

/// Whether the encoder may use this pointer.
fn may_use(usable: Usable, pointer: u32) -> bool
    ensures { result ≡ includes usable pointer }
{
    match usable {
        Usable::All => true,
        Usable::OfShiftJis => !(8272 <= pointer && pointer <= 8835),
    }
}

/// One more than the greatest of these code points.
fn code_points(codes: &[Option<char>]) -> usize
    ensures { (k : ℕ) → IfSome (slice_index_or codes.now k None) (λ c. c < result) }
{
    let mut count = 0;
    for code in codes {
        if let Some(c) = code {
            count = count.max(*c as usize + 1);
        }
    }
    count
}

impl Pointers {
    /// The least usable pointers of these code points.
    ///
    /// # Errors
    ///
    /// `AllocError` when out of memory.
    pub(crate) fn least(
        alloc: Global,
        codes: &[Option<char>],
        usable: Usable,
    ) -> Result<Pointers, AllocError>
        requires { length codes.now < 0xFFFF }
        ensures { IfOk result (λ pointers. GivesLeast (includes usable) codes.now pointers) }
    {
        let count = code_points(codes);
        let mut at = Vec::with_capacity(alloc, count)?;
        at.resize(count, NO_POINTER)?;
        let mut place = codes.len();
        while place > 0 {
            place -= 1;
            if let Some(c) = codes[place] {
                if may_use(usable, place as u32) {
                    at[c as usize] = place as u16;
                }
            }
        }
        Ok(Pointers { at })
    }

    /// The pointer of a code point.
    #[inline(always)]
    pub fn find(&self, c: char) -> Option<u32>
        ensures { result ≡ found_pointer self.now c }
    {
        match self.at.get(c as usize) {
            Some(pointer) if *pointer != NO_POINTER => Some(*pointer as u32),
            _ => None,
        }
    }
}
