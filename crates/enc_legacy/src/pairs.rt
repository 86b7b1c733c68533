//! Characters of jis0208 by the pointers of their pairs.

ghost use Rattle.std.specs.Prelude.{◌≡◌, ◌≤◌, ℕ, IfSome, Some, None, length, slice_index_or};
ghost use Rattle.enc_model.specs.Index.{code};
ghost use Rattle.enc_model.specs.Indexes.{tables};

use enc_index::{IndexSet, Kind};
use enc_model::Utf8Char;

/// More than any pointer of jis0208: a byte that isn't part of a pair adds this.
pub(crate) const NO_PAIR: usize = 0x8000;

/// Where a table's rows for trails begin: after those for leads, so that one address serves both.
pub(crate) const TRAILS: usize = 256;

/// The characters of jis0208 by their pointers, if they are ready and all pointers are below `NO_PAIR`.
#[inline(always)]
pub(crate) fn ready_rows(indexes: &IndexSet) -> Option<&[Option<Utf8Char>]>
    ensures few { IfSome result (λ r. length r.now ≤ NO_PAIR) }
    ensures codes { IfSome result (λ r. (p : ℕ) → slice_index_or r.now p None ≡ code (tables indexes.now).jis0208 p) }
{
    let ready = indexes.ready(Kind::Jis0208)?;
    if ready.len() <= NO_PAIR {
        Some(ready)
    } else {
        None
    }
}

/// The character at a pointer.
#[inline(always)]
pub(crate) fn row_char(ready: &[Option<Utf8Char>], pointer: u32) -> Option<&Utf8Char>
    ensures { IfSome result (λ c. slice_index_or ready.now pointer None ≡ Some c.now) }
{
    ready.get(pointer as usize)?.as_ref()
}
