//! The kinds of index files, and the errors of reading them.

ghost use Rattle.std.specs.Prelude.{◌≡◌};

use enc_model::Encoding;
use std::alloc::AllocError;

/// Which index a file has. `Single` is for the single-byte encodings, IBM866 to windows-1258.
#[derive(Clone, Copy, Debug, PartialEq, Eq, Drop)]
pub enum Kind {
    Jis0208,
    Jis0212,
    Katakana,
    Single(Encoding),
}

/// Why a file isn't an index file, by its first bad line. Lines are counted from 1, ignored ones included.
#[derive(Clone, Copy, Debug, PartialEq, Eq, Drop)]
pub enum ReadError {
    /// The line isn't a pointer, a TAB and a code point.
    Line(usize),
    /// The pointer is too great for this kind, or the code point isn't a scalar value.
    Range(usize),
    /// The pointer occurred before.
    Twice(usize),
    /// Out of memory.
    NoMemory,
}

impl From<AllocError> for ReadError {
    ghost use Rattle.enc_index.specs.declared.kind.ReadError.TheVariants.{NoMemory};

    ghost from_gives = { λ _ e. e ≡ NoMemory };

    fn from(_error: AllocError) -> ReadError {
        ReadError::NoMemory
    }
}

/// Why bytes aren't an index area.
#[derive(Clone, Copy, Debug, PartialEq, Eq, Drop)]
pub enum AreaError {
    /// No index set has this area.
    Damaged,
    /// Out of memory.
    NoMemory,
}

impl From<AllocError> for AreaError {
    ghost use Rattle.enc_index.specs.declared.kind.AreaError.TheVariants.{NoMemory};

    ghost from_gives = { λ _ e. e ≡ NoMemory };

    fn from(_error: AllocError) -> AreaError {
        AreaError::NoMemory
    }
}
