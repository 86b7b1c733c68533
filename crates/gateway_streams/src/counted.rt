//! Readers and writers that count what they refused, a piece at a time.
ghost use Rattle.std.specs.Prelude.{◌≡◌, ◌≤◌, ◌<◌, ℕ, List, length, take, Option, IsErr, IfOk, OnErr};
ghost use Rattle.std.specs.Io.{ReadsAtMost, WritesAtMost};
ghost use Rattle.std.specs.Io.KnownBytes.{Consumes, Keeps, IsAtEnd, WriteAppends};
ghost use Rattle.common.specs.Counts.{Counts};

use std::io::{self, ErrorKind, Read, Write};

/// Input or output was refused.
#[derive(Clone, Copy, Debug, PartialEq, Eq, Drop)]
pub struct Refused;

/// A reader that counts its refusals. Every `Read` is one, but nothing is known of its count; `Noted` counts them.
pub trait CountedRead {
    /// The bytes that it has left, where they are known.
    ghost remaining: { Self → Option (List ℕ) };

    /// How many calls it refused, or 2^64 - 1 where they were more or weren't counted.
    ghost refusals: { Self → ℕ };

    /// Reads into the prefix of the piece: how many bytes, none only at the end.
    fn read_piece(&mut self, piece: &mut [u8]) -> Result<usize, Refused>
        ensures bound { ReadsAtMost result piece.new }
        ensures within { IfOk result (λ count. count ≤ length piece.old) }
        ensures ok { IfOk result (λ count. Consumes (remaining self.old) (remaining self.new) (take count piece.new)) }
        ensures end { IfOk result (λ count. count ≡ 0 → 0 < length piece.old → IsAtEnd (remaining self.new)) }
        ensures unchanged { OnErr result (Keeps (remaining self.old) (remaining self.new)) }
        ensures counts { Counts (IsErr result) (refusals self.old) (refusals self.new) };
}

/// A writer that counts its refusals. Every `Write` is one, but nothing is known of its count; `Noted` counts them.
pub trait CountedWrite {
    /// The bytes that it holds, where they are known.
    ghost contents: { Self → Option (List ℕ) };

    /// How many calls it refused, or 2^64 - 1 where they were more or weren't counted.
    ghost refusals: { Self → ℕ };

    /// Writes a prefix of the piece: how many bytes, none only where the piece is empty.
    fn write_piece(&mut self, piece: &[u8]) -> Result<usize, Refused>
        ensures bound { WritesAtMost result piece.now }
        ensures bytes { WriteAppends (contents self.old) (contents self.new) result piece.now }
        ensures some { IfOk result (λ count. 0 < length piece.now → 0 < count) }
        ensures counts { Counts (IsErr result) (refusals self.old) (refusals self.new) };
}

// One read, tried again where it is interrupted.
pub(crate) fn read_on<R: Read>(reader: &mut R, piece: &mut [u8]) -> io::Result<usize>
    ensures bound { ReadsAtMost result piece.new }
    ensures within { IfOk result (λ count. count ≤ length piece.old) }
    ensures same { length piece.new ≡ length piece.old }
    ensures ok { IfOk result (λ count. Consumes (R.remaining reader.old) (R.remaining reader.new)
        (take count piece.new)) }
    ensures end { IfOk result (λ count. count ≡ 0 → 0 < length piece.old → IsAtEnd (R.remaining reader.new)) }
    ensures unchanged { OnErr result (Keeps (R.remaining reader.old) (R.remaining reader.new)) }
{
    for _ in 0..u64::MAX {
        match reader.read(piece) {
            Ok(count) => return Ok(count),
            Err(error) => {
                if error.kind() != ErrorKind::Interrupted {
                    return Err(error);
                }
            }
        }
    }
    Err(io::Error::from(ErrorKind::Interrupted))
}

// One write. One that takes nothing of a piece with bytes is a refusal.
pub(crate) fn write_on<W: Write>(writer: &mut W, piece: &[u8]) -> io::Result<usize>
    ensures bound { WritesAtMost result piece.now }
    ensures bytes { WriteAppends (W.contents writer.old) (W.contents writer.new) result piece.now }
    ensures some { IfOk result (λ count. 0 < length piece.now → 0 < count) }
{
    match writer.write(piece) {
        Ok(0) if !piece.is_empty() => Err(io::Error::from(ErrorKind::WriteZero)),
        outcome => outcome,
    }
}

impl<R: Read> CountedRead for R {
    ghost remaining = { λ r. R.remaining r };

    ghost refusals = { λ _. 18446744073709551615 };

    fn read_piece(&mut self, piece: &mut [u8]) -> Result<usize, Refused> {
        match read_on(self, piece) {
            Ok(count) => Ok(count),
            Err(_) => Err(Refused),
        }
    }
}

impl<W: Write> CountedWrite for W {
    ghost contents = { λ w. W.contents w };

    ghost refusals = { λ _. 18446744073709551615 };

    fn write_piece(&mut self, piece: &[u8]) -> Result<usize, Refused> {
        match write_on(self, piece) {
            Ok(count) => Ok(count),
            Err(_) => Err(Refused),
        }
    }
}
