//! Input and output that count what they refused, a whole text at a time.
ghost use Rattle.std.specs.Prelude.{◌≡◌, ◌≤◌, ◌<◌, ℕ, List, Option, IfOk, IfSome, IsErr, OnErr, OnOk, length, take};
ghost use Rattle.std.specs.Fmt.{with_newline};
ghost use Rattle.std.specs.Io.KnownBytes.{Appends, Consumes, IsAtEnd, Keeps};
ghost use Rattle.common.specs.Counts.{Counts};

use crate::counted::Refused;
use std::fmt::Display;
use std::io;

/// Output that counts what it refuses.
pub trait Output {
    /// The bytes that it holds, where they are known.
    ghost contents: { Self → Option (List ℕ) };

    /// How many calls it refused, up to 2^64 - 1.
    ghost refusals: { Self → ℕ };

    /// Writes all of the bytes, or refuses.
    fn put(&mut self, bytes: &[u8]) -> Result<(), Refused>
        ensures bytes { OnOk result (Appends (contents self.old) (contents self.new) bytes.now) }
        ensures counts { Counts (IsErr result) (refusals self.old) (refusals self.new) };

    /// Writes all of a text, as `write!` does, or refuses.
    fn write_fmt<D: Display + Drop>(&mut self, text: D) -> Result<(), Refused>
        ensures bytes { OnOk result (IfSome (D.output text) (Appends (contents self.old) (contents self.new))) }
        ensures counts { Counts (IsErr result) (refusals self.old) (refusals self.new) };

    /// Writes all of a text and LF, as `writeln!` does, or refuses.
    fn writeln<D: Display + Drop>(&mut self, text: D) -> Result<(), Refused>
        ensures bytes { OnOk result (IfSome (with_newline (D.output text))
            (Appends (contents self.old) (contents self.new))) }
        ensures counts { Counts (IsErr result) (refusals self.old) (refusals self.new) };

    /// Why a call was refused last. `None` where none was.
    fn error(&self) -> Option<io::Error>;
}

/// Input that counts what it refuses.
pub trait Input {
    /// The bytes that it has left, where they are known.
    ghost remaining: { Self → Option (List ℕ) };

    /// How many calls it refused, up to 2^64 - 1.
    ghost refusals: { Self → ℕ };

    /// How many more pieces it gives at most.
    ghost pieces: { Self → ℕ };

    /// Reads into the prefix of the piece: how many bytes, none only at the end.
    fn read_piece(&mut self, piece: &mut [u8]) -> Result<usize, Refused>
        ensures within { IfOk result (λ count. count ≤ length piece.old) }
        ensures same { length piece.new ≡ length piece.old }
        ensures ok { IfOk result (λ count. Consumes (remaining self.old) (remaining self.new) (take count piece.new)) }
        ensures end { IfOk result (λ count. count ≡ 0 → 0 < length piece.old → IsAtEnd (remaining self.new)) }
        ensures unchanged { OnErr result (Keeps (remaining self.old) (remaining self.new)) }
        ensures fewer { OnOk result (pieces self.new < pieces self.old) }
        ensures counts { Counts (IsErr result) (refusals self.old) (refusals self.new) };

    /// Why a call was refused last. `None` where none was.
    fn error(&self) -> Option<io::Error>;
}
