//! BOM sniffing over pieces (Encoding Standard, section 6).

ghost use Rattle.std.specs.Prelude.{◌≡◌, ◌∷◌, [], ℕ, List, true, MatchOption};
ghost use Rattle.enc_model.specs.Decode.{undecided};
ghost use Rattle.enc_stream.specs.Sniff.{held_bytes, LacksOne, Sniffs};
ghost use Rattle.enc_stream.specs.StateBytes.{counted, padded};

use enc_model::Encoding;

/// The bytes that are held because they may become a BOM.
#[derive(Clone, Copy, Debug, PartialEq, Eq)]
pub enum Held {
    Nothing,
    Ef,
    EfBb,
    Fe,
    Ff,
}

/// What held bytes and a further piece turn out to be.
#[derive(Clone, Copy, Debug, PartialEq, Eq)]
pub enum Sniffed {
    /// They may still become a BOM.
    Still(Held),
    /// The BOM of this encoding. It ends after this many bytes of the piece.
    Bom(Encoding, usize),
    /// Not a BOM.
    Plain,
}

/// The held bytes.
pub fn bytes_of(held: Held) -> &'static [u8]
    ensures { result.now ≡ held_bytes held }
{
    match held {
        Held::Nothing => &[],
        Held::Ef => &[0xEF],
        Held::EfBb => &[0xEF, 0xBB],
        Held::Fe => &[0xFE],
        Held::Ff => &[0xFF],
    }
}

/// The count of the held bytes, and the bytes.
pub fn held_packed(held: Held) -> [u8; 5]
    ensures { result ≡ padded 5 (counted (held_bytes held)) }
{
    match held {
        Held::Nothing => [0; 5],
        Held::Ef => [1, 0xEF, 0, 0, 0],
        Held::EfBb => [2, 0xEF, 0xBB, 0, 0],
        Held::Fe => [1, 0xFE, 0, 0, 0],
        Held::Ff => [1, 0xFF, 0, 0, 0],
    }
}

/// The held bytes with this count.
pub fn held_at(count: u8, first: u8, second: u8) -> Option<Held>
    ensures { (bytes : List ℕ) → undecided bytes ≡ true → padded 3 (counted bytes) ≡ count ∷ first ∷ second ∷ []
        → MatchOption result ⊥ (λ held. held_bytes held ≡ bytes) }
{
    match (count, first, second) {
        (0, ..) => Some(Held::Nothing),
        (1, 0xEF, _) => Some(Held::Ef),
        (2, 0xEF, 0xBB) => Some(Held::EfBb),
        (1, 0xFE, _) => Some(Held::Fe),
        (1, 0xFF, _) => Some(Held::Ff),
        _ => None,
    }
}

/// Sniffs a piece when nothing is held.
fn sniff_first(piece: &[u8]) -> Sniffed
    ensures { Sniffs Held.Nothing piece.now result }
{
    match piece {
        [] => Sniffed::Still(Held::Nothing),
        [0xEF] => Sniffed::Still(Held::Ef),
        [0xEF, 0xBB] => Sniffed::Still(Held::EfBb),
        [0xEF, 0xBB, 0xBF, ..] => Sniffed::Bom(Encoding::Utf8, 3),
        [0xFE] => Sniffed::Still(Held::Fe),
        [0xFE, 0xFF, ..] => Sniffed::Bom(Encoding::Utf16Be, 2),
        [0xFF] => Sniffed::Still(Held::Ff),
        [0xFF, 0xFE, ..] => Sniffed::Bom(Encoding::Utf16Le, 2),
        _ => Sniffed::Plain,
    }
}

/// Sniffs a piece when EF is held.
fn sniff_second(piece: &[u8]) -> Sniffed
    ensures { Sniffs Held.Ef piece.now result }
{
    match piece {
        [] => Sniffed::Still(Held::Ef),
        [0xBB] => Sniffed::Still(Held::EfBb),
        [0xBB, 0xBF, ..] => Sniffed::Bom(Encoding::Utf8, 2),
        _ => Sniffed::Plain,
    }
}

/// Sniffs a piece when a BOM lacks one byte.
fn sniff_last(held: Held, last: u8, encoding: Encoding, piece: &[u8]) -> Sniffed
    requires { LacksOne held last encoding }
    ensures { Sniffs held piece.now result }
{
    match piece {
        [] => Sniffed::Still(held),
        [first, ..] if *first == last => Sniffed::Bom(encoding, 1),
        _ => Sniffed::Plain,
    }
}

/// Sniffs a piece after the held bytes.
pub fn sniff(held: Held, piece: &[u8]) -> Sniffed
    ensures { Sniffs held piece.now result }
{
    match held {
        Held::Nothing => sniff_first(piece),
        Held::Ef => sniff_second(piece),
        Held::EfBb => sniff_last(held, 0xBF, Encoding::Utf8, piece),
        Held::Fe => sniff_last(held, 0xFF, Encoding::Utf16Be, piece),
        Held::Ff => sniff_last(held, 0xFE, Encoding::Utf16Le, piece),
    }
}
