//! What each encoder gives for one character.

ghost use Rattle.std.specs.Prelude.{◌≡◌, ◌<◌, ◌≤◌, ◌+◌, ◌/◌, ◌%◌, ◌∷◌, [], IfSome, Some};
ghost use Rattle.enc_encode.specs.Code.{written_of, code_bytes};
ghost use Rattle.enc_encode.specs.Pairs.{ArePairPointers, JisPointers};
ghost use Rattle.enc_encode.specs.State.{shift_of};
ghost use Rattle.enc_index.specs.Entries.{found_pointer};
ghost use Rattle.enc_model.specs.Encode.{utf8_bytes, minus, shift_jis_pointer, below_8836, encoder, single_encoder};
ghost use Rattle.enc_model.specs.Encode.{Tables, Wrote, InJis, shift_jis_encoder, euc_jp_encoder, iso2022_encoder};
ghost use Rattle.enc_model.specs.Index.{Index, pointer, pointer_sjis};
ghost use Rattle.enc_model.specs.Indexes.{tables};

use crate::iso2022::iso2022_jp;
use crate::shift::ShiftState;
use crate::written::{Bytes, Written};
use enc_index::{IndexSet, Kind, Pointers};
use enc_model::Encoding;

/// The bytes of a character in UTF-8.
fn utf8(c: char) -> Bytes
    ensures { code_bytes result ≡ utf8_bytes c }
{
    let c = c as u32;
    match c {
        0..=0x7F => Bytes::One([c as u8]),
        0x80..=0x7FF => Bytes::Two([(0xC0 + c / 64) as u8, (0x80 + c % 64) as u8]),
        0x800..=0xFFFF => Bytes::Three([
            (0xE0 + c / 4096) as u8,
            (0x80 + c / 64 % 64) as u8,
            (0x80 + c % 64) as u8,
        ]),
        _ => Bytes::Four([
            (0xF0 + c / 262144) as u8,
            (0x80 + c / 4096 % 64) as u8,
            (0x80 + c / 64 % 64) as u8,
            (0x80 + c % 64) as u8,
        ]),
    }
}

/// The single-byte encoder.
#[tactic(auto, unfolding(enc_model::specs::Encode::single_encoder))]
#[inline(always)]
fn single_byte(set: &IndexSet, to: Encoding, shift: ShiftState, c: char) -> Written
    ensures { written_of result ≡ single_encoder ((tables set.now).single to) (shift_of shift) c }
{
    if c < '\u{80}' {
        return Written::Wrote(Bytes::One([c as u8]), shift);
    }
    match set.pointer(Kind::Single(to), c) {
        Some(pointer) => Written::Wrote(Bytes::One([(pointer + 0x80) as u8]), shift),
        None => Written::Unmappable(Bytes::Zero, shift, c),
    }
}

/// The character that the Japanese encoders look up: U+FF0D for the minus sign U+2212.
#[inline(always)]
pub fn without_minus(c: char) -> char
    ensures { result ≡ minus c }
{
    if c == '\u{2212}' { '\u{FF0D}' } else { c }
}

/// The two bytes of a pointer in Shift_JIS.
#[inline(always)]
fn shift_jis_pair(pointer: u32) -> (u8, u8)
    requires { pointer < 11280 }
    ensures { result.0 ∷ result.1 ∷ [] ≡ shift_jis_pointer pointer }
{
    let lead = pointer / 188;
    let trail = pointer % 188;
    let lead_offset = if lead < 0x1F { 0x81 } else { 0xC1 };
    let trail_offset = if trail < 0x3F { 0x40 } else { 0x41 };
    ((lead + lead_offset) as u8, (trail + trail_offset) as u8)
}

/// The Shift_JIS encoder.
#[tactic(auto, unfolding(enc_model::specs::Encode::shift_jis_encoder))]
#[inline(always)]
fn shift_jis(set: &IndexSet, shift: ShiftState, c: char) -> Written
    ensures { written_of result ≡ shift_jis_encoder (tables set.now).jis0208 (shift_of shift) c }
{
    match c {
        '\0'..='\u{80}' => Written::Wrote(Bytes::One([c as u8]), shift),
        '\u{A5}' => Written::Wrote(Bytes::One([0x5C]), shift),
        '\u{203E}' => Written::Wrote(Bytes::One([0x7E]), shift),
        '\u{FF61}'..='\u{FF9F}' => {
            Written::Wrote(Bytes::One([(c as u32 - 0xFF61 + 0xA1) as u8]), shift)
        }
        _ => {
            let c = without_minus(c);
            match set.pointer_sjis(c) {
                Some(pointer) => {
                    let (lead, trail) = shift_jis_pair(pointer);
                    Written::Wrote(Bytes::Two([lead, trail]), shift)
                }
                None => Written::Unmappable(Bytes::Zero, shift, c),
            }
        }
    }
}

/// A pointer, where the encoders of EUC-JP and ISO-2022-JP may use it.
#[inline(always)]
fn below_8836(pointer: u32) -> Option<u32>
    ensures value { result ≡ below_8836 (Some pointer) }
    ensures bounded { IfSome result (λ p. p < 8836) }
{
    if pointer < 8836 { Some(pointer) } else { None }
}

/// The least pointer of a character in jis0208, where the encoders of EUC-JP and ISO-2022-JP may use it.
#[inline(always)]
pub fn pointer_below_8836(set: &IndexSet, c: char) -> Option<u32>
    ensures value { result ≡ below_8836 (pointer (tables set.now).jis0208 c) }
    ensures bounded { IfSome result (λ p. p < 8836) }
{
    below_8836(set.pointer(Kind::Jis0208, c)?)
}

/// The two bytes of a pointer where each counts 94 from a start.
#[inline(always)]
pub fn pair_of_94(start: u32, pointer: u32) -> (u8, u8)
    requires start { start ≤ 0xA1 }
    requires pointer { pointer < 8836 }
    ensures lead { result.0 ≡ pointer / 94 + start }
    ensures trail { result.1 ≡ pointer % 94 + start }
{
    ((pointer / 94 + start) as u8, (pointer % 94 + start) as u8)
}

/// The EUC-JP encoder.
#[tactic(auto, unfolding(enc_model::specs::Encode::euc_jp_encoder))]
#[inline(always)]
fn euc_jp(set: &IndexSet, shift: ShiftState, c: char) -> Written
    ensures { written_of result ≡ euc_jp_encoder (tables set.now).jis0208 (shift_of shift) c }
{
    match c {
        '\0'..='\u{7F}' => Written::Wrote(Bytes::One([c as u8]), shift),
        '\u{A5}' => Written::Wrote(Bytes::One([0x5C]), shift),
        '\u{203E}' => Written::Wrote(Bytes::One([0x7E]), shift),
        '\u{FF61}'..='\u{FF9F}' => {
            Written::Wrote(Bytes::Two([0x8E, (c as u32 - 0xFF61 + 0xA1) as u8]), shift)
        }
        _ => {
            let c = without_minus(c);
            match pointer_below_8836(set, c) {
                Some(pointer) => {
                    let (lead, trail) = pair_of_94(0xA1, pointer);
                    Written::Wrote(Bytes::Two([lead, trail]), shift)
                }
                None => Written::Unmappable(Bytes::Zero, shift, c),
            }
        }
    }
}

/// The pointers of jis0208 that `pair` looks a character up in, if its file was given, and if characters have two bytes
/// in this state.
#[inline(always)]
pub fn pair_pointers(set: &IndexSet, to: Encoding, shift: ShiftState) -> Option<&Pointers>
    ensures own { IfSome result (λ p. ArePairPointers (tables set.now) to p.now) }
    ensures bounded { IfSome result (λ p. JisPointers p.now) }
{
    match to {
        Encoding::ShiftJis => set.pointers_sjis(),
        Encoding::EucJp => set.pointers(Kind::Jis0208),
        Encoding::Iso2022Jp if shift == ShiftState::Jis => set.pointers(Kind::Jis0208),
        _ => None,
    }
}

/// The two bytes of a kana, an ideograph or a full-width form in Shift_JIS.
#[tactic(auto, unfolding(enc_model::specs::Encode::shift_jis_encoder))]
#[inline(always)]
fn shift_jis_wide(pointers: &Pointers, shift: ShiftState, c: char) -> Option<(u8, u8)>
    requires bounded { JisPointers pointers.now }
    requires from { 0x3000 ≤ c }
    requires to { c ≤ 0xFF60 }
    ensures { (jis0208 : Index) → found_pointer pointers.now c ≡ pointer_sjis jis0208 c → IfSome result
        (λ r. shift_jis_encoder jis0208 (shift_of shift) c ≡ Wrote (r.0 ∷ r.1 ∷ []) (shift_of shift)) }
{
    Some(shift_jis_pair(pointers.find(c)?))
}

/// The two bytes of a kana, an ideograph or a full-width form in EUC-JP.
#[tactic(auto, unfolding(enc_model::specs::Encode::euc_jp_encoder))]
#[inline(always)]
fn euc_jp_wide(pointers: &Pointers, shift: ShiftState, c: char) -> Option<(u8, u8)>
    requires from { 0x3000 ≤ c }
    requires to { c ≤ 0xFF60 }
    ensures { (jis0208 : Index) → found_pointer pointers.now c ≡ pointer jis0208 c → IfSome result
        (λ r. euc_jp_encoder jis0208 (shift_of shift) c ≡ Wrote (r.0 ∷ r.1 ∷ []) (shift_of shift)) }
{
    Some(pair_of_94(0xA1, below_8836(pointers.find(c)?)?))
}

/// The two bytes of a kana, an ideograph or a full-width form in ISO-2022-JP, where it has switched to jis0208.
#[tactic(auto, unfolding(enc_model::specs::Encode::iso2022_encoder))]
#[inline(always)]
fn iso2022_wide(pointers: &Pointers, c: char) -> Option<(u8, u8)>
    requires from { 0x3000 ≤ c }
    requires to { c ≤ 0xFF60 }
    ensures { (jis0208 katakana : Index) → found_pointer pointers.now c ≡ pointer jis0208 c → IfSome result
        (λ r. iso2022_encoder jis0208 katakana InJis c ≡ Wrote (r.0 ∷ r.1 ∷ []) InJis) }
{
    Some(pair_of_94(0x21, below_8836(pointers.find(c)?)?))
}

/// The two bytes of a character from U+3000 to U+FF60, where an encoder gives two and stays in its state: of a kana, an
/// ideograph or a full-width form. The pointers are those of `pair_pointers`, so that they are found once a run.
#[inline(always)]
pub fn pair(pointers: &Pointers, to: Encoding, shift: ShiftState, c: char) -> Option<(u8, u8)>
    requires bounded { JisPointers pointers.now }
    requires from { 0x3000 ≤ c }
    requires to { c ≤ 0xFF60 }
    ensures { (t : Tables) → ArePairPointers t to pointers.now → IfSome result
        (λ r. encoder t to (shift_of shift) c ≡ Wrote (r.0 ∷ r.1 ∷ []) (shift_of shift)) }
{
    match (to, shift) {
        (Encoding::ShiftJis, _) => shift_jis_wide(pointers, shift, c),
        (Encoding::EucJp, _) => euc_jp_wide(pointers, shift, c),
        (Encoding::Iso2022Jp, ShiftState::Jis) => iso2022_wide(pointers, c),
        _ => None,
    }
}

/// What the encoder of an encoding gives for a character. UTF-16 has none, and its texts are in UTF-8.
#[inline(always)]
pub fn written(set: &IndexSet, to: Encoding, shift: ShiftState, c: char) -> Written
    ensures { written_of result ≡ encoder (tables set.now) to (shift_of shift) c }
{
    match to {
        Encoding::Utf8 | Encoding::Utf16Be | Encoding::Utf16Le => Written::Wrote(utf8(c), shift),
        Encoding::ShiftJis => shift_jis(set, shift, c),
        Encoding::EucJp => euc_jp(set, shift, c),
        Encoding::Iso2022Jp => iso2022_jp(set, shift, c),
        single => single_byte(set, single, shift, c),
    }
}
