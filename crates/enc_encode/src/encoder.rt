//! The encoder.

ghost use Rattle.std.specs.Prelude.{◌≡◌, ◌⊎◌, ◌<◌, ◌≤◌, ◌++◌, ◌∷◌, [], ℕ, List, Ok, Err, vec_capacity, length, OnOk};
ghost use Rattle.std.specs.Prelude.{OnErr, IfOk, IfErr, IfSome, IsOk, All};
ghost use Rattle.std.specs.Str.{chars};
ghost use Rattle.enc_encode.specs.State.{EncoderState, shift_of, code_of_shift, code_of_shift_of, shifted, coder};
ghost use Rattle.enc_encode.specs.State.{code_from};
ghost use Rattle.enc_encode.specs.Growth.{NoRoom};
ghost use Rattle.enc_encode.specs.Held.{HoldsCode, HeldPrefix};
ghost use Rattle.enc_encode.specs.Letters.{AreLetters};
ghost use Rattle.enc_encode.specs.Loops.{IsLoopOf};
ghost use Rattle.enc_encode.specs.Reasons.{Gave, Explains, reason_of};
ghost use Rattle.enc_encode.specs.Singles.{AreSingles, FewPointers};
ghost use Rattle.enc_model.specs.Encode.{Tables, coded, encoder, encoder_end, InAscii};
ghost use Rattle.enc_model.specs.Transcode.{Took, Refused};
ghost use Rattle.enc_model.specs.Sink.{Given};
ghost use Rattle.enc_model.specs.Indexes.{tables};

use crate::append::{append, fill};
use crate::ascii_start::{are_ascii, own_prefix, starts_in_ascii};
use crate::buffer::Buffer;
use crate::encoders::written;
use crate::error::EncodeError;
use crate::iso2022::{TO_ASCII, iso2022_ascii};
use crate::letters::{Letters, letters_of};
use crate::loops::{EUC_JP, ISO_2022_JP, OTHERS, SHIFT_JIS, encoding_of};
use crate::shift::ShiftState;
use crate::written::Written;
use crate::written_out::write_out;
use enc_index::{IndexSet, Kind, Pointers};
use enc_model::{Encoding, Mode};
use std::alloc::AllocError;
use std::marker::Model;

/// An encoder: where it encodes to, what it does with a character that its encoding lacks, and its state.
#[derive(Clone, Copy, Debug)]
pub struct Encoder {
    to: Encoding,
    mode: Mode,
    shift: ShiftState,
}

impl Model for Encoder {
    ghost Value = { EncoderState };

    ghost view = { λ e. record { to = e.to; mode = e.mode; shift = shift_of e.shift } };

    ghost inverse = { λ v. record { to = v.to; mode = v.mode; shift = code_of_shift v.shift } };

    ghost inverse_ok = { λ e h. code_of_shift_of e.shift (λ s. record { to = e.to; mode = e.mode; shift = s }) };
}

impl Encoder {
    /// An encoder to an encoding, at the start of a text. An encoder to UTF-16 writes UTF-8, as the Encoding Standard's
    /// 'get an output encoding' has it.
    pub fn new(to: Encoding, mode: Mode) -> Self
        ensures { result ≡ record { to = to; mode = mode; shift = InAscii } }
    {
        Encoder::resume(to, mode, ShiftState::Ascii)
    }

    /// An encoder that goes on from a state.
    pub fn resume(to: Encoding, mode: Mode, shift: ShiftState) -> Self
        ensures { result ≡ record { to = to; mode = mode; shift = shift_of shift } }
    {
        Encoder { to, mode, shift }
    }

    /// The encoding that it encodes to.
    pub fn to(&self) -> Encoding
        ensures { result ≡ self.now.to }
    {
        self.to
    }

    /// What it does with a character that its encoding lacks.
    pub fn mode(&self) -> Mode
        ensures { result ≡ self.now.mode }
    {
        self.mode
    }

    /// Its state.
    pub fn shift(&self) -> ShiftState
        ensures { shift_of result ≡ self.now.shift }
    {
        self.shift
    }

    /// Appends a character's code from a state, and gives the state that it leads to.
    fn encode(
        &self,
        set: &IndexSet,
        shift: ShiftState,
        c: char,
        out: &mut Vec<u8>,
    ) -> Result<ShiftState, EncodeError>
        ensures { Gave (coded (encoder (tables set.now) self.now.to) self.now.mode (shift_of shift) (c ∷ [])) out.old
            out.new result }
    {
        match written(set, self.to, shift, c) {
            Written::Restore(bytes, next) => {
                append(bytes.as_slice(), out)?;
                write_out(self.mode, written(set, self.to, next, c), out)
            }
            once => write_out(self.mode, once, out),
        }
    }

    /// Appends a character's code.
    ///
    /// # Errors
    ///
    /// `Unencodable(d)` in fatal mode, where the encoding lacks the character. `d` is the character itself, or what the
    /// encoder put in its place: U+FF0D for U+2212, a full-width katakana for a half-width one, U+FFFD for 0E, 0F and
    /// 1B in ISO-2022-JP. `NoMemory` if `out` could not grow. The encoder is then as it was, and `out` has grown by a
    /// prefix of what was to come.
    pub fn put(&mut self, set: &IndexSet, c: char, out: &mut Vec<u8>) -> Result<(), EncodeError>
        ensures given { let f = encoder (tables set.now) self.old.to in
            Given (Took f self.old.mode) (λ a x e b. Refused f self.old.mode a x (reason_of e) b)
            (coder self.old out.old.items) (c ∷ []) (coder self.new out.new.items) result }
        ensures settings { (self.new.to ≡ self.old.to) × (self.new.mode ≡ self.old.mode) }
        ensures unchanged { OnErr result (self.new ≡ self.old) }
        ensures errors { Explains (code_from (tables set.now) self.old (c ∷ [])) out.old out.new result }
        ensures capacity { OnOk result (vec_capacity out.old ≤ vec_capacity out.new) }
    {
        self.shift = self.encode(set, self.shift, c, out)?;
        Ok(())
    }

    /// Appends the code of an ASCII character in ISO-2022-JP from a state, and gives the state that it leads to.
    fn encode_iso2022_ascii(
        &self,
        shift: ShiftState,
        b: u8,
        out: &mut Vec<u8>,
    ) -> Result<ShiftState, EncodeError>
        requires to { self.now.to ≡ Encoding.Iso2022Jp }
        requires ascii { b < 128 }
        ensures { (t : Tables) → Gave (coded (encoder t self.now.to) self.now.mode (shift_of shift) (b ∷ [])) out.old
            out.new result }
    {
        match iso2022_ascii(shift, b) {
            Written::Restore(bytes, next) => {
                append(bytes.as_slice(), out)?;
                write_out(self.mode, iso2022_ascii(next, b), out)
            }
            once => write_out(self.mode, once, out),
        }
    }

    /// Appends the codes of a run of ASCII in ISO-2022-JP one by one, and gives the state that they lead to.
    fn encode_each(&self, run: &[u8], out: &mut Vec<u8>) -> Result<ShiftState, EncodeError>
        requires to { self.now.to ≡ Encoding.Iso2022Jp }
        requires ascii { All (λ b. b < 128) run.now }
        ensures { (t : Tables) → Gave (code_from t self.now run.now) out.old out.new result }
    {
        let mut shift = self.shift;
        for byte in run {
            shift = self.encode_iso2022_ascii(shift, *byte, out)?;
        }
        Ok(shift)
    }

    /// Appends the code of a run of ASCII: outside ISO-2022-JP the run as it is.
    fn encode_ascii(&self, run: &[u8], out: &mut Vec<u8>) -> Result<ShiftState, EncodeError>
        requires { All (λ b. b < 128) run.now }
        ensures { (t : Tables) → Gave (code_from t self.now run.now) out.old out.new result }
    {
        match self.to {
            Encoding::Iso2022Jp => self.encode_each(run, out),
            _ => {
                append(run, out)?;
                Ok(self.shift)
            }
        }
    }

    /// Appends the code of a run of ASCII, in which no index file has a part.
    ///
    /// # Errors
    ///
    /// As `put`, for the first character of the run that has one.
    pub fn put_ascii(&mut self, run: &[u8], out: &mut Vec<u8>) -> Result<(), EncodeError>
        requires { All (λ b. b < 128) run.now }
        ensures given { (t : Tables) → let f = encoder t self.old.to in
            Given (Took f self.old.mode) (λ a x e b. Refused f self.old.mode a x (reason_of e) b)
            (coder self.old out.old.items) run.now (coder self.new out.new.items) result }
        ensures settings { (self.new.to ≡ self.old.to) × (self.new.mode ≡ self.old.mode) }
        ensures unchanged { OnErr result (self.new ≡ self.old) }
        ensures errors { (t : Tables) → Explains (code_from t self.old run.now) out.old out.new result }
        ensures capacity { OnOk result (vec_capacity out.old ≤ vec_capacity out.new) }
    {
        self.shift = self.encode_ascii(run, out)?;
        Ok(())
    }

    /// Puts a character's code after bytes that are held, or appends both, and gives the state that it leads to. This
    /// is for bytes that switch, for references and for errors. It is a function of its own, so that what holds all
    /// other characters is small enough to go into the loop over them.
    #[inline(never)]
    fn hold_otherwise<const LOOP: usize>(
        &self,
        set: &IndexSet,
        shift: ShiftState,
        c: char,
        held: &mut Buffer,
        out: &mut Vec<u8>,
    ) -> Result<ShiftState, EncodeError>
        requires { IsLoopOf LOOP self.now.to }
        ensures { HoldsCode (coded (encoder (tables set.now) self.now.to) self.now.mode (shift_of shift) (c ∷ []))
            out.old
            held.old out.new held.new result }
    {
        let to = encoding_of::<LOOP>(self.to);
        match (written(set, to, shift, c), self.mode) {
            (Written::Unmappable(bytes, next, d), Mode::Html) => {
                held.hold_reference(bytes, d, out)?;
                return Ok(next);
            }
            (Written::Restore(bytes, between), _) => {
                if let Written::Wrote(more, next) = written(set, to, between, c) {
                    held.hold(bytes, out)?;
                    held.hold(more, out)?;
                    return Ok(next);
                }
            }
            _ => {}
        }
        held.flush(out)?;
        self.encode(set, shift, c, out)
    }

    /// Puts the code of a text's start after bytes that are held, or appends both. The start is ASCII in lanes, or else
    /// one character. In html mode, if this one gives a reference or bytes that switch, `push_coded` takes those after
    /// it too. Gives the state that the code leads to, and the rest of the text.
    #[inline(always)]
    fn hold_prefix<'a, const LOOP: usize>(
        &self,
        to: Encoding,
        set: &IndexSet,
        singles: Option<&Pointers>,
        letters: Letters,
        shift: ShiftState,
        text: &'a str,
        held: &mut Buffer,
        out: &mut Vec<u8>,
    ) -> Result<(ShiftState, &'a str), EncodeError>
        requires own { IsLoopOf LOOP self.now.to }
        requires same { to ≡ self.now.to }
        requires some { 0 < length text.now }
        requires singles { IfSome singles (λ p. AreSingles (encoder (tables set.now) to) p.now) }
        requires few { IfSome singles (λ p. FewPointers p.now) }
        requires letters { IfSome singles (λ p. AreLetters p.now letters.low letters.byte letters.count) }
        ensures shorter { IfOk result (λ r. length r.1.now < length text.now) }
        ensures ok { IfOk result (λ r. HeldPrefix (code_from (tables set.now) (shifted self.now (shift_of shift)))
            text.now r.1.now out.old held.old out.new held.new (Ok r.0)) }
        ensures err { IfErr result
            (λ e. (rest : List ℕ) × HeldPrefix (code_from (tables set.now) (shifted self.now (shift_of shift)))
            text.now rest out.old held.old out.new held.new (Err e)) }
    {
        if let Some((lanes, prefix)) = own_prefix(to, shift, text) {
            held.make_room(out)?;
            held.push_prefix(*lanes, prefix);
            return Ok((shift, &text[prefix..]));
        }
        let mut chars = text.chars();
        let Some(c) = chars.next() else {
            unreachable!()
        };
        if let Written::Wrote(bytes, next) = written(set, to, shift, c) {
            held.hold(bytes, out)?;
            return Ok((next, chars.as_str()));
        }
        let next = self.hold_otherwise::<LOOP>(set, shift, c, held, out)?;
        let rest = chars.as_str();
        match self.mode {
            Mode::Html if !starts_in_ascii(rest) => {
                let left = held.push_coded(to, set, singles, letters, next, rest);
                Ok((next, left))
            }
            _ => Ok((next, rest)),
        }
    }

    /// Appends the codes of a text's characters by one of the loops, and gives the state that they lead to. For a
    /// single-byte encoding the table of its pointers is given, so that it is found once a text.
    fn encode_chars<const LOOP: usize>(
        &self,
        set: &IndexSet,
        singles: Option<&Pointers>,
        run: &str,
        out: &mut Vec<u8>,
    ) -> Result<ShiftState, EncodeError>
        requires own { IsLoopOf LOOP self.now.to }
        requires singles { IfSome singles (λ p. AreSingles (encoder (tables set.now) self.now.to) p.now) }
        requires few { IfSome singles (λ p. FewPointers p.now) }
        ensures { Gave (code_from (tables set.now) self.now (chars run.now)) out.old out.new result }
    {
        let to = encoding_of::<LOOP>(self.to);
        let letters = letters_of(singles);
        let mut held = Buffer::new();
        let mut shift = self.shift;
        let mut rest = run;
        while !rest.is_empty() {
            let (next, after) = self.hold_prefix::<LOOP>(
                to, set, singles, letters, shift, rest, &mut held, out,
            )?;
            shift = next;
            rest = held.push_run(to, set, singles, letters, shift, after);
        }
        held.flush(out)?;
        Ok(shift)
    }

    /// Appends a text as it is, where texts are in UTF-8.
    fn encode_utf8(&self, run: &str, out: &mut Vec<u8>) -> Result<ShiftState, EncodeError>
        requires { (self.now.to ≡ Encoding.Utf8)
            ⊎ ((self.now.to ≡ Encoding.Utf16Be) ⊎ (self.now.to ≡ Encoding.Utf16Le)) }
        ensures { (t : Tables) → Gave (code_from t self.now (chars run.now)) out.old out.new result }
    {
        append(run.as_bytes(), out)?;
        Ok(self.shift)
    }

    /// Appends the codes of a text's characters. The choice of the encoding is made once a text.
    fn encode_each_char(
        &self,
        set: &IndexSet,
        run: &str,
        out: &mut Vec<u8>,
    ) -> Result<ShiftState, EncodeError>
        ensures { Gave (code_from (tables set.now) self.now (chars run.now)) out.old out.new result }
    {
        match self.to {
            Encoding::Utf8 | Encoding::Utf16Be | Encoding::Utf16Le => self.encode_utf8(run, out),
            Encoding::ShiftJis => self.encode_chars::<SHIFT_JIS>(set, None, run, out),
            Encoding::EucJp => self.encode_chars::<EUC_JP>(set, None, run, out),
            Encoding::Iso2022Jp => self.encode_chars::<ISO_2022_JP>(set, None, run, out),
            single => {
                let singles = set.pointers(Kind::Single(single));
                self.encode_chars::<OTHERS>(set, singles, run, out)
            }
        }
    }

    /// Appends the code of a text: the text as it is if the encoding is UTF-8.
    fn encode_text(
        &self,
        set: &IndexSet,
        run: &str,
        out: &mut Vec<u8>,
    ) -> Result<ShiftState, EncodeError>
        ensures { Gave (code_from (tables set.now) self.now (chars run.now)) out.old out.new result }
    {
        match self.to {
            Encoding::Utf8 | Encoding::Utf16Be | Encoding::Utf16Le => self.encode_utf8(run, out),
            _ => {
                if are_ascii(run.as_bytes()) {
                    return self.encode_ascii(run.as_bytes(), out);
                }
                self.encode_each_char(set, run, out)
            }
        }
    }

    /// Appends the code of a text.
    ///
    /// # Errors
    ///
    /// As `put`, for the first character of the text that has one.
    pub fn put_text(
        &mut self,
        set: &IndexSet,
        run: &str,
        out: &mut Vec<u8>,
    ) -> Result<(), EncodeError>
        ensures given { let f = encoder (tables set.now) self.old.to in
            Given (Took f self.old.mode) (λ a x e b. Refused f self.old.mode a x (reason_of e) b)
            (coder self.old out.old.items) (chars run.now) (coder self.new out.new.items) result }
        ensures settings { (self.new.to ≡ self.old.to) × (self.new.mode ≡ self.old.mode) }
        ensures unchanged { OnErr result (self.new ≡ self.old) }
        ensures errors { Explains (code_from (tables set.now) self.old (chars run.now)) out.old out.new result }
        ensures capacity { OnOk result (vec_capacity out.old ≤ vec_capacity out.new) }
    {
        self.shift = self.encode_text(set, run, out)?;
        Ok(())
    }

    /// Appends the bytes of the end: in ISO-2022-JP those that switch back to ASCII, where it is not there.
    ///
    /// # Errors
    ///
    /// `AllocError` if `out` could not grow; all is then as it was. In the state `Ascii` it takes no memory.
    pub fn finish(&mut self, out: &mut Vec<u8>) -> Result<(), AllocError>
        ensures ok { OnOk result ((out.new.items ≡ out.old.items ++ encoder_end self.old.shift) × (self.new ≡ shifted
            self.old InAscii)) }
        ensures err { OnErr result ((out.new.items ≡ out.old.items) × (self.new ≡ self.old)) }
        ensures memory { OnErr result (NoRoom out.old (encoder_end self.old.shift)) }
        ensures ascii { self.old.shift ≡ InAscii → IsOk result × (out.new ≡ out.old) }
    {
        match self.shift {
            ShiftState::Ascii => Ok(()),
            ShiftState::Roman | ShiftState::Jis => {
                out.reserve_exact(TO_ASCII.as_slice().len())?;
                fill(TO_ASCII.as_slice(), out);
                self.shift = ShiftState::Ascii;
                Ok(())
            }
        }
    }
}
