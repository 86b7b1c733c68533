//! The transcoder.

ghost use Rattle.std.specs.Prelude.{◌≡◌, ◌≢◌, ◌++◌, List, [], ℕ, Some, None, true, false, OnOk, IfErr, IfSome};
ghost use Rattle.std.specs.Prelude.{MatchOption, IsErrOf, IsTrue, ◌↔◌};
ghost use Rattle.enc_model.specs.Decode.{text};
ghost use Rattle.enc_model.specs.Encode.{Tables};
ghost use Rattle.enc_model.specs.Indexes.{tables};
ghost use Rattle.enc_model.specs.Transcode as model;
ghost use Rattle.enc_model.specs.Transcode.{IsStateAt, added, added_end, so_far};
ghost use Rattle.enc_encode.specs.State.{EncoderState};
ghost use Rattle.enc_stream.specs.Progress.{progress_of};
ghost use Rattle.enc_stream.specs.Stage.{phase_at};
ghost use Rattle.enc_stream.specs.TranscoderState.{is_done, start, stepped_on, ended_state, IsOutput, RefusedAs};
ghost use Rattle.enc_stream.specs.StateBytes.{IsShiftIn, IsValidState, encoding_number, mode_number, shift_number};
ghost use Rattle.enc_stream.specs.StateBytes.{transcoder_state};
ghost use Rattle.enc_stream.specs.StateBytes.{state_bytes};

use crate::error::TranscodeError;
use crate::numbers::{
    encoding_at, mode_at, number_of_encoding, number_of_mode, number_of_shift, shift_at,
};
use crate::progress::Progress;
use crate::sniff::Held;
use crate::stage::Stage;
use crate::written::{transcode, write_end};
use enc_encode::{Encoder, ShiftState};
use enc_index::IndexSet;
use enc_model::{Encoding, Mode};
use std::marker::Model;
use std::mem;

/// A decoder and an encoder as one value. It takes the bytes of a text in one encoding, in any pieces, and gives the
/// bytes of the same text in another.
///
/// Two bytes of Shift_JIS that are cut between them, as UTF-8. Only 32 bytes are stored at the cut:
///
/// ```
/// let mut out = Vec::new(alloc);
/// let mut before = Transcoder::new(Encoding::ShiftJis, Encoding::Utf8, Mode::Html);
/// before.feed(&set, b"\x82", &mut out)?;
/// let stored = before.pack();
///
/// let mut after = Transcoder::unpack(&stored).expect(rt, "state bytes");
/// after.feed(&set, b"\xA0", &mut out)?;
/// after.finish(&set, &mut out)?;
/// assert_eq!(rt; out.as_slice(), "\u{3042}".as_bytes());
/// ```
#[derive(Drop)]
pub struct Transcoder {
    from: Encoding,
    encoder: Encoder,
    stage: Stage,
}

impl Model for Transcoder {
    ghost use Rattle.enc_stream.specs.TranscoderState.{TranscoderState};

    ghost Value = { TranscoderState };

    ghost use Rattle.enc_stream.specs.Stage.{phase_at, is_spent_at};

    ghost view = { λ s. record {
      transcoder = record {
        from = s.from;
        to = s.encoder.to;
        mode = s.encoder.mode;
        phase = phase_at s.stage;
        shift =
            s.encoder.shift;
      };
      spent = is_spent_at s.stage;
    } };

    ghost use Rattle.std.specs.Prelude.{◌≡◌, false};
    ghost use Rattle.enc_stream.specs.StateBytes.{IsFitting};

    ghost invariant = { λ s. is_spent_at s.stage ≡ false → IsFitting
        (record {
          from = s.from;
          to = s.encoder.to;
          mode = s.encoder.mode;
          phase = phase_at s.stage;
          shift =
              s.encoder.shift;
        }) };
}

/// The encoder with this output encoding, mode and state, each given by its number.
fn encoder_at(to: u8, mode: u8, shift: u8) -> Option<Encoder>
    ensures output { IfSome result (λ e. IsOutput e.to) }
    ensures same { (e : EncoderState) → IsOutput e.to → encoding_number e.to ≡ to → mode_number e.mode ≡ mode
        → shift_number e.shift ≡ shift → result ≡ Some e }
{
    let to = encoding_at(to)?;
    if let Encoding::Utf16Be | Encoding::Utf16Le = to {
        return None;
    }
    Some(Encoder::resume(to, mode_at(mode)?, shift_at(shift)?))
}

/// Whether the encoder may be in this state: outside ASCII only while it encodes ISO-2022-JP.
fn is_encoder_in(stage: &Stage, encoder: Encoder) -> bool
    ensures { IsTrue result ↔ IsShiftIn (phase_at stage.now) encoder.to encoder.shift }
{
    encoder.shift() == ShiftState::Ascii
        || matches!(stage, Stage::During(_)) && encoder.to() == Encoding::Iso2022Jp
}

impl Transcoder {
    /// A transcoder that has read nothing. `to` is an output encoding (Encoding Standard, section 4.3), which UTF-16
    /// isn't.
    pub fn new(from: Encoding, to: Encoding, mode: Mode) -> Self
        requires { IsOutput to }
        ensures value { result ≡ start from to mode }
        ensures nothing_read { (t : Tables) → IsStateAt t result.transcoder [] }
    {
        Transcoder {
            from,
            encoder: Encoder::new(to, mode),
            stage: Stage::Before(Held::Nothing),
        }
    }

    /// A transcoder after the end of an empty text, as `new` and `finish` make it. An upload of length 0 begins with
    /// it.
    pub fn ended(from: Encoding, to: Encoding, mode: Mode) -> Self
        requires { IsOutput to }
        ensures { result ≡ ended_state (start from to mode) }
    {
        let encoder = Encoder::new(to, mode);
        Transcoder {
            from,
            encoder,
            stage: Stage::Over,
        }
    }

    /// A copy of the transcoder. It allocates nothing.
    pub fn copy(&self) -> Self
        ensures { result ≡ self.now }
    {
        Transcoder {
            from: self.from,
            encoder: self.encoder,
            stage: self.stage.copy(),
        }
    }

    /// The encoding of its bytes by their label. A BOM may put another one in effect.
    pub fn from(&self) -> Encoding
        ensures { result ≡ self.now.transcoder.from }
    {
        self.from
    }

    /// The encoding of its text.
    pub fn to(&self) -> Encoding
        ensures { result ≡ self.now.transcoder.to }
    {
        self.encoder.to()
    }

    /// The error mode for characters that `to` lacks.
    pub fn mode(&self) -> Mode
        ensures { result ≡ self.now.transcoder.mode }
    {
        self.encoder.mode()
    }

    /// Whether a refusal, `NoMemory` or `Unencodable`, spent it. The end doesn't.
    pub fn is_spent(&self) -> bool
        ensures { result ≡ self.now.spent }
    {
        matches!(self.stage, Stage::Spent)
    }

    /// How far it has come. A spent one is reported as ended.
    pub fn progress(&self) -> Progress
        ensures { result ≡ progress_of self.now.transcoder.phase }
    {
        self.stage.progress()
    }

    /// Whether it takes no more bytes.
    pub(crate) fn is_done(&self) -> bool
        ensures { result ≡ is_done self.now }
    {
        matches!(self.stage, Stage::Over | Stage::Spent)
    }

    /// Its 32 state bytes, from which `unpack` makes it again. Their form is the gateway's own:
    ///
    /// - 0, 1, 2: the numbers of the source encoding and the output encoding, 0 to 20 in the order of `Encoding`; the
    /// mode, 0 for html and 1 for fatal.
    /// - 3: 0 before a BOM is decided, 1 from then on, 2 after the end.
    /// - 4 on, before the BOM is decided: the count of held bytes, and the bytes.
    /// - 4, from then on: the number of the encoding in effect. 5 on: the state of its decoder. UTF-8: the count of
    /// bytes of an unfinished character, and the bytes. UTF-16: 1 for an odd byte plus 2 for a lead surrogate; the
    /// byte; the surrogate, high byte first. Shift_JIS: the lead or 0. EUC-JP: the lead or 0; 1 if it is one of
    /// jis0212. ISO-2022-JP: 0 to 3 for the sets ASCII, Roman, katakana and jis0208, 4 after a lead, 5 after 1B and 6
    /// after one more byte; the output state, 0 to 3; the lead or 0; the flag.
    /// - 16: the encoder's state, 0 for ASCII, 1 for Roman, 2 for jis0208.
    ///
    /// All others are 0.
    #[tactic(auto, using(crate::proofs::Bytes::packed))]
    pub fn pack(&self) -> [u8; 32]
        requires { self.now.spent ≡ false }
        ensures bytes { result ≡ state_bytes self.now.transcoder }
        ensures valid { IsValidState self.now.transcoder }
    {
        let [first, second, third, fourth, fifth] = self.stage.pack();
        let mut bytes = [0; 32];
        bytes[0] = number_of_encoding(self.from);
        bytes[1] = number_of_encoding(self.encoder.to());
        bytes[2] = number_of_mode(self.encoder.mode());
        bytes[3] = self.stage.phase();
        bytes[4] = first;
        bytes[5] = second;
        bytes[6] = third;
        bytes[7] = fourth;
        bytes[8] = fifth;
        bytes[16] = number_of_shift(self.encoder.shift());
        bytes
    }

    /// The transcoder with these state bytes. Bytes of no state may be taken for another's.
    fn read(bytes: &[u8; 32]) -> Option<Self>
        ensures ready { IfSome result (λ t. t.spent ≡ false) }
        ensures same { (s : model.Transcoder) → IsValidState s → state_bytes s ≡ bytes.now
            → result ≡ Some (transcoder_state s) }
    {
        let [
            from,
            to,
            mode,
            phase,
            first,
            second,
            third,
            fourth,
            fifth,
            ..
        ] = *bytes;
        let from = encoding_at(from)?;
        let encoder = encoder_at(to, mode, bytes[16])?;
        let stage = Stage::unpack(from, phase, [first, second, third, fourth, fifth])?;
        if !is_encoder_in(&stage, encoder) {
            return None;
        }
        Some(Transcoder {
            from,
            encoder,
            stage,
        })
    }

    /// The transcoder with these state bytes, or None if no transcoder has them. Each state has exactly one spelling.
    pub fn unpack(bytes: &[u8; 32]) -> Option<Self>
        ensures unpacked { MatchOption result ((s : model.Transcoder) → IsValidState s → state_bytes s ≢ bytes.now)
            (λ t. (t.spent ≡ false) × IsValidState t.transcoder × (state_bytes t.transcoder ≡ bytes.now)) }
        ensures only { (s : model.Transcoder) → IsValidState s → state_bytes s ≡ bytes.now
            → result ≡ Some (transcoder_state s) }
    {
        let transcoder = Self::read(bytes)?;
        if transcoder.pack() == *bytes {
            Some(transcoder)
        } else {
            None
        }
    }

    /// Decodes a piece (Encoding Standard, sections 4 and 6) and appends the encoded text to `out`. An unfinished
    /// character waits for the next piece or the end. All calls have to be given the same index set.
    ///
    /// # Errors
    ///
    /// `Spent` if an earlier call was refused or the end was decoded; nothing changes. `NoMemory` if `out` had no room
    /// and could not grow. `Unencodable(c)` for the first unmappable code point in fatal mode. After these two `out`
    /// has grown by a prefix of the text, and the transcoder is spent.
    pub fn feed(
        &mut self,
        set: &IndexSet,
        piece: &[u8],
        out: &mut Vec<u8>,
    ) -> Result<(), TranscodeError>
        ensures spent { IsErrOf result TranscodeError.Spent ↔ IsTrue (is_done self.old) }
        ensures added { OnOk result
            (out.new.items ≡ out.old.items ++ (added (tables set.now) self.old.transcoder piece.now).bytes) }
        ensures no_fault { OnOk result ((added (tables set.now) self.old.transcoder piece.now).fault ≡ None) }
        ensures next { OnOk result (self.new ≡ stepped_on (tables set.now) self.old piece.now) }
        ensures text { (b : List ℕ) → IsStateAt (tables set.now) self.old.transcoder b → OnOk result
            (IsStateAt (tables set.now) self.new.transcoder (b ++ piece.now)
            × ((before : List ℕ) → out.old.items ≡ before ++ (so_far (tables set.now) self.old.transcoder b).bytes
            → out.new.items ≡ before ++ (so_far (tables set.now) self.old.transcoder (b ++ piece.now)).bytes)) }
        ensures refused { IfErr result
            (λ e. RefusedAs e (added (tables set.now) self.old.transcoder piece.now) out.old out.new self.old
            self.new) }
    {
        if self.is_done() {
            return Err(TranscodeError::Spent);
        }
        let stage = mem::replace(&mut self.stage, Stage::Spent);
        let (next, encoder) = transcode(stage, self.from, self.encoder, set, piece, out)?;
        self.stage = next;
        self.encoder = encoder;
        Ok(())
    }

    /// Decodes the end: an unfinished character is an error, and the encoder's final bytes are appended.
    ///
    /// # Errors
    ///
    /// Those of `feed`. After an `Ok` every call answers `Spent`.
    pub fn finish(&mut self, set: &IndexSet, out: &mut Vec<u8>) -> Result<(), TranscodeError>
        ensures spent { IsErrOf result TranscodeError.Spent ↔ IsTrue (is_done self.old) }
        ensures added { OnOk result
            (out.new.items ≡ out.old.items ++ (added_end (tables set.now) self.old.transcoder).bytes) }
        ensures no_fault { OnOk result ((added_end (tables set.now) self.old.transcoder).fault ≡ None) }
        ensures over { OnOk result (self.new ≡ ended_state self.old) }
        ensures text { (b : List ℕ) → IsStateAt (tables set.now) self.old.transcoder b → OnOk result
            (((text (tables set.now) self.old.transcoder.from self.old.transcoder.to self.old.transcoder.mode b
            true).fault ≡ None)
            × ((before : List ℕ) → out.old.items ≡ before ++ (so_far (tables set.now) self.old.transcoder b).bytes
            → out.new.items ≡ before ++ (text (tables set.now) self.old.transcoder.from self.old.transcoder.to
            self.old.transcoder.mode b true).bytes)) }
        ensures refused { IfErr result
            (λ e. RefusedAs e (added_end (tables set.now) self.old.transcoder) out.old out.new self.old self.new) }
    {
        if self.is_done() {
            return Err(TranscodeError::Spent);
        }
        let stage = mem::replace(&mut self.stage, Stage::Spent);
        self.encoder = write_end(stage, self.from, self.encoder, set, out)?;
        self.stage = Stage::Over;
        Ok(())
    }
}
