//! A transcoder that takes more bytes.

ghost use Rattle.std.specs.Prelude.{◌≡◌, ◌++◌, true, false, IfErr, IfOk, OnOk, MatchOption, None};
ghost use Rattle.enc_model.specs.Indexes.{tables};
ghost use Rattle.enc_model.specs.Transcode.{added, added_end};
ghost use Rattle.enc_stream.specs.Errors.{error_of};
ghost use Rattle.enc_stream.specs.StateBytes.{IsValidState, state_bytes};
ghost use Rattle.enc_stream.specs.TranscoderState.{is_done, is_phase_over, stepped_on, ended_state, IsPartWritten};

use crate::error::TranscodeError;
use crate::transcoder::Transcoder;
use enc_encode::EncodeError;
use enc_index::IndexSet;
use std::marker::Model;

/// A transcoder that takes more bytes: no call was refused, and the end wasn't decoded. A call gives the next one and
/// leaves this one as it was, so that none is ever spent.
///
/// A character that Shift_JIS lacks, in fatal mode. The transcoder before it can still be ended:
///
/// ```
/// let mut out = Vec::new(alloc);
/// let new = Transcoder::new(Encoding::Utf8, Encoding::ShiftJis, Mode::Fatal);
/// let open = OpenTranscoder::of(new).expect(rt, "a new one");
/// let refused = open.fed(&set, "\u{1F600}".as_bytes(), &mut out);
/// assert!(rt; matches!(refused, Err(EncodeError::Unencodable('\u{1F600}'))));
/// let next = open.fed(&set, b"a", &mut out).expect(rt, "it has a code");
/// let end = next.ended(&set, &mut out).expect(rt, "no memory is needed");
/// assert!(rt; OpenTranscoder::of(end).is_none());
/// ```
#[derive(Drop)]
pub struct OpenTranscoder {
    transcoder: Transcoder,
}

impl Model for OpenTranscoder {
    ghost use Rattle.std.specs.Prelude.{◌≡◌, false};
    ghost use Rattle.enc_stream.specs.TranscoderState.{TranscoderState, is_done};

    ghost Value = { TranscoderState };

    ghost view = { λ o. o.transcoder };

    ghost invariant = { λ o. is_done o.transcoder ≡ false };
}

impl OpenTranscoder {
    /// The transcoder, or None if it takes no more bytes.
    pub fn of(transcoder: Transcoder) -> Option<Self>
        ensures { MatchOption result (is_done transcoder ≡ true) (λ t. t ≡ transcoder) }
    {
        if transcoder.is_done() {
            return None;
        }
        Some(OpenTranscoder { transcoder })
    }

    /// A copy of it. It allocates nothing.
    pub fn copy(&self) -> Self
        ensures { result ≡ self.now }
    {
        OpenTranscoder {
            transcoder: self.transcoder.copy(),
        }
    }

    /// Its 32 state bytes, as `Transcoder::pack` encodes them.
    pub fn pack(&self) -> [u8; 32]
        ensures bytes { result ≡ state_bytes self.now.transcoder }
        ensures valid { IsValidState self.now.transcoder }
        ensures more { is_phase_over self.now.transcoder.phase ≡ false }
    {
        self.transcoder.pack()
    }

    /// The transcoder after another piece, whose encoded text is appended to `out`, as by `Transcoder::feed`.
    ///
    /// # Errors
    ///
    /// `NoMemory` if `out` had no room and could not grow; `Unencodable(c)` for the first unmappable code point in
    /// fatal mode. `out` has grown by a prefix of the text.
    pub fn fed(&self, set: &IndexSet, piece: &[u8], out: &mut Vec<u8>) -> Result<Self, EncodeError>
        ensures added { OnOk result
            (out.new.items ≡ out.old.items ++ (added (tables set.now) self.now.transcoder piece.now).bytes) }
        ensures no_fault { OnOk result ((added (tables set.now) self.now.transcoder piece.now).fault ≡ None) }
        ensures next { IfOk result (λ next. next ≡ stepped_on (tables set.now) self.now piece.now) }
        ensures refused { IfErr result
            (λ e. IsPartWritten (error_of e) (added (tables set.now) self.now.transcoder piece.now) out.old out.new) }
    {
        let mut next = self.transcoder.copy();
        match next.feed(set, piece, out) {
            Ok(()) => Ok(OpenTranscoder { transcoder: next }),
            Err(TranscodeError::NoMemory) => Err(EncodeError::NoMemory),
            Err(TranscodeError::Unencodable(c)) => Err(EncodeError::Unencodable(c)),
            Err(TranscodeError::Spent) => unreachable!(),
        }
    }

    /// The transcoder after the end, whose encoded text is appended to `out`, as by `Transcoder::finish`.
    ///
    /// # Errors
    ///
    /// Those of `fed`.
    pub fn ended(&self, set: &IndexSet, out: &mut Vec<u8>) -> Result<Transcoder, EncodeError>
        ensures added { OnOk result
            (out.new.items ≡ out.old.items ++ (added_end (tables set.now) self.now.transcoder).bytes) }
        ensures no_fault { OnOk result ((added_end (tables set.now) self.now.transcoder).fault ≡ None) }
        ensures over { IfOk result (λ end. end ≡ ended_state self.now) }
        ensures refused { IfErr result
            (λ e. IsPartWritten (error_of e) (added_end (tables set.now) self.now.transcoder) out.old out.new) }
    {
        let mut end = self.transcoder.copy();
        match end.finish(set, out) {
            Ok(()) => Ok(end),
            Err(TranscodeError::NoMemory) => Err(EncodeError::NoMemory),
            Err(TranscodeError::Unencodable(c)) => Err(EncodeError::Unencodable(c)),
            Err(TranscodeError::Spent) => unreachable!(),
        }
    }
}
