//! The equations of decoding and encoding. The functions do nothing; their contracts are the laws.

ghost use Rattle.std.specs.Prelude.{◌≡◌, ℕ, List, [], ◌∷◌, Bool, None};
ghost use Rattle.enc_model.specs.declared.Encoding.{Encoding};
ghost use Rattle.enc_model.specs.declared.Mode.{Mode};
ghost use Rattle.enc_model.specs.Index.{Index};
ghost use Rattle.enc_model.specs.Utf8.{utf8};
ghost use Rattle.enc_model.specs.Utf16.{utf16};
ghost use Rattle.enc_model.specs.Japanese.{single, shift_jis, euc_jp, iso2022};
ghost use Rattle.enc_model.specs.Encode.{Tables, Shift, coded, encoder, went};
ghost use Rattle.enc_laws.specs.Equations.{IsByAnswers};

/// A decoder's run consists of its handler's answers to the bytes and to the end. The bound on calls in the definition
/// of `steps` never cuts it short.
pub fn decodes_by_answers()
    ensures utf8 { IsByAnswers utf8 }
    ensures utf16 { (big : Bool) → IsByAnswers (utf16 big) }
    ensures single { (index : Index) → IsByAnswers (single index) }
    ensures shift_jis { (jis0208 : Index) → IsByAnswers (shift_jis jis0208) }
    ensures euc_jp { (jis0208 jis0212 : Index) → IsByAnswers (euc_jp jis0208 jis0212) }
    ensures iso2022 { (jis0208 : Index) → IsByAnswers (iso2022 jis0208) }
{}

/// An encoder's run consists of its answers to the code points, with references and code points to be read again put
/// first. The bound on calls in the definition of `coded` never cuts it short.
pub fn encodes_by_answers()
    ensures none { (t : Tables) (e : Encoding) (mode : Mode) (s : Shift) →
        coded (encoder t e) mode s [] ≡ record { bytes = []; state = s; fault = None } }
    ensures more { (t : Tables) (e : Encoding) (mode : Mode) (s : Shift) (c : ℕ) (cs : List ℕ) →
        coded (encoder t e) mode s (c ∷ cs) ≡ went mode (coded (encoder t e) mode) c cs (encoder t e s c) }
{}
