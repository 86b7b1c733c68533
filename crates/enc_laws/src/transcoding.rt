//! Laws of transcoding piece by piece. The functions do nothing; their contracts are the laws.

ghost use Rattle.std.specs.Prelude.{◌≡◌, ◌++◌, ℕ, List, true, Some, None};
ghost use Rattle.enc_model.specs.Encode.{Tables};
ghost use Rattle.enc_model.specs.Decode.{text};
ghost use Rattle.enc_model.specs.Transcode.{Transcoder, IsStateAt, so_far, added, added_end, stepped};
ghost use Rattle.enc_laws.specs.Resumed.{IsUnpackedFrom};

/// The text with its end is the text so far, followed by what the end adds. Its fault is the one of the end, if any.
pub fn text_ends()
    ensures text { (t : Tables) (s : Transcoder) (b : List ℕ) → IsStateAt t s b
        → (text t s.from s.to s.mode b true).bytes ≡ (so_far t s b).bytes ++ (added_end t s).bytes }
    ensures fault { (t : Tables) (s : Transcoder) (b : List ℕ) → IsStateAt t s b
        → (text t s.from s.to s.mode b true).fault ≡ (added_end t s).fault }
{}

/// A transcoder unpacked from another's state bytes equals that one. If it is fed b and ended after a, the whole text
/// is the encoding of the decoding of a ++ b, wherever the cut lies: in a character, an escape sequence or a BOM. A
/// fault in b is the text's fault, and the text stops there.
pub fn fed_on_from_state_bytes()
    ensures same { (s later : Transcoder) → IsUnpackedFrom s later → later ≡ s }
    ensures text { (t : Tables) (s later : Transcoder) (a b : List ℕ) → IsStateAt t s a → IsUnpackedFrom s later
        → (added t later b).fault ≡ None → (text t s.from s.to s.mode (a ++ b) true).bytes
        ≡ (so_far t s a).bytes ++ ((added t later b).bytes ++ (added_end t (stepped t later b)).bytes) }
    ensures fault { (t : Tables) (s later : Transcoder) (a b : List ℕ) → IsStateAt t s a → IsUnpackedFrom s later
        → (added t later b).fault ≡ None → (text t s.from s.to s.mode (a ++ b) true).fault
        ≡ (added_end t (stepped t later b)).fault }
    ensures refused { (t : Tables) (s later : Transcoder) (a b : List ℕ) → IsStateAt t s a → IsUnpackedFrom s later
        → (c : ℕ) → (added t later b).fault ≡ Some c → ((text t s.from s.to s.mode (a ++ b) true).fault ≡ Some c)
        × ((text t s.from s.to s.mode (a ++ b) true).bytes ≡ (so_far t s a).bytes ++ (added t later b).bytes) }
    ensures next { (t : Tables) (s later : Transcoder) (a b : List ℕ) → IsStateAt t s a → IsUnpackedFrom s later
        → (added t later b).fault ≡ None → IsStateAt t (stepped t later b) (a ++ b) }
{}
