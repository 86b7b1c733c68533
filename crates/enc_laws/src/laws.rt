//! Laws of UTF-8. The functions do nothing; their contracts are the laws.

ghost use Rattle.std.specs.Prelude.{◌≡◌, ◌≤◌, ◌++◌, ℕ, List, [], ◌∷◌, Bool, true, false, None, length};
ghost use Rattle.std.specs.List.{concat};
ghost use Rattle.std.specs.Str.{IsUtf8};
ghost use Rattle.enc_model.specs.declared.Encoding.{Encoding};
ghost use Rattle.enc_model.specs.declared.Encoding.TheVariants.{Utf8};
ghost use Rattle.enc_model.specs.declared.Mode.{Mode};
ghost use Rattle.enc_model.specs.Encode.{Tables, encode};
ghost use Rattle.enc_model.specs.Decode.{decode, text};
ghost use Rattle.enc_model.specs.Indexes.{IndexSet, tables};
ghost use Rattle.enc_model.specs.Stream.{steps};
ghost use Rattle.enc_model.specs.Utf8.{utf8, utf8_start};
ghost use Rattle.enc_index.specs.Sets.{IsIndexSet};
ghost use Rattle.enc_laws.specs.Subparts.{is_sequence, is_prefix, segment, segments, segments_text};
ghost use Rattle.enc_laws.specs.WellFormed.{AreBytes, AreScalars, IsWellFormed};

/// Maximal subparts: a well-formed sequence is a segment. Otherwise the segment is the longest prefix of one that
/// begins there, or a single byte if there is none.
#[tactic(auto, using(crate::proofs::Longest::by_segments))]
pub fn longest_subparts()
    ensures sequence { (prefix rest : List ℕ) → is_sequence prefix ≡ true → segment (prefix ++ rest) ≡ prefix }
    ensures longest { (prefix rest : List ℕ) → is_prefix prefix ≡ true
        → length prefix ≤ length (segment (prefix ++ rest)) }
    ensures prefix { (b : ℕ) (bytes : List ℕ) → is_prefix (b ∷ []) ≡ true → is_prefix (segment (b ∷ bytes)) ≡ true }
    ensures single { (b : ℕ) (bytes : List ℕ) → is_prefix (b ∷ []) ≡ false → segment (b ∷ bytes) ≡ b ∷ [] }
{}

/// The text of the UTF-8 decoder is the one of the maximal subparts, ended or not.
#[tactic(auto, using(crate::proofs::Cutting::whole_is, crate::proofs::Cutting::text_is))]
pub fn cut_by_subparts()
    ensures whole { (bytes : List ℕ) → concat (segments bytes) ≡ bytes }
    ensures text { (ended : Bool) (bytes : List ℕ) → (steps utf8 ended utf8_start bytes).text ≡ segments_text ended
        (segments bytes) }
{}

/// A decoder gives scalar values only, whatever bytes it reads.
#[tactic(auto, using(crate::proofs::Texts::decode_scalars))]
pub fn gives_scalars()
    ensures { (x : IndexSet) (e : Encoding) (bytes : List ℕ) (ended : Bool) → IsIndexSet x → AreBytes bytes
        → AreScalars (decode (tables x) e bytes ended) }
{}

/// The UTF-8 encoder's output for scalar values is well-formed, and no scalar value is unmappable.
#[tactic(auto, using(crate::proofs::Texts::encoded_well, crate::proofs::Texts::encoded_fault))]
pub fn writes_well_formed()
    ensures bytes { (t : Tables) (mode : Mode) (scalars : List ℕ) (ended : Bool) → AreScalars scalars
        → IsWellFormed (encode t Utf8 mode scalars ended).bytes }
    ensures fault { (t : Tables) (mode : Mode) (scalars : List ℕ) (ended : Bool)
        → (encode t Utf8 mode scalars ended).fault ≡ None }
{}

/// The UTF-8 decoder gives back the scalar values that the encoder encoded.
#[tactic(auto, using(crate::proofs::Back::reads_back))]
pub fn reads_back()
    ensures { (t : Tables) (mode : Mode) (scalars : List ℕ) (done ended : Bool) → AreScalars scalars
        → (steps utf8 ended utf8_start (encode t Utf8 mode scalars done).bytes).text ≡ scalars }
{}

/// A text that is stored as UTF-8 is well-formed at any time, whatever bytes came, ended or not.
#[tactic(auto, using(crate::proofs::Texts::text_well))]
pub fn well_formed_at_every_moment()
    ensures { (x : IndexSet) (from : Encoding) (mode : Mode) (bytes : List ℕ) (ended : Bool) → IsIndexSet x
        → AreBytes bytes
        → IsWellFormed (text (tables x) from Utf8 mode bytes ended).bytes }
{}

/// It is a text as `str` has it, too, in which no character lacks a code.
#[tactic(auto, using(crate::proofs::Texts::text_utf8, crate::proofs::Texts::text_fault))]
pub fn utf8_at_every_moment()
    ensures utf8 { (x : IndexSet) (from : Encoding) (mode : Mode) (bytes : List ℕ) (ended : Bool) → IsIndexSet x
        → AreBytes bytes → IsUtf8 (text (tables x) from Utf8 mode bytes ended).bytes }
    ensures fault { (t : Tables) (from : Encoding) (mode : Mode) (bytes : List ℕ) (ended : Bool)
        → (text t from Utf8 mode bytes ended).fault ≡ None }
{}
