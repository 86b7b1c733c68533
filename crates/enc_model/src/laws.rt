//! Laws about the definitions. The functions do nothing; their contracts are the laws.

ghost use Rattle.std.specs.Prelude.{◌≡◌, ◌++◌, List, ℕ, Bool, true, false, None};
ghost use Rattle.enc_model.specs.declared.Encoding.{Encoding};
ghost use Rattle.enc_model.specs.Stream.{PutsBack};
ghost use Rattle.enc_model.specs.Index.{Index};
ghost use Rattle.enc_model.specs.Utf8.{utf8};
ghost use Rattle.enc_model.specs.Utf16.{utf16};
ghost use Rattle.enc_model.specs.Japanese.{single, shift_jis, euc_jp, iso2022};
ghost use Rattle.enc_model.specs.Encode.{Tables};
ghost use Rattle.enc_model.specs.Decode.{Decoding, decoding, after_run, decoded, advance, conclude};
ghost use Rattle.enc_model.specs.Transcode.{Transcoder, IsStateAt, stepped, added, so_far};

/// The steps over a byte are its answer, and then the steps over the bytes that it restores, put back first.
pub fn restored_first()
    ensures utf8 { PutsBack utf8 }
    ensures utf16 { (big : Bool) → PutsBack (utf16 big) }
    ensures single { (index : Index) → PutsBack (single index) }
    ensures shift_jis { (jis0208 : Index) → PutsBack (shift_jis jis0208) }
    ensures euc_jp { (jis0208 jis0212 : Index) → PutsBack (euc_jp jis0208 jis0212) }
    ensures iso2022 { (jis0208 : Index) → PutsBack (iso2022 jis0208) }
{}

/// The steps over b ++ c are those over b, and then those over c from the state after b.
#[tactic(auto, using(crate::proofs::Pieces::decoding_append))]
pub fn in_any_cut()
    ensures { (t : Tables) (ended : Bool) (s : Decoding) (b c : List ℕ) →
        decoding t ended s (b ++ c) ≡ after_run (decoding t false s b).text
        (decoding t ended (decoding t false s b).state c) }
{}

/// Decoding with BOM sniffing can be continued after any bytes.
#[tactic(auto, using(crate::proofs::Pieces::advance_more, crate::proofs::Pieces::conclude_all))]
pub fn with_a_bom()
    ensures more { (t : Tables) (e : Encoding) (b c : List ℕ) → advance t e (decoded t e b false) c ≡ decoded t e
        (b ++ c) false }
    ensures end { (t : Tables) (e : Encoding) (b : List ℕ) → conclude t e (decoded t e b false) ≡ decoded t e b true }
{}

/// After any bytes, the text grows by what a piece adds, and the next state is the one after all bytes.
pub fn text_grows()
    ensures text { (t : Tables) (s : Transcoder) (b c : List ℕ) → IsStateAt t s b
        → (so_far t s (b ++ c)).bytes ≡ (so_far t s b).bytes ++ (added t s c).bytes }
    ensures fault { (t : Tables) (s : Transcoder) (b c : List ℕ) → IsStateAt t s b
        → (so_far t s (b ++ c)).fault ≡ (added t s c).fault }
    ensures next { (t : Tables) (s : Transcoder) (b c : List ℕ) → IsStateAt t s b → (added t s c).fault ≡ None
        → IsStateAt t (stepped t s c) (b ++ c) }
{}
