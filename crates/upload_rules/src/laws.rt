//! Laws about the definitions. The functions do nothing; their contracts are the laws.

ghost use Rattle.std.specs.Prelude.{◌≡◌, ◌++◌, ◌+◌, ℕ, List, [], Bool, false, length, Option, Some, None};
ghost use Rattle.enc_model.specs.Indexes.{IndexSet};
ghost use Rattle.upload_rules.specs.Store.{Upload, find, upload_of, text_of, text_with, with_length, patched};
ghost use Rattle.upload_rules.specs.Store.{is_complete, accepted_count};
ghost use Rattle.upload_rules.specs.World.{World, Patch};
ghost use Rattle.upload_rules.specs.Grown.{IsGrown};

/// An equal count of accepted bytes means equal bytes. If the offset of an open patch is still the upload's count, the
/// upload is the one that the patch began at, except that a length may have been declared since.
pub fn same_offset()
    ensures { (w : World) (d : ℕ) (p : Patch) (u : Upload) → IsGrown w → find d w.patches ≡ Some p
        → upload_of w.store p.number ≡ Some u
        → accepted_count u ≡ accepted_count p.began
        → (declare : Option ℕ) × (u ≡ with_length p.began declare) }
{}

/// The text of an incomplete upload is a prefix of its text after more bytes, also when these complete it. Once a
/// character is unmappable, it stays so whatever follows.
pub fn text_grows()
    ensures prefix { (x : IndexSet) (u : Upload) (declare : Option ℕ) (bytes : List ℕ) → is_complete u ≡ false
        → (text_with x u [] false).fault ≡ None
        → (more : List ℕ) × (text_of x (patched u declare bytes) ≡ text_of x u ++ more) }
    ensures fault { (x : IndexSet) (u : Upload) (bytes more : List ℕ) (done : Bool) (c : ℕ)
        → (text_with x u bytes false).fault ≡ Some c
        → (text_with x u (bytes ++ more) done).fault ≡ Some c }
{}
