//! The meaning of an index file. The function does nothing; its contract is the law.

ghost use Rattle.std.specs.Prelude.{◌≡◌, ◌↔◌, ℕ, List, Some, Ok, Err, Contains};
ghost use Rattle.enc_model.specs.Index.{Index, code};
ghost use Rattle.enc_index.specs.declared.kind.Kind.{Kind};
ghost use Rattle.enc_index.specs.declared.kind.ReadError.{ReadError};
ghost use Rattle.enc_index.specs.Files.{pointers_of, lines_of, pairs_of_file};
ghost use Rattle.enc_laws.specs.IndexFiles.{Give, AreGood, IsFirstBad};

/// An index file is valid exactly if each line that isn't ignored gives a pair in range and no pointer occurs twice. A
/// pair is then in the index exactly if a line gives it. Otherwise the error names the first line that breaks this.
pub fn files_are_maps()
    ensures good { (kind : Kind) (bytes : List ℕ) (index : Index) → pairs_of_file kind bytes ≡ Ok index
        → AreGood (pointers_of kind) (lines_of bytes) }
    ensures read { (kind : Kind) (bytes : List ℕ) → AreGood (pointers_of kind) (lines_of bytes)
        → (index : Index) × (pairs_of_file kind bytes ≡ Ok index) }
    ensures pairs { (kind : Kind) (bytes : List ℕ) (index : Index) → pairs_of_file kind bytes ≡ Ok index
        → (p c : ℕ) → Contains index (p, c) ↔ Give (lines_of bytes) p c }
    ensures code { (kind : Kind) (bytes : List ℕ) (index : Index) → pairs_of_file kind bytes ≡ Ok index
        → (p c : ℕ) → (code index p ≡ Some c) ↔ Give (lines_of bytes) p c }
    ensures first_bad { (kind : Kind) (bytes : List ℕ) (e : ReadError) → pairs_of_file kind bytes ≡ Err e
        → IsFirstBad (pointers_of kind) (lines_of bytes) e }
{}
