//! A law about open drafts. The function does nothing; its contract is the law.
ghost use Rattle.std.specs.Prelude.{ℕ, List};
ghost use Rattle.enc_model.specs.Indexes.{IndexSet};
ghost use Rattle.spool_texts.specs.Written.{NoneOf, SameOutside};
ghost use Rattle.upload_rules.specs.World.{Patch};
ghost use Rattle.spool_drafts.specs.Drafts.{Carries, list_of, tail_of};
ghost use Rattle.spool_drafts.specs.declared.draft.SpoolDraft.{SpoolDraft};

/// A draft still represents its patch after writes to other blocks: neither those that it reserved nor the one with its
/// upload's last bytes.
pub fn drafts_unchanged()
    ensures { (x : IndexSet) (current current' : ℕ → ℕ) (first : ℕ) (blocks : List ℕ) (p : Patch) (d : SpoolDraft)
        → SameOutside first blocks current current' → NoneOf (list_of d) blocks → NoneOf (tail_of d) blocks
        → Carries x current first p d → Carries x current' first p d }
{}
