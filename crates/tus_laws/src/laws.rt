//! Laws of histories. The functions do nothing; their contracts are the laws.

ghost use Rattle.std.specs.Prelude.{◌≡◌, ◌≤◌, ◌++◌, ◌∷◌, ℕ, List, Option, Some, None, length, slice_get};
ghost use Rattle.upload_rules.specs.declared.errors.UploadRefusal.{UploadRefusal};
ghost use Rattle.upload_rules.specs.declared.errors.UploadRefusal.TheVariants.{NoSuch, Offset};
ghost use Rattle.upload_rules.specs.Store.{Upload, Store, find, upload_of, with_length, patched, accepted_count};
ghost use Rattle.upload_rules.specs.Store.{HasAllBytes, no_uploads};
ghost use Rattle.enc_model.specs.Indexes.{IndexSet};
ghost use Rattle.upload_rules.specs.World.{World};
ghost use Rattle.upload_rules.specs.Calls.{first_patch};
ghost use Rattle.tus_request.specs.Requests.{Request, Patch, Asks};
ghost use Rattle.tus_action.specs.Acts.{acted};
ghost use Rattle.tus_session.specs.Streams.{Asked, cut, heads_of, moments};
ghost use Rattle.tus_session.specs.Turns.{reader};
ghost use Rattle.tus_session.specs.History.{State, Event, Marked, Served, OutOfMemory};
ghost use Rattle.tus_session.specs.History.{Failed, step, history, beginning};
ghost use Rattle.tus_laws.specs.Patches.{DonePatch, IsAccepted, IsRefused, HasBody, SamePlace, Changed, IsAbove};
ghost use Rattle.tus_laws.specs.Cuts.{all_moments, bytes_given, still_to_give, AllSmooth};

/// Of two PATCHes with nonempty bodies that began at one offset of one upload, at most one is accepted, and the other
/// changes nothing. Each later one is refused, with `Offset` while the upload exists and with `NoSuch` once it is
/// deleted. A PATCH began at the offset that it named. The history starts with a next number above those of its
/// uploads, so that no upload gets the number of a deleted one.
pub fn one_winner()
    ensures begins { (w : World) (r : Request) (number offset d : ℕ) (declare : Option ℕ)
        → r.action ≡ Patch number offset declare
        → (acted w (Asks r)).draft ≡ Some d
        → (u : Upload) × (upload_of w.store number ≡ Some u) × (accepted_count u ≡ offset)
        × (find d (acted w (Asks r)).world.patches ≡ Some (first_patch number r.length declare u)) }
    ensures one { (start : State) (past between : List Marked) (e f : Event) (x : DonePatch (history start past) e)
        (y : DonePatch (history start (between ++ (e, Served) ∷ past)) f) → IsAbove start.world.store → SamePlace x y
        → HasBody x → HasBody y → IsAccepted x → IsAccepted y → ⊥ }
    ensures later { (start : State) (past between : List Marked) (e f : Event) (x : DonePatch (history start past) e)
        (y : DonePatch (history start (between ++ (e, Served) ∷ past)) f) → IsAbove start.world.store → SamePlace x y
        → HasBody x → IsAccepted x → (u : Upload) → upload_of y.world.store y.patch.number ≡ Some u
        → IsRefused y Offset }
    ensures gone { (st : State) (e : Event) (x : DonePatch st e) → upload_of x.world.store x.patch.number ≡ None
        → IsRefused x NoSuch }
    ensures loser { (st : State) (e : Event) (x : DonePatch st e) (why : UploadRefusal) → IsRefused x why
        → (step st e Served).state.world.store ≡ st.world.store }
{}

/// An event makes at most one commit: it creates an upload; or an accepted PATCH gives its upload a length, or bytes,
/// or both together; or an existing upload is deleted. An event that isn't served commits nothing.
pub fn one_commit()
    ensures served { (st : State) (e : Event) → Changed st e (step st e Served).state.world.store }
    ensures memory { (st : State) (e : Event) → (step st e OutOfMemory).state.world.store ≡ st.world.store }
    ensures fault { (st : State) (e : Event) → (step st e Failed).state.world.store ≡ st.world.store }
{}

/// An upload's accepted bytes only grow while it exists, and its length stays once it is known. So the same upload with
/// the same count of accepted bytes, at two moments of a history, has the same accepted bytes. A deleted upload never
/// returns. The history starts with a next number above those of its uploads.
pub fn same_offset()
    ensures grows { (start : State) (past later : List Marked) → IsAbove start.world.store → (n : ℕ) (u v : Upload)
        → upload_of (history start past).world.store n ≡ Some u
        → upload_of (history start (later ++ past)).world.store n ≡ Some v
        → (declare : Option ℕ) × (more : List ℕ) × (v ≡ patched u declare more) }
    ensures same { (start : State) (past later : List Marked) → IsAbove start.world.store → (n : ℕ) (u v : Upload)
        → upload_of (history start past).world.store n ≡ Some u
        → upload_of (history start (later ++ past)).world.store n ≡ Some v → accepted_count u ≡ accepted_count v
        → (declare : Option ℕ) × (v ≡ with_length u declare) }
    ensures gone { (start : State) (past between later : List Marked) → IsAbove start.world.store → (n : ℕ) (u : Upload)
        → upload_of (history start past).world.store n ≡ Some u
        → upload_of (history start (between ++ past)).world.store n ≡ None
        → upload_of (history start (later ++ (between ++ past))).world.store n ≡ None }
{}

/// A history over uploads that have all their bytes, such as none at all, leaves each with all bytes that it accepted.
pub fn all_bytes()
    ensures none { (x : IndexSet) → HasAllBytes (no_uploads x) }
    ensures preserved { (start : State) (past : List Marked) → HasAllBytes start.world.store
        → HasAllBytes (history start past).world.store }
{}

/// A number is never used again: the next number is above those of all uploads and never decreases.
#[tactic(auto, using(crate::proofs::Growing::always_above, crate::proofs::Growing::next_grows))]
pub fn new_numbers()
    ensures above { (start : State) (past : List Marked) → IsAbove start.world.store
        → IsAbove (history start past).world.store }
    ensures grows { (start : State) (past later : List Marked)
        → (history start past).world.store.next ≤ (history start (later ++ past)).world.store.next }
{}

/// A call's moments are those of its stream, whatever follows. With i whole requests before the call, the request of
/// its body moment is request i of the stream. The same holds for the head moment among the requests with whole heads,
/// whose bytes and verdicts stay.
pub fn moments_of_streams()
    ensures body { (w : World) (s piece more : List ℕ) (r : Asked) → (moments (reader w) s piece).body ≡ Some r
        → slice_get (cut (reader w) ((s ++ piece) ++ more)).whole (length (cut (reader w) s).whole) ≡ Some r }
    ensures head { (w : World) (s piece more : List ℕ) (r : Asked) → (moments (reader w) s piece).head ≡ Some r
        → (x : Asked) × (slice_get (heads_of (cut (reader w) ((s ++ piece) ++ more)))
        (length (heads_of (cut (reader w) s))) ≡ Some x)
        × (x.head ≡ r.head) × (x.verdict ≡ r.verdict) }
{}

/// It doesn't matter how the streams are cut: two histories from one store with the same moments in the same order give
/// each connection the same bytes, its pending text included, and leave the same uploads. This requires that every
/// event is served, no PATCH is refused for room, no connection is closed because the upload of its text was deleted,
/// and none ends before its text is taken.
#[tactic(auto, using(crate::proofs::Histories::same_bytes, crate::proofs::Histories::same_uploads))]
pub fn any_cut()
    ensures bytes { (m : Store) (blocks : Option ℕ) (past other : List Marked) (c : ℕ)
        → AllSmooth (beginning m blocks) past → AllSmooth (beginning m blocks) other
        → all_moments (beginning m blocks) past ≡ all_moments (beginning m blocks) other
        → bytes_given (beginning m blocks) c past ++ still_to_give ((history (beginning m blocks) past).conns c)
        ≡ bytes_given (beginning m blocks) c other ++ still_to_give ((history (beginning m blocks) other).conns c) }
    ensures uploads { (m : Store) (blocks : Option ℕ) (past other : List Marked) → AllSmooth (beginning m blocks) past
        → AllSmooth (beginning m blocks) other
        → all_moments (beginning m blocks) past ≡ all_moments (beginning m blocks) other
        → (history (beginning m blocks) past).world.store ≡ (history (beginning m blocks) other).world.store }
{}
