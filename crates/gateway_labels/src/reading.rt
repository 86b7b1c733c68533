//! The choices for the bytes of an input.
ghost use Rattle.std.specs.Prelude.{◌≡◌, ◌≤◌, ◌<◌, ◌++◌, ◌∷◌, ℕ, List, All, IfErr, IfOk, IsErrOf, OnOk, length, map};
ghost use Rattle.std.specs.Prelude.{take, [], true, false};
ghost use Rattle.std.specs.List.{filter};
ghost use Rattle.std.specs.List.Sorted.{IsPermutation};
ghost use Rattle.std.specs.Io.KnownBytes.{IsAtEnd};
ghost use Rattle.common.specs.Counts.{Counts};
ghost use Rattle.enc_model.specs.Encode.{Tables};
ghost use Rattle.enc_model.specs.Indexes.{offers, tables};
ghost use Rattle.gateway_labels.specs.Labels.{AreLabels, HaveRead, all_encodings};
ghost use Rattle.gateway_labels.specs.Ordered.{IsInOrder};
ghost use Rattle.enc_index.specs.Sets.{IsIndexSet};
ghost use Rattle.enc_laws.specs.WellFormed.{AreBytes};
ghost use Rattle.gateway_labels.specs.Reasons.{IsRefusal, IsUntold};
ghost use Rattle.gateway_labels.specs.declared.unread.Unread.{Unread};
ghost use Rattle.gateway_labels.specs.Trials.{IsChoiceOf, IsTrialOf, tried};

use crate::choice::{Choice, put_in_order};
use crate::desk::Desk;
use crate::trial::Trial;
use crate::unread::Unread;
use enc_index::IndexSet;
use enc_labels::name_of;
use enc_model::Encoding;
use gateway_outside::Input;
use std::alloc::{AllocError, Global};

/// How many bytes of a text are read where not all are.
pub const FIRST: u64 = 1_048_576;

// How many bytes are read at once.
const PIECE: usize = 4096;

// All encodings, by their numbers.
static ENCODINGS: [Encoding; 21] = [
    Encoding::Utf8,
    Encoding::Utf16Be,
    Encoding::Utf16Le,
    Encoding::ShiftJis,
    Encoding::EucJp,
    Encoding::Iso2022Jp,
    Encoding::Ibm866,
    Encoding::Iso8859X2,
    Encoding::Iso8859X5,
    Encoding::Iso8859X15,
    Encoding::Koi8R,
    Encoding::Macintosh,
    Encoding::Windows1250,
    Encoding::Windows1251,
    Encoding::Windows1252,
    Encoding::Windows1253,
    Encoding::Windows1254,
    Encoding::Windows1255,
    Encoding::Windows1256,
    Encoding::Windows1257,
    Encoding::Windows1258,
];

/// The choices for a text, the likeliest first.
#[derive(Drop)]
pub struct Labels {
    /// One for each encoding that the set offers.
    pub choices: Vec<Choice>,
    /// How many bytes were read.
    pub bytes: u64,
    /// Whether the text ended with them.
    pub is_whole: bool,
}

// All encodings, by their numbers.
fn encodings() -> &'static [Encoding]
    ensures { result.now ≡ all_encodings }
{
    ENCODINGS.as_slice()
}

/// The names of the encodings that a set doesn't offer.
pub(crate) fn lacking_in(alloc: Global, set: &IndexSet) -> Result<Vec<&'static str>, AllocError> {
    let mut lacking = Vec::new(alloc);
    for encoding in encodings() {
        if !set.offers(*encoding) {
            lacking.push(name_of(*encoding))?;
        }
    }
    Ok(lacking)
}

/// What each encoding of a set makes of the first bytes that an input has, at most so many: read in pieces, and decoded
/// as an upload is. If there are just so many, they count as the first ones of a longer text. Memory doesn't grow with
/// the text. After an error nothing is known of what was read.
pub fn labels_on<I: Input>(
    alloc: Global,
    set: &IndexSet,
    input: &mut I,
    most: u64,
) -> Result<Labels, Unread>
    ensures labels { IfOk result (AreLabels (tables set.now) (I.remaining input.old) (I.remaining input.new)) }
    ensures offered { IfOk result (λ labels. IsPermutation (filter (offers set.now) all_encodings)
        (map (λ choice. choice.encoding) labels.choices.items)) }
    ensures order { IfOk result (λ labels. IsInOrder labels.choices.items) }
    ensures most { IfOk result (λ labels. labels.bytes ≤ most) }
    ensures part { IfOk result (λ labels. labels.is_whole ≡ false → labels.bytes ≡ most) }

    // An encoding makes a text of any bytes. `Input` is answered exactly where the input refused.
    ensures refused { IfErr result IsRefusal }
    ensures io { Counts (IsErrOf result Unread.Input) (I.refusals input.old) (I.refusals input.new) }
{
    // only for what it says of the set
    let _ = set.to_area(0);
    let mut trials = trials_of(alloc, set, encodings())?;
    let mut desk = Desk::new(alloc)?;
    let (bytes, is_whole) = read_all(set, &mut desk, &mut trials, input, most)?;
    let mut choices = end_all(alloc, set, &mut desk, trials, is_whole)?;
    put_in_order(&mut choices)?;
    Ok(Labels {
        choices,
        bytes,
        is_whole,
    })
}

// A trial of each of these encodings that a set offers.
fn trials_of(
    alloc: Global,
    set: &IndexSet,
    encodings: &[Encoding],
) -> Result<Vec<Trial>, AllocError>
    ensures trials { (t : Tables) → IfOk result (λ trials. All (λ trial. IsTrialOf t trial []) trials.items) }
    ensures offered { IfOk result (λ trials. map tried trials.items ≡ filter (offers set.now) encodings.now) }
{
    let mut trials = Vec::new(alloc);
    for encoding in encodings {
        if set.offers(*encoding) {
            trials.push(Trial::new(alloc, *encoding))?;
        }
    }
    Ok(trials)
}

// Reads to the end, or so many bytes: how many, and whether the end came.
fn read_all<I: Input>(
    set: &IndexSet,
    desk: &mut Desk,
    trials: &mut Vec<Trial>,
    input: &mut I,
    most: u64,
) -> Result<(u64, bool), Unread>
    ensures read { All (λ trial. IsTrialOf (tables set.now) trial []) trials.old.items → IfOk result
        (λ read. HaveRead (tables set.now) trials.new.items (I.remaining input.old) (I.remaining input.new) read.0) }
    ensures end { IfOk result (λ read. read.1 ≡ true → IsAtEnd (I.remaining input.new)) }
    ensures same { OnOk result (map tried trials.new.items ≡ map tried trials.old.items) }
    ensures most { IfOk result (λ read. read.0 ≤ most) }
    ensures part { IfOk result (λ read. read.1 ≡ false → read.0 ≡ most) }
    ensures told { IsIndexSet set.now → All (λ trial. IsTrialOf (tables set.now) trial []) trials.old.items
        → IfErr result IsRefusal }
    ensures io { Counts (IsErrOf result Unread.Input) (I.refusals input.old) (I.refusals input.new) }
{
    let mut bytes = 0;
    let mut piece = [0; PIECE];
    while bytes < most {
        let part = &mut piece[..room_for(most - bytes)];
        let count = input.read_piece(part)?;
        if count == 0 {
            return Ok((bytes, true));
        }
        feed_all(set, desk, trials, front(part, count))?;
        bytes += count as u64;
    }
    Ok((bytes, false))
}

// How many bytes are read at once where so many may come, which is at least one.
fn room_for(most: u64) -> usize
    requires { 0 < most }
    ensures some { 0 < result }
    ensures few { result ≤ 4096 }
    ensures within { result ≤ most }
{
    if most < PIECE as u64 {
        most as usize
    } else {
        PIECE
    }
}

// So many bytes at the front.
fn front(part: &[u8], count: usize) -> &[u8]
    requires { count ≤ length part.now }
    ensures { result.now ≡ take count part.now }
{
    &part[..count]
}

// Each reads a piece.
fn feed_all(
    set: &IndexSet,
    desk: &mut Desk,
    trials: &mut Vec<Trial>,
    piece: &[u8],
) -> Result<(), Unread>
    ensures same { OnOk result (map tried trials.new.items ≡ map tried trials.old.items) }
    ensures fed { (input : List ℕ) → All (λ trial. IsTrialOf (tables set.now) trial input) trials.old.items
        → OnOk result (All (λ trial. IsTrialOf (tables set.now) trial (input ++ piece.now)) trials.new.items) }
    ensures told { (input : List ℕ) → IsIndexSet set.now → AreBytes input
        → All (λ trial. IsTrialOf (tables set.now) trial input) trials.old.items
        → IfErr result (λ unread. unread ≡ Unread.NoMemory) }
    ensures untold { IfErr result IsUntold }
    ensures bytes { AreBytes piece.now }
{
    for trial in trials.iter_mut() {
        trial.feed(set, desk, piece)?;
    }
    Ok(())
}

// What they made of the bytes, which end here if they are whole.
fn end_all(
    alloc: Global,
    set: &IndexSet,
    desk: &mut Desk,
    trials: Vec<Trial>,
    is_whole: bool,
) -> Result<Vec<Choice>, Unread>
    ensures same { IfOk result
        (λ choices. map (λ choice. choice.encoding) choices.items ≡ map tried trials.items) }
    ensures choices { (input : List ℕ) → All (λ trial. IsTrialOf (tables set.now) trial input) trials.items
        → IfOk result (λ choices. All (λ choice. IsChoiceOf (tables set.now) choice input is_whole) choices.items) }
    ensures told { (input : List ℕ) → IsIndexSet set.now → AreBytes input
        → All (λ trial. IsTrialOf (tables set.now) trial input) trials.items
        → IfErr result (λ unread. unread ≡ Unread.NoMemory) }
    ensures untold { IfErr result IsUntold }
{
    let mut choices = Vec::new(alloc);
    for trial in trials {
        let choice = trial.end(set, desk, is_whole)?;
        add_choice(&mut choices, choice)?;
    }
    Ok(choices)
}

fn add_choice(choices: &mut Vec<Choice>, choice: Choice) -> Result<(), AllocError>
    ensures { OnOk result (choices.new.items ≡ choices.old.items ++ choice ∷ []) }
{
    choices.push(choice)?;
    Ok(())
}
