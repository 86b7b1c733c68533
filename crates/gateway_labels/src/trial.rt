//! What an encoding makes of some bytes.
ghost use Rattle.std.specs.Prelude.{◌≡◌, ◌++◌, ℕ, List, IfErr, IfOk, OnOk, []};
ghost use Rattle.enc_model.specs.Encode.{Tables};
ghost use Rattle.enc_model.specs.Indexes.{tables};
ghost use Rattle.enc_index.specs.Sets.{IsIndexSet};
ghost use Rattle.enc_laws.specs.WellFormed.{AreBytes};
ghost use Rattle.gateway_labels.specs.Reasons.{IsUntold};
ghost use Rattle.gateway_labels.specs.declared.unread.Unread.{Unread};

use crate::choice::Choice;
use crate::desk::Desk;
use crate::measure::Measure;
use crate::unread::Unread;
use enc_index::IndexSet;
use enc_laws::{text_ends, utf8_at_every_moment};
use enc_model::{Encoding, Mode};
use enc_stream::Transcoder;
use sha2::Digest;
use std::alloc::Global;

/// What an encoding makes of the bytes of a text, piece by piece.
#[derive(Drop)]
pub struct Trial {
    /// What an upload in UTF-8 would be transcoded by.
    pub transcoder: Transcoder,
    /// What is known of the text.
    pub measure: Measure,
}

impl Trial {
    ghost use Rattle.gateway_labels.specs.Measured.{IsMeasured};
    ghost use Rattle.gateway_labels.specs.Trials.{IsChoiceOf, IsTrialOf, text_as, tried};

    /// Nothing was read so far.
    pub fn new(alloc: Global, encoding: Encoding) -> Self
        ensures nothing { (t : Tables) → IsTrialOf t result [] }
        ensures encoding { tried result ≡ encoding }
    {
        Trial {
            transcoder: Transcoder::new(encoding, Encoding::Utf8, Mode::Html),
            measure: Measure::new(alloc),
        }
    }

    /// Reads a piece.
    pub fn feed(&mut self, set: &IndexSet, desk: &mut Desk, piece: &[u8]) -> Result<(), Unread>
        ensures read { (input : List ℕ) → IsTrialOf (tables set.now) self.old input
            → OnOk result (IsTrialOf (tables set.now) self.new (input ++ piece.now)) }
        ensures encoding { OnOk result (tried self.new ≡ tried self.old) }
        ensures told { (input : List ℕ) → IsIndexSet set.now → AreBytes input
            → IsTrialOf (tables set.now) self.old input → IfErr result (λ unread. unread ≡ Unread.NoMemory) }
        ensures untold { IfErr result IsUntold }
    {
        utf8_at_every_moment();
        desk.text.clear();
        self.transcoder.feed(set, piece, &mut desk.text)?;
        self.measure.add(&mut desk.classes, &desk.text)?;
        Ok(())
    }

    /// What it made of the bytes, which end here if they are whole.
    pub fn end(self, set: &IndexSet, desk: &mut Desk, is_whole: bool) -> Result<Choice, Unread>
        ensures text { (input : List ℕ) → IsTrialOf (tables set.now) self input
            → IfOk result (λ choice. IsChoiceOf (tables set.now) choice input is_whole) }
        ensures encoding { IfOk result (λ choice. choice.encoding ≡ tried self) }
        ensures told { (input : List ℕ) → IsIndexSet set.now → AreBytes input → IsTrialOf (tables set.now) self input
            → IfErr result (λ unread. unread ≡ Unread.NoMemory) }
        ensures untold { IfErr result IsUntold }
    {
        let encoding = self.transcoder.from();
        let Measure {
            counts,
            hasher,
            sample,
        } = self.into_measure(set, desk, is_whole)?;
        Ok(Choice {
            encoding,
            lost: counts.lost,
            strangeness: counts.strangeness,
            digest: hasher.finalize(),
            line: sample.into_line(),
        })
    }

    // What is known of the text of the bytes, which end here if they are whole.
    fn into_measure(
        self,
        set: &IndexSet,
        desk: &mut Desk,
        is_whole: bool,
    ) -> Result<Measure, Unread>
        ensures known { (input : List ℕ) → IsTrialOf (tables set.now) self input
            → IfOk result (λ measure. IsMeasured measure (text_as (tables set.now) (tried self) input is_whole)) }
        ensures told { (input : List ℕ) → IsIndexSet set.now → AreBytes input → IsTrialOf (tables set.now) self input
            → IfErr result (λ unread. unread ≡ Unread.NoMemory) }
        ensures untold { IfErr result IsUntold }
    {
        utf8_at_every_moment();
        text_ends();
        let Trial {
            mut transcoder,
            mut measure,
        } = self;
        if !is_whole {
            return Ok(measure);
        }
        desk.text.clear();
        transcoder.finish(set, &mut desk.text)?;
        measure.add(&mut desk.classes, &desk.text)?;
        Ok(measure)
    }
}
