//! The meaning of paired units. The function does nothing; its contract is the law.

ghost use Rattle.std.specs.Prelude.{◌≡◌, ℕ, ◌<◌, Bool, false, List, length};
ghost use Rattle.enc_model.specs.Stream.{steps};
ghost use Rattle.enc_model.specs.Utf16.{Utf16, utf16};
ghost use Rattle.lane_kernels.specs.Units.{ArePaired, last_lead, left_over, units_of, with_carried};
ghost use Rattle.lane_kernels.specs.Steps.{scalars_of};

/// Bytes whose units are paired decode without a fault to the scalars of the units. An odd last byte and a last lead
/// surrogate are carried on.
#[tactic(auto, using(crate::proofs::Walks::paired_decode))]
pub fn paired_units_decode()
    ensures { (big : Bool) (s : Utf16) (bytes : List ℕ) →
        ArePaired s.lead (units_of big (with_carried s.byte bytes)) → 0 < length
        (units_of big (with_carried s.byte bytes)) →
        steps (utf16 big) false s bytes
        ≡ record {
          text = scalars_of s.lead (units_of big (with_carried s.byte bytes));
          state = record {
            byte = left_over (with_carried s.byte bytes);
            lead =
                last_lead (units_of big (with_carried s.byte bytes));
          };
        } }
{}
