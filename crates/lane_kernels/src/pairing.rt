//! UTF-16 in blocks of 32 units, across pieces.

ghost use Rattle.std.specs.Prelude.{◌≡◌, ◌↔◌, ◌-◌, ◌*◌, [], ◌∷◌, IsTrue, true, false, Some, None};
ghost use Rattle.std.specs.Bool.{OnTrue, OnFalse};
ghost use Rattle.enc_model.specs.Stream.{steps};
ghost use Rattle.enc_model.specs.declared.Answer.TheVariants.{Error};
ghost use Rattle.enc_model.specs.Utf16.{Utf16, utf16, utf16_start};
ghost use Rattle.lane_kernels.specs.Orders.{is_big};
ghost use Rattle.lane_kernels.specs.Units.{IsCarried, ArePaired, last_lead, lead_of, left_over};
ghost use Rattle.lane_kernels.specs.Units.{units_of, with_carried};
ghost use Rattle.lane_kernels.specs.Steps.{step_text, unit_fault, unit_scalar};

use crate::order::Order;
use crate::units::{are_paired, lead_in, left_after, paired, unit_in, units_after};
use std::marker::Model;
use std::simd::prelude::*;

/// The result of one byte.
#[derive(Clone, Copy, Debug, PartialEq, Eq)]
pub struct Step {
    /// Whether an unpaired surrogate was found. It precedes the scalar.
    pub fault: bool,
    /// The character that the byte completes.
    pub scalar: Option<char>,
}

/// The state between pieces: the first byte of a unit, and a lead surrogate.
#[derive(Drop)]
pub struct Pairing {
    odd: Option<u8>,
    lead: Option<u16>,
}

impl Model for Pairing {
    ghost Value = { Utf16 };

    ghost view = { λ s. record { byte = s.odd; lead = s.lead } };

    ghost invariant = { λ s. IsCarried s.lead };
}

impl Pairing {
    /// Nothing is carried.
    pub fn new() -> Self
        ensures { result ≡ utf16_start }
    {
        Pairing {
            odd: None,
            lead: None,
        }
    }

    /// The state with this first byte of a unit and this lead surrogate.
    pub fn carrying(odd: Option<u8>, lead: Option<u16>) -> Self
        requires { IsCarried lead }
        ensures { result ≡ record { byte = odd; lead = lead } }
    {
        Pairing { odd, lead }
    }

    /// The carried byte, the first of a unit.
    pub fn odd(&self) -> Option<u8>
        ensures { result ≡ self.now.byte }
    {
        self.odd
    }

    /// The carried lead surrogate.
    pub fn lead(&self) -> Option<u16>
        ensures value { result ≡ self.now.lead }
        ensures surrogate { IsCarried result }
    {
        self.lead
    }

    /// Makes 32 units of the carried byte, if there is one, and the 64 bytes. Returns whether they are paired, given
    /// the carried lead. If so, an odd last byte and a last lead are carried on; otherwise the state is unchanged. The
    /// units are written in both cases.
    pub fn block(&mut self, order: Order, bytes: &[u8; 64], units: &mut [u16; 32]) -> bool
        ensures units { units.new ≡ units_of (is_big order) (with_carried self.old.byte bytes.now) }
        ensures paired { IsTrue result ↔ ArePaired self.old.lead
            (units_of (is_big order) (with_carried self.old.byte bytes.now)) }
        ensures carried { OnTrue result
            (self.new ≡ record {
              byte = left_over (with_carried self.old.byte bytes.now);
              lead =
                  last_lead (units_of (is_big order) (with_carried self.old.byte bytes.now));
            }) }
        ensures unchanged { OnFalse result (self.new ≡ self.old) }
    {
        let lanes = units_after(order, self.odd, bytes);
        *units = lanes.to_array();
        if !are_paired(self.lead, lanes) {
            return false;
        }
        self.odd = left_after(self.odd, bytes);
        self.lead = lead_in(units[31]);
        true
    }

    /// Reads a unit after the carried lead.
    fn unit(&mut self, unit: u16) -> Step
        requires { self.old.byte ≡ None }
        ensures fault { result.fault ≡ unit_fault self.old.lead unit }
        ensures scalar { result.scalar ≡ unit_scalar self.old.lead unit }
        ensures state { self.new ≡ record { byte = None; lead = lead_of unit } }
    {
        let before = self.lead;
        self.lead = lead_in(unit);
        match (before, unit) {
            (Some(lead), 0xDC00..=0xDFFF) => Step {
                fault: false,
                scalar: Some(paired(lead, unit)),
            },
            (None, 0xDC00..=0xDFFF) => Step {
                fault: true,
                scalar: None,
            },
            (_, 0xD800..=0xDBFF) => Step {
                fault: before.is_some(),
                scalar: None,
            },
            _ => Step {
                fault: before.is_some(),
                scalar: char::from_u32(unit as u32),
            },
        }
    }

    /// Reads one byte as the decoder does, with restored bytes read again.
    pub fn tail(&mut self, order: Order, byte: u8) -> Step
        ensures fault { IsTrue result.fault ↔ (utf16 (is_big order) self.old (Some byte)).answer ≡ Error }
        ensures text { step_text result ≡ (steps (utf16 (is_big order)) false self.old (byte ∷ [])).text }
        ensures state { self.new ≡ (steps (utf16 (is_big order)) false self.old (byte ∷ [])).state }
    {
        let Some(first) = self.odd else {
            self.odd = Some(byte);
            return Step {
                fault: false,
                scalar: None,
            };
        };
        self.odd = None;
        self.unit(unit_in(order, first, byte))
    }
}
