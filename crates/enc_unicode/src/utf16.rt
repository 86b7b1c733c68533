//! The UTF-16 decoder.

ghost use Rattle.std.specs.Prelude.{◌≡◌, OnOk, true, false, ◌-◌, []};
ghost use Rattle.enc_unicode.specs.Utf16State.{InOrder};
ghost use Rattle.lane_kernels.specs.Orders.{is_big};
ghost use Rattle.lane_kernels.specs.Units.{IsCarried};
ghost use Rattle.enc_model.specs.Stream.{steps};
ghost use Rattle.enc_model.specs.Sink.{Given};
ghost use Rattle.enc_model.specs.Utf16.{utf16, utf16_start};

use crate::units::Units;
use enc_feed::{Sink, finish};
use lane_kernels::Order;
use std::marker::Model;

/// The UTF-16 decoder (Encoding Standard, section 14.2.1), in one byte order.
#[derive(Drop)]
pub struct Utf16State {
    order: Order,
    units: Units,
}

impl Model for Utf16State {
    ghost Value = { InOrder };

    ghost view = { λ s. record { big = is_big s.order; state = s.units } };
}

impl Utf16State {
    /// A decoder that has read nothing.
    pub fn new(order: Order) -> Self
        ensures { result ≡ record { big = is_big order; state = utf16_start } }
    {
        Utf16State {
            order,
            units: Units::new(),
        }
    }

    /// A decoder with this pending byte and lead surrogate.
    pub fn in_state(order: Order, byte: Option<u8>, lead: Option<u16>) -> Self
        requires { IsCarried lead }
        ensures { result ≡ record { big = is_big order; state = record { byte = byte; lead = lead } } }
    {
        Utf16State {
            order,
            units: Units { byte, lead },
        }
    }

    /// The byte order.
    pub fn order(&self) -> Order
        ensures { is_big result ≡ self.now.big }
    {
        self.order
    }

    /// The pending first byte of a unit.
    pub fn byte(&self) -> Option<u8>
        ensures { result ≡ self.now.state.byte }
    {
        self.units.byte
    }

    /// The pending lead surrogate.
    pub fn lead(&self) -> Option<u16>
        ensures value { result ≡ self.now.state.lead }
        ensures surrogate { IsCarried result }
    {
        self.units.lead
    }

    /// A copy of the state.
    pub fn copy(&self) -> Self
        ensures { result ≡ self.now }
    {
        Utf16State {
            order: self.order,
            units: self.units.copy(),
        }
    }

    /// Decodes a piece into the sink.
    ///
    /// # Errors
    ///
    /// The sink's refusal, at once; nothing is known of the state afterwards.
    pub fn feed<S: Sink>(&mut self, piece: &[u8], sink: &mut S) -> Result<(), S::Refusal>
        ensures given { Given S.takes S.refuses sink.old
            (steps (utf16 self.old.big) false self.old.state piece.now).text sink.new result }
        ensures order { self.new.big ≡ self.old.big }
        ensures state { OnOk result
            (self.new.state ≡ (steps (utf16 self.old.big) false self.old.state piece.now).state) }
    {
        self.units.feed_runs(self.order, piece, sink)
    }

    /// Decodes the end.
    ///
    /// # Errors
    ///
    /// The sink's refusal, at once; nothing is known of the state afterwards.
    pub fn finish<S: Sink>(&mut self, sink: &mut S) -> Result<(), S::Refusal>
        ensures given { Given S.takes S.refuses sink.old (steps (utf16 self.old.big) true self.old.state []).text
            sink.new result }
        ensures order { self.new.big ≡ self.old.big }
        ensures state { OnOk result (self.new.state ≡ (steps (utf16 self.old.big) true self.old.state []).state) }
    {
        finish(&mut self.units, &self.order, sink)
    }
}
