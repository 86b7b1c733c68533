//! A sink that drops its text.

ghost use Rattle.enc_unicode.specs.Nowhere.{nowhere_sink};

use enc_feed::Sink;
use std::convert::Infallible;

/// A sink that ignores all text.
#[derive(Drop)]
pub struct Nowhere;

impl Sink for Nowhere {
    type Refusal = Infallible;

    ghost takes = { λ old text new. Unit {0} };

    ghost refuses = { λ old text why new. ⊥ };

    fn put(&mut self, _c: char) -> Result<(), Infallible> {
        Ok(())
    }

    fn ascii(&mut self, _run: &[u8]) -> Result<(), Infallible> {
        Ok(())
    }

    fn text(&mut self, _run: &str) -> Result<(), Infallible> {
        Ok(())
    }

    ghost is_sink = { nowhere_sink };
}
