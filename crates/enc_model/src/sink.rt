//! What takes decoded text.

ghost use Rattle.std.specs.Prelude.{ℕ, ◌<◌, List, [], ◌∷◌, All};
ghost use Rattle.std.specs.Str.{chars};
ghost use Rattle.enc_model.specs.Sink.{Given, IsSink};

/// A taker of decoded text.
pub trait Sink {
    /// Why it takes no more.
    type Refusal;

    // From the first state it takes these scalars and comes to the second.
    ghost takes: { Self → List ℕ → Self → Type 0 };

    // From the first state it refuses some of these scalars for this reason and comes to the second.
    ghost refuses: { Self → List ℕ → Self.Refusal → Self → Type 0 };

    /// Takes a character.
    fn put(&mut self, c: char) -> Result<(), Self::Refusal>
        ensures { Given takes refuses self.old (c ∷ []) self.new result };

    /// Takes a run of ASCII.
    fn ascii(&mut self, run: &[u8]) -> Result<(), Self::Refusal>
        requires { All (λ b. b < 128) run.now }
        ensures { Given takes refuses self.old run.now self.new result };

    /// Takes a text. By default it takes the characters one by one.
    fn text(&mut self, run: &str) -> Result<(), Self::Refusal>
        ensures { Given takes refuses self.old (chars run.now) self.new result }
    {
        for c in run.chars() {
            self.put(c)?;
        }
        Ok(())
    }

    ghost is_sink: { IsSink takes refuses };
}
