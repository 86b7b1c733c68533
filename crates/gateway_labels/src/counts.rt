//! What is counted in a text.
ghost use Rattle.std.specs.Prelude.{◌≡◌, ◌++◌, ◌∷◌, [], ◌==◌, ℕ, List, chars, if◌then◌else◌};
ghost use Rattle.gateway_labels.specs.Classes.{class_of};
ghost use Rattle.gateway_labels.specs.Rule.{is_strange, weight};

use crate::class::Class;
use crate::classes::Classes;

/// What U+FFFD adds to a text's strangeness.
const LOST: u64 = 20;

/// What a character that texts hardly have adds.
const ODD: u64 = 5;

/// What is counted in a text so far: how many characters were lost, and how strange it is.
#[derive(Clone, Copy, Debug, PartialEq, Eq, Drop)]
pub struct Counts {
    /// How many U+FFFD it has.
    pub lost: u64,
    /// The weights of its characters.
    pub strangeness: u64,
    last: char,
    class: Class,
    ghost classed: { class ≡ class_of last },
}

impl Counts {
    ghost use Rattle.gateway_labels.specs.Counted.{IsCounted};

    /// Nothing was counted so far.
    pub fn new() -> Self
        ensures { IsCounted result [] }
    {
        Counts {
            lost: 0,
            strangeness: 0,
            last: ' ',
            class: Class::of(' '),
        }
    }

    /// Goes on with a text.
    pub fn add(&mut self, classes: &mut Classes, text: &str)
        ensures { (before : List ℕ) → IsCounted self.old before → IsCounted self.new (before ++ chars text.now) }
    {
        for c in text.chars() {
            let class = classes.class_of(c);
            self.put(c, class);
        }
    }

    // Goes on with a character of this class.
    fn put(&mut self, c: char, class: Class)
        requires { class ≡ class_of c }
        ensures { (before : List ℕ) → IsCounted self.old before → IsCounted self.new (before ++ c ∷ []) }
    {
        self.lost = self.lost.saturating_add(losses_in(c));
        let weight = weight_of(self.last, self.class, c, class);
        self.strangeness = self.strangeness.saturating_add(weight);
        self.last = c;
        self.class = class;
    }
}

// How many lost characters this one stands for: one or none.
fn losses_in(c: char) -> u64
    ensures { result ≡ (if c == 0xFFFD then 1 else 0) }
{
    if c == char::REPLACEMENT_CHARACTER {
        1
    } else {
        0
    }
}

// What a character adds to a text's strangeness, behind this last one.
#[tactic(auto, unfolding(crate::specs::Rule::weight))]
fn weight_of(last: char, last_class: Class, c: char, class: Class) -> u64
    requires last { last_class ≡ class_of last }
    requires class { class ≡ class_of c }
    ensures { result ≡ weight (last, c) }
{
    LOST * losses_in(c)
        + ODD * u64::from(class.is_odd())
        + u64::from(class.is_symbol())
        + u64::from(is_strange(last, last_class, c, class))
}

// Whether it is strange that a character stands right behind this last one.
#[tactic(auto, unfolding(crate::specs::Rule::is_strange))]
fn is_strange(last: char, last_class: Class, c: char, class: Class) -> bool
    requires last { last_class ≡ class_of last }
    requires class { class ≡ class_of c }
    ensures { result ≡ is_strange (last, c) }
{
    !(last.is_ascii() && c.is_ascii()) && last_class.meets(class)
}
