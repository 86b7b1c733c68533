//! The classes of characters that come often.
ghost use Rattle.std.specs.Prelude.{◌≡◌};
ghost use Rattle.gateway_labels.specs.Classes.{class_of};

use crate::class::Class;
use std::alloc::{AllocError, Global};

// How many classes are kept. Characters that differ by less take different places.
const PLACES: usize = 4096;

/// A character whose class is known.
#[derive(Clone, Copy, Debug, Drop)]
struct Known {
    c: char,
    class: Class,
    ghost right: { class ≡ class_of c },
}

/// The classes of the characters that came last.
#[derive(Drop)]
pub struct Classes {
    known: Vec<Known>,
}

impl Classes {
    /// Of no character so far.
    pub fn new(alloc: Global) -> Result<Self, AllocError> {
        let mut known = Vec::with_capacity(alloc, PLACES)?;
        let blank = Known {
            c: ' ',
            class: Class::of(' '),
        };
        for _ in 0..PLACES {
            known.push(blank)?;
        }
        Ok(Classes { known })
    }

    /// The class of a character.
    #[inline(always)]
    pub fn class_of(&mut self, c: char) -> Class
        ensures { result ≡ class_of c }
    {
        let place = c as usize % PLACES;
        if let Some(known) = self.known.get_mut(place) {
            if known.c != c {
                *known = Known {
                    c,
                    class: Class::of(c),
                };
            }
            return known.class;
        }
        Class::of(c)
    }
}
