//! The results of a request's head, and what stays open after it.
ghost use Rattle.std.specs.Prelude.{◌≡◌};
ghost use Rattle.tus_action.specs.Serves.{replied_giving, left_of, given_after};

/// A text of which more is still to be given.
#[derive(Clone, Copy, Debug, PartialEq, Eq, Drop)]
pub struct Giving {
    /// The upload's number.
    pub number: u64,
    /// The text's length in bytes when its reply began. Bytes appended later aren't given.
    pub length: u64,
    /// How many of these bytes were given.
    pub given: u64,
    /// Whether the connection closes after the last of them.
    pub closes: bool,
}

/// The result of asking for more of a text.
#[derive(Clone, Copy, Debug, PartialEq, Eq, Drop)]
pub enum Given {
    /// A piece was given; this much is left.
    Piece(Giving),
    /// The last piece was given.
    Last,
    /// Nothing was given, since the upload was deleted.
    Gone,
}

/// What a request did at its head, and what it left open.
pub enum Done<B> {
    /// It was answered, and nothing is open.
    Replied {
        /// Whether the connection closes.
        closes: bool,
    },
    /// A PATCH began. Its body is still to come.
    Opened(B),
    /// A GET was answered with part of the text. More is to be given.
    Giving(Giving),
}

impl<B> Done<B> {
    /// A reply after which this is left of its text.
    pub(crate) fn giving(given: Given, closes: bool) -> Self
        ensures { result ≡ replied_giving (left_of given) closes }
    {
        match given {
            Given::Piece(giving) => Done::Giving(giving),
            Given::Last | Given::Gone => Done::Replied { closes },
        }
    }
}

impl Giving {
    /// What is left of the text after `count` more bytes.
    pub(crate) fn after(self, count: u64) -> Given
        ensures { result ≡ given_after self count }
    {
        let given = self.given.saturating_add(count);
        if given >= self.length {
            return Given::Last;
        }
        Given::Piece(Giving { given, ..self })
    }
}
