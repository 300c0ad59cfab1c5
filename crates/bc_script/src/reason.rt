//! Why a line of a trace is refused.
ghost use Rattle.std.specs.Prelude.{◌≡◌};
ghost use Rattle.bc_script.specs.Reason.{number_of};

/// Why a line of a trace is refused. The tests run in this order: a line too many, its length, and
/// then its words from the left, of one word in the order that stands here.
#[derive(Clone, Copy, Debug, PartialEq, Eq, Drop)]
pub enum Reason {
    /// It is line 262,145.
    TooMany,
    /// It has more than 80 bytes.
    Length,
    /// A word that should be a number isn't one or more decimal digits of a value below 2^64.
    Number,
    /// The worker isn't 1 to 16, or isn't served yet.
    Worker,
    /// A word is missing, or is one too many, or isn't a letter that is known.
    Word,
    /// COUNT isn't 1 to 2,048, or FIRST is above 2^40, or STAMP is 0.
    Range,
}

impl Reason {
    /// The number by which it is told.
    pub fn number(self) -> u8
        ensures { result ≡ number_of self }
    {
        match self {
            Reason::Length => 1,
            Reason::Word => 2,
            Reason::Number => 3,
            Reason::Range => 4,
            Reason::Worker => 5,
            Reason::TooMany => 6,
        }
    }
}
