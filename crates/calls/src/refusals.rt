//! Why a call on a card is refused, and the number of each refusal.

ghost use Rattle.calls.specs.Refusals.{cause, refusal_number};
ghost use Rattle.std.specs.Prelude.{◌≡◌};

use std::error::Error;
use std::fmt;

/// Why a call on a card is refused.
#[derive(Clone, Copy, PartialEq, Eq, Debug)]
pub enum Refusal {
    /// The width, the height or the number of stages is outside its limits.
    Size,
    /// The memory has another length.
    Memory,
    /// The selector's range is smaller than the number of tones.
    Range,
    /// The card has no size.
    Unopened,
    /// The rectangle or piece is empty, or not wholly on the card.
    Outside,
    /// The number of tones is wrong.
    Count,
    /// The draft has fewer steps than declared.
    TooFewSteps,
    /// The recipe has more stages than the card has room for.
    TooManyStages,
    /// An amount is outside the span of the tones.
    Amount,
    /// The piece meets the last stage's stale area, with the first column met; of a residue or a file, some
    /// stage is stale, with column 0.
    Stale(usize),
    /// The lent bytes are fewer than the file's.
    NoRoom,
}

impl Refusal {
    /// The number of the refusal.
    pub fn number(&self) -> u32
        ensures { result ≡ refusal_number self.now }
    {
        // A match, and not the discriminants: `Stale` carries a column.
        match self {
            Refusal::Size => 13,
            Refusal::Memory => 14,
            Refusal::Range => 15,
            Refusal::Unopened => 16,
            Refusal::Outside => 17,
            Refusal::Count => 18,
            Refusal::TooFewSteps => 19,
            Refusal::TooManyStages => 20,
            Refusal::Amount => 21,
            Refusal::Stale(_) => 22,
            Refusal::NoRoom => 24,
        }
    }

    /// The cause in words.
    fn cause(&self) -> &'static str
        ensures { result.now ≡ cause self.now }
    {
        match self {
            Refusal::Size => "size or stages outside their limits",
            Refusal::Memory => "memory of another length",
            Refusal::Range => "range smaller than the number of tones",
            Refusal::Unopened => "card without size",
            Refusal::Outside => "empty or not wholly on the card",
            Refusal::Count => "wrong count of tones",
            Refusal::TooFewSteps => "fewer steps than declared",
            Refusal::TooManyStages => "more stages than the card has room for",
            Refusal::Amount => "amount outside the span of the tones",
            Refusal::Stale(_) => "stale, first at this column",
            Refusal::NoRoom => "fewer bytes than the file has",
        }
    }
}

/// The number and the cause in words, and where a piece is stale the first column met.
impl fmt::Display for Refusal {
    ghost use Rattle.std.specs.Prelude.{Some};
    ghost use Rattle.calls.specs.Refusals.{refusal_text};

    ghost output = { λ e. Some (refusal_text e) };

    fn fmt<W: fmt::Write>(&self, f: &mut fmt::Formatter<W>) -> fmt::Result {
        match self {
            Refusal::Stale(column) => write!(f, "{}: {}: {column}", self.number(), self.cause()),
            _ => write!(f, "{}: {}", self.number(), self.cause()),
        }
    }
}

impl Error for Refusal {}
