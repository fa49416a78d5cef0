//! Why a call is refused, and the number of each refusal.

ghost use Rattle.recipes.specs.Refusals.{draft_cause, draft_number, draft_text, element_cause, element_number, element_text};
ghost use Rattle.std.specs.Prelude.{◌≡◌, Some};

use std::error::Error;
use std::fmt;

/// Why an element is not changed.
#[derive(Clone, Copy, PartialEq, Eq, Debug)]
pub enum ElementRefusal {
    /// An offset or the amount is outside its limits.
    Outside = 6,
    /// A place stands there already.
    Taken = 7,
    /// No place stands there.
    Missing = 8,
    /// No standard shape has that number.
    UnknownShape = 9,
    /// The order index is not lawful for the element's places.
    UnlawfulOrder = 10,
}

impl ElementRefusal {
    /// The number of the refusal.
    pub fn number(&self) -> u32
        ensures { result ≡ element_number self.now }
    {
        *self as u32
    }

    /// The cause in words.
    fn cause(&self) -> &'static str
        ensures { result.now ≡ element_cause self.now }
    {
        match self {
            ElementRefusal::Outside => "an offset or the amount is outside its limits",
            ElementRefusal::Taken => "a place stands there already",
            ElementRefusal::Missing => "no place stands there",
            ElementRefusal::UnknownShape => "no standard shape has that number",
            ElementRefusal::UnlawfulOrder => "the order index is not lawful for the places",
        }
    }
}

/// The number and the cause in words.
impl fmt::Display for ElementRefusal {
    ghost output = { λ refusal. Some (element_text refusal) };

    fn fmt<W: fmt::Write>(&self, f: &mut fmt::Formatter<W>) -> fmt::Result {
        write!(f, "{}: {}", self.number(), self.cause())
    }
}

impl Error for ElementRefusal {}

/// Why a step is not added to a draft, or a draft makes no recipe.
#[derive(Clone, Copy, PartialEq, Eq, Debug)]
pub enum DraftRefusal {
    /// The letter is none of E, D, O and C.
    UnknownLetter = 11,
    /// The draft has 4 steps, or as many as declared.
    Full = 12,
    /// The draft has fewer steps than declared.
    TooFew = 19,
}

impl DraftRefusal {
    /// The number of the refusal.
    pub fn number(&self) -> u32
        ensures { result ≡ draft_number self.now }
    {
        *self as u32
    }

    /// The cause in words.
    fn cause(&self) -> &'static str
        ensures { result.now ≡ draft_cause self.now }
    {
        match self {
            DraftRefusal::UnknownLetter => "the letter is none of E, D, O and C",
            DraftRefusal::Full => "the draft has 4 steps, or as many as declared",
            DraftRefusal::TooFew => "the draft has fewer steps than declared",
        }
    }
}

/// The number and the cause in words.
impl fmt::Display for DraftRefusal {
    ghost output = { λ refusal. Some (draft_text refusal) };

    fn fmt<W: fmt::Write>(&self, f: &mut fmt::Formatter<W>) -> fmt::Result {
        write!(f, "{}: {}", self.number(), self.cause())
    }
}

impl Error for DraftRefusal {}
