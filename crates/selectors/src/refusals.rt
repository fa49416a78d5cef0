//! The causes for which a call of a selector is refused, each with its number.
ghost use Rattle.std.specs.Prelude.{◌≡◌, Some};
ghost use Rattle.selectors.specs.Calls.{put_cause, put_number, put_text, select_cause, select_number, select_text};

use std::error::Error;
use std::fmt;

/// Why a put is refused, in the order of the checks.
#[derive(Clone, Copy, PartialEq, Eq, Debug)]
pub enum PutRefusal {
    /// The weight is 0, or the code is not below the range.
    Unfit = 2,
    /// 64 codes have weight, and this one has none.
    Full = 3,
    /// The total would pass 65,535.
    Heavy = 4,
}

impl PutRefusal {
    /// The refusal's number.
    pub fn number(self) -> u32
        ensures { result ≡ put_number self }
    {
        self as u32
    }

    /// The cause in words.
    fn cause(&self) -> &'static str
        ensures { result.now ≡ put_cause self.now }
    {
        match self {
            PutRefusal::Unfit => "the weight is 0, or the code is not below the range",
            PutRefusal::Full => "64 codes have weight, and this one has none",
            PutRefusal::Heavy => "the total would pass 65,535",
        }
    }
}

/// The number and the cause in words.
impl fmt::Display for PutRefusal {
    ghost output = { λ refusal. Some (put_text refusal) };

    fn fmt<W: fmt::Write>(&self, f: &mut fmt::Formatter<W>) -> fmt::Result {
        write!(f, "{}: {}", self.number(), self.cause())
    }
}

impl Error for PutRefusal {}

/// Why a select is refused.
#[derive(Clone, Copy, PartialEq, Eq, Debug)]
pub enum SelectRefusal {
    /// The rank is 0 or above the total.
    Unranked = 5,
}

impl SelectRefusal {
    /// The refusal's number.
    pub fn number(self) -> u32
        ensures { result ≡ select_number self }
    {
        self as u32
    }

    /// The cause in words.
    fn cause(&self) -> &'static str
        ensures { result.now ≡ select_cause self.now }
    {
        match self {
            SelectRefusal::Unranked => "the rank is 0 or above the total",
        }
    }
}

/// The number and the cause in words.
impl fmt::Display for SelectRefusal {
    ghost output = { λ refusal. Some (select_text refusal) };

    fn fmt<W: fmt::Write>(&self, f: &mut fmt::Formatter<W>) -> fmt::Result {
        write!(f, "{}: {}", self.number(), self.cause())
    }
}

impl Error for SelectRefusal {}
