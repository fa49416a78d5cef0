//! Why a tone is not made.
ghost use Rattle.std.specs.Prelude.{◌≡◌, Some};
ghost use Rattle.tones.specs.Refusals.{refusal_number, refusal_text};

use std::error::Error;
use std::fmt;

/// Why a tone is not made from its parts.
#[derive(Clone, Copy, PartialEq, Eq, Debug)]
pub enum ToneRefusal {
    /// A part is outside its limits.
    OutsideLimits = 1,
}

impl ToneRefusal {
    /// The number of this refusal.
    pub fn number(self) -> u32
        ensures { result ≡ refusal_number self }
    {
        self as u32
    }
}

impl fmt::Display for ToneRefusal {
    ghost output = { λ refusal. Some (refusal_text refusal) };

    fn fmt<W: fmt::Write>(&self, f: &mut fmt::Formatter<W>) -> fmt::Result {
        write!(f, "{}: a part is outside its limits", self.number())
    }
}

impl Error for ToneRefusal {}
