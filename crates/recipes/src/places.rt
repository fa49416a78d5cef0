//! A place of a structuring element, its part and its limits.

ghost use Rattle.recipes.specs.Places.{in_limits, soft, stands_at};
ghost use Rattle.std.specs.Prelude.{◌≡◌};

use std::error::Error;
use std::fmt;
use std::str::FromStr;

/// Offsets are from −3 to 3.
pub const FARTHEST: u32 = 3;

/// Amounts are from −1,024 to 1,024.
pub const MOST_AMOUNT: u32 = 1024;

/// The part of an element that a place belongs to: its core or its soft boundary.
#[derive(Clone, Copy, PartialEq, Eq, Debug)]
pub enum Part {
    Core,
    Soft,
}

/// Reads a part's name.
impl FromStr for Part {
    ghost use Rattle.recipes.specs.Parts.{IsNamed};

    type Err = UnknownPart;

    ghost from_str_gives = { IsNamed };

    fn from_str(name: &str) -> Result<Part, UnknownPart> {
        match name {
            "core" => Ok(Part::Core),
            "soft" => Ok(Part::Soft),
            _ => Err(UnknownPart),
        }
    }
}

/// No part has the name.
#[derive(Clone, Copy, PartialEq, Eq, Debug)]
pub struct UnknownPart;

impl fmt::Display for UnknownPart {
    ghost use Rattle.recipes.specs.Parts.{unknown_text};
    ghost use Rattle.std.specs.Prelude.{Some};

    ghost output = { λ _. Some unknown_text };

    fn fmt<W: fmt::Write>(&self, f: &mut fmt::Formatter<W>) -> fmt::Result {
        f.write_str("neither core nor soft")
    }
}

impl Error for UnknownPart {}

/// A place: its offsets from the origin, its part and its amount.
#[derive(Clone, Copy, PartialEq, Eq, Debug)]
pub struct Place {
    pub dx: i32,
    pub dy: i32,
    pub part: Part,
    pub amount: i32,
}

impl Place {
    /// The origin, in the core, with amount 0.
    pub const ORIGIN: Place = Place {
        dx: 0,
        dy: 0,
        part: Part::Core,
        amount: 0,
    };

    /// Whether the place stands at these offsets.
    pub(crate) fn stands_at(&self, dx: i32, dy: i32) -> bool
        ensures { result ≡ stands_at dx dy self.now }
    {
        self.dx == dx && self.dy == dy
    }

    /// Whether the place belongs to the soft boundary.
    pub(crate) fn is_soft(&self) -> bool
        ensures { result ≡ soft self.now }
    {
        self.part == Part::Soft
    }
}

/// Whether offsets and amount are in their limits.
pub(crate) fn in_limits(dx: i32, dy: i32, amount: i32) -> bool
    ensures { result ≡ in_limits dx dy amount }
{
    dx.unsigned_abs() <= FARTHEST
        && dy.unsigned_abs() <= FARTHEST
        && amount.unsigned_abs() <= MOST_AMOUNT
}
