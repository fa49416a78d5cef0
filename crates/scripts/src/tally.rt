//! How many calls were played, and which lines were not read.

ghost use Rattle.std.specs.Prelude.{◌≡◌, None, Some};
ghost use Rattle.scripts.specs.Shown.{last_line};
ghost use Rattle.scripts.specs.Answers.{first_after, played_after, refused_after, unknown_after};

use crate::answers::{Answer, Fault};
use std::fmt;

/// The calls, those of them that were refused, and the lines that were not read. The counts go
/// round at 2^64.
#[derive(Clone, Copy, Default)]
pub struct Tally {
    pub played: u64,
    pub refused: u64,
    /// The lines that were not read, and those whose files were not.
    pub unknown: u64,
    /// The number of the first of them.
    pub first: Option<u64>,
}

impl Tally {
    /// No lines yet.
    pub fn new() -> Tally
        ensures calls { (result.played ≡ 0) × (result.refused ≡ 0) }
        ensures unknown { (result.unknown ≡ 0) × (result.first ≡ None) }
    {
        Tally::default()
    }

    /// Counts the line of this number by its answer.
    pub fn count(&mut self, answered: &Result<Answer, Fault>, line: u64)
        ensures played { self.new.played ≡ played_after answered.now self.old.played }
        ensures refused { self.new.refused ≡ refused_after answered.now self.old.refused }
        ensures unknown { self.new.unknown ≡ unknown_after answered.now self.old.unknown }
        ensures first { self.new.first ≡ first_after answered.now line self.old.first }
    {
        match answered {
            Ok(_) => self.played = self.played.wrapping_add(1),
            Err(Fault::Memory(_)) => {}
            Err(Fault::Unknown | Fault::Unreadable) => {
                self.unknown = self.unknown.wrapping_add(1);
                self.first = self.first.or(Some(line));
            }
            Err(_) => {
                self.played = self.played.wrapping_add(1);
                self.refused = self.refused.wrapping_add(1);
            }
        }
    }
}

/// What is said after the last line: the tally, and the stale rows of the last card.
#[derive(Clone, Copy)]
pub struct Summary {
    pub tally: Tally,
    pub left: usize,
}

impl fmt::Display for Summary {
    ghost output = { λ s. Some (last_line s) };

    fn fmt<W: fmt::Write>(&self, f: &mut fmt::Formatter<W>) -> fmt::Result {
        let Tally {
            played,
            refused,
            unknown,
            first,
        } = self.tally;
        let left = self.left;
        write!(f, "played {played} calls, {refused} refused, {left} left")?;
        match first {
            Some(first) => write!(f, ", {unknown} unknown, the first in line {first}"),
            None => Ok(()),
        }
    }
}
