//! The weighted median of a list of codes, by any selector.
ghost use Rattle.std.specs.Prelude.{◌≡◌, ℕ, Some, length};
ghost use Rattle.selectors.specs.Entries.{weigh};
ghost use Rattle.selectors.specs.Median.{Median, AllPut, median_number, median_text, put_count};
ghost use Rattle.selectors.specs.Theorems.{AnswerHasWeight, OneAnswer};

use crate::entries::Entry;
use crate::refusals::{PutRefusal, SelectRefusal};
use crate::selector::Selector;
use std::error::Error;
use std::fmt;

/// Why there is no median.
#[derive(Clone, Copy, PartialEq, Eq, Debug)]
pub enum MedianRefusal {
    /// The entry at this index is refused by the selector.
    Refused(usize, PutRefusal),
    /// There are no entries.
    NoEntries,
}

impl MedianRefusal {
    /// The refusal's number.
    pub fn number(self) -> u32
        ensures { result ≡ median_number self }
    {
        match self {
            MedianRefusal::Refused(_, refusal) => refusal.number(),
            MedianRefusal::NoEntries => SelectRefusal::Unranked.number(),
        }
    }
}

/// The number and the cause in words, and which entry is refused.
impl fmt::Display for MedianRefusal {
    ghost output = { λ refusal. Some (median_text refusal) };

    fn fmt<W: fmt::Write>(&self, f: &mut fmt::Formatter<W>) -> fmt::Result {
        match self {
            MedianRefusal::Refused(index, refusal) => write!(f, "{refusal} (entry {index})"),
            MedianRefusal::NoEntries => write!(f, "{}: there are no entries", self.number()),
        }
    }
}

impl Error for MedianRefusal {}

/// The least code such that the codes up to it weigh at least half of all entries together. The selector holds the
/// entries afterwards, up to the one that was refused.
pub fn weighted_median<S: Selector>(
    selector: &mut S,
    entries: &[Entry],
) -> Result<u32, MedianRefusal>
    requires { S.ordered selector.old }
    ensures answer { Median entries.now (S.range selector.old) result }
    ensures weights { let put = put_count entries.now result in
        (c : ℕ) → S.weight selector.new c ≡ weigh entries.now put c }
    ensures range_kept { S.range selector.new ≡ S.range selector.old }
    ensures in_order { S.ordered selector.new }
    ensures one_answer { OneAnswer }
    ensures has_weight { AnswerHasWeight }
{
    selector.empty();
    for (index, entry) in entries.iter().enumerate() {
        selector
            .put(entry.code, entry.weight)
            .map_err(|refusal| MedianRefusal::Refused(index, refusal))?;
    }
    let half = selector.total().div_ceil(2);
    selector.select(half).map_err(|_| MedianRefusal::NoEntries)
}
