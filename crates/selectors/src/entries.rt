//! Codes with their weights, as the gate and the ladder keep them.
ghost use Rattle.std.specs.Prelude.{◌≡◌, ℕ, ◌≤◌, ◌⊎◌, Err, MatchResult, Ok, length, take, OnErr};
ghost use Rattle.selectors.specs.Bag.{below};
ghost use Rattle.selectors.specs.declared.limits.TheConstants.{MOST_CODES, MOST_WEIGHT, WIDE_RANGE};
ghost use Rattle.selectors.specs.Calls.{put_bag, put_number, put_refusal, put_refused};
ghost use Rattle.selectors.specs.Entries.{Fit, Found, Rising, Seat, Weighty, bag, weigh};
ghost use Rattle.selectors.specs.Tally.{Tally};

use crate::limits::{MOST_CODES, WIDE_RANGE, heavier};
use crate::refusals::PutRefusal;

/// A code and its weight.
#[derive(Clone, Copy)]
pub struct Entry {
    pub code: u32,
    pub weight: u32,
}

impl Entry {
    /// Fills the places that hold no entry.
    pub const BLANK: Entry = Entry { code: 0, weight: 0 };

    /// The entry, where a put may take it: it has weight, and its code is below the range.
    pub(crate) fn checked(code: u32, weight: u32) -> Result<Entry, PutRefusal>
        ensures { MatchResult result (λ e. (e ≡ record { code = code; weight = weight }) × Fit e)
            (λ r. (put_number r ≡ 2) × ((weight ≡ 0) ⊎ (WIDE_RANGE ≤ code))) }
    {
        if weight == 0 || code >= WIDE_RANGE {
            return Err(PutRefusal::Unfit);
        }
        Ok(Entry { code, weight })
    }
}

/// The codes that have weight, with what they weigh. The places are a fixed array: there are at most
/// 64 codes, and nothing here may allocate.
#[derive(Clone, Copy)]
pub struct Entries {
    places: [Entry; MOST_CODES],
    count: usize,
    sum: u32,
    ghost size: { length places ≡ MOST_CODES },
    ghost weighty: { Weighty places count },
    ghost tally: { Tally (weigh places count) WIDE_RANGE count sum },
}

impl Entries {
    ghost use Rattle.selectors.specs.Weights.{entries_weight};

    /// No entries.
    pub fn new() -> Entries
        ensures none { result.count ≡ 0 }
        ensures weights { (c : ℕ) → entries_weight result c ≡ 0 }
    {
        Entries {
            places: [Entry::BLANK; MOST_CODES],
            count: 0,
            sum: 0,
        }
    }

    /// The entries, in the order of their places.
    pub fn as_slice(&self) -> &[Entry]
        ensures items { result.now ≡ take self.now.count self.now.places }
        ensures same_bag { bag result.now ≡ entries_weight self.now }
        ensures rising { Rising self.now.places self.now.count
            → Rising result.now (length result.now) }
    {
        &self.places[..self.count]
    }

    /// How many entries there are.
    pub fn len(&self) -> usize
        ensures { result ≡ self.now.count }
    {
        self.count
    }

    /// The sum of all weights.
    pub fn total(&self) -> u32
        ensures answer { result ≡ below (entries_weight self.now) WIDE_RANGE }
        ensures light { result ≤ MOST_WEIGHT }
    {
        self.sum
    }

    /// Takes all entries away.
    pub fn clear(&mut self)
        ensures none { self.new.count ≡ 0 }
        ensures weights { (c : ℕ) → entries_weight self.new c ≡ 0 }
    {
        self.count = 0;
        self.sum = 0;
    }

    /// Adds the weight to the entry at this place, which has this code.
    pub fn raise(&mut self, at: usize, entry: Entry) -> Result<(), PutRefusal>
        requires { Fit entry × Found (take self.old.count self.old.places) entry.code (Ok at) }
        ensures answer { put_refused result
            ≡ put_refusal (entries_weight self.old) WIDE_RANGE entry.code entry.weight }
        ensures weights { (c : ℕ) → entries_weight self.new c
            ≡ put_bag (put_refused result) (entries_weight self.old) entry.code entry.weight c }
        ensures kept { OnErr result (self.new ≡ self.old) }
        ensures rising { Rising self.old.places self.old.count
            → Rising self.new.places self.new.count }
    {
        self.sum = heavier(self.sum, entry.weight)?;
        self.places[at].weight += entry.weight;
        Ok(())
    }

    /// Inserts the entry at this place, and moves those from there on one place on.
    pub fn insert(&mut self, at: usize, entry: Entry) -> Result<(), PutRefusal>
        requires { Fit entry × Found (take self.old.count self.old.places) entry.code (Err at) }
        ensures answer { put_refused result
            ≡ put_refusal (entries_weight self.old) WIDE_RANGE entry.code entry.weight }
        ensures weights { (c : ℕ) → entries_weight self.new c
            ≡ put_bag (put_refused result) (entries_weight self.old) entry.code entry.weight c }
        ensures kept { OnErr result (self.new ≡ self.old) }
        ensures rising { Seat (take self.old.count self.old.places) entry.code (Err at)
            → Rising self.old.places self.old.count
            → Rising self.new.places self.new.count }
    {
        if self.count == MOST_CODES {
            return Err(PutRefusal::Full);
        }
        self.sum = heavier(self.sum, entry.weight)?;
        self.places.copy_within(at..self.count, at + 1);
        self.places[at] = entry;
        self.count += 1;
        Ok(())
    }
}
