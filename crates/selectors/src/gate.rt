//! The gate: entries in any order, and a rank found bit by bit.
ghost use Rattle.std.specs.Prelude.{◌≡◌, ℕ, ◌<◌, ◌≤◌};
ghost use Rattle.selectors.specs.declared.limits.TheConstants.{MOST_WEIGHT, WIDE_RANGE};
ghost use Rattle.selectors.specs.Bag.{below, Ranked};
ghost use Rattle.selectors.specs.Entries.{bag, under};
ghost use Rattle.std.proofs.Common.{rules};

use crate::entries::{Entries, Entry};
use crate::limits::{WIDE_RANGE, ranked};
use crate::refusals::{PutRefusal, SelectRefusal};
use crate::selector::Selector;

/// A selector over the codes below 33,554,432 that keeps the codes that have weight.
#[derive(Clone, Copy)]
pub struct Gate {
    entries: Entries,
}

impl Gate {
    ghost use Rattle.selectors.specs.Weights.{gate_weight};

    /// A gate in which every weight is 0.
    pub fn new() -> Gate
        ensures weights { (c : ℕ) → gate_weight result c ≡ 0 }
    {
        Gate {
            entries: Entries::new(),
        }
    }
}

impl Default for Gate {
    ghost use Rattle.selectors.specs.Weights.{gate_weight};

    ghost is_default = { λ s. (c : ℕ) → gate_weight s c ≡ 0 };

    fn default() -> Gate {
        Gate::new()
    }
}

impl Selector for Gate {
    ghost use Rattle.selectors.specs.Weights.{gate_weight};

    ghost range = { λ _. WIDE_RANGE };

    ghost weight = { gate_weight };

    ghost ordered = { λ _. Unit {0} };

    ghost light = { Prim.search rules };

    ghost few = { Prim.search rules };

    fn range(&self) -> u32 {
        WIDE_RANGE
    }

    fn empty(&mut self) {
        self.entries.clear();
    }

    fn put(&mut self, code: u32, amount: u32) -> Result<(), PutRefusal> {
        let entry = Entry::checked(code, amount)?;
        let held = self.entries.as_slice();
        match held.iter().position(|other| other.code == code) {
            Some(at) => self.entries.raise(at, entry),
            None => self.entries.insert(self.entries.len(), entry),
        }
    }

    fn total(&self) -> u32 {
        self.entries.total()
    }

    fn select(&self, rank: u32) -> Result<u32, SelectRefusal> {
        ranked(rank, self.entries.total())?;
        Ok(narrow(self.entries.as_slice(), rank))
    }
}

/// The code at this rank, bit by bit from the highest: `low` has the bits found with a 0 after them, and `left` is the
/// rank among the codes that begin with the bits found.
fn narrow(entries: &[Entry], rank: u32) -> u32
    requires { let total = below (bag entries.now) WIDE_RANGE in
        (0 < rank) × (rank ≤ total) × (total ≤ MOST_WEIGHT) }
    ensures { Ranked (bag entries.now) rank result }
{
    let mut low = 0;
    let mut left = rank;
    for bit in (0..25u32).rev() {
        let mut lower = 0;
        // All entries, each time: with no early stop and no branch they are added up side by side.
        for entry in entries {
            lower += weight_under(*entry, bit, low);
        }
        if left <= lower {
            low *= 2;
        } else {
            left -= lower;
            low = (low + 1) * 2;
        }
    }
    low / 2
}

/// The entry's weight where its code, down to this bit, is the prefix. A product in place of a branch lets the entries
/// be added up side by side.
fn weight_under(entry: Entry, bit: u32, prefix: u32) -> u32
    requires { bit < 25 }
    ensures { result ≡ under entry bit prefix }
{
    entry.weight * u32::from(entry.code >> bit == prefix)
}
