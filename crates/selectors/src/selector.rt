//! The interface of every selector: what it means, and what each call does to that meaning.
ghost use Rattle.std.specs.Prelude.{◌≡◌, ℕ, ◌≤◌, OnErr};
ghost use Rattle.selectors.specs.Bag.{below, held};
ghost use Rattle.selectors.specs.declared.limits.TheConstants.{MOST_CODES, MOST_WEIGHT};
ghost use Rattle.selectors.specs.Calls.{put_bag, put_refusal, put_refused, Selected};

use crate::refusals::{PutRefusal, SelectRefusal};

/// Weighted rank selection over the codes below a range.
pub trait Selector {
    /// The codes are those below this.
    ghost range: { Self → ℕ };

    /// What each code weighs.
    ghost weight: { Self → ℕ → ℕ };

    /// The selector is in order: each call but `range` needs it, and keeps it.
    ghost ordered: { Self → Type 0 };

    /// The range: codes are below it.
    fn range(&self) -> u32
        ensures answer { result ≡ range self.now };

    /// Makes every weight 0.
    fn empty(&mut self)
        requires { ordered self.old }
        ensures weights { (c : ℕ) → weight self.new c ≡ 0 }
        ensures range_kept { range self.new ≡ range self.old }
        ensures in_order { ordered self.new };

    /// Adds `amount` to the weight of `code`; a refused one leaves the selector as it was.
    fn put(&mut self, code: u32, amount: u32) -> Result<(), PutRefusal>
        requires { ordered self.old }
        ensures answer { put_refused result
            ≡ put_refusal (weight self.old) (range self.old) code amount }
        ensures weights { (c : ℕ) → weight self.new c
            ≡ put_bag (put_refused result) (weight self.old) code amount c }
        ensures kept { OnErr result (self.new ≡ self.old) }
        ensures range_kept { range self.new ≡ range self.old }
        ensures in_order { ordered self.new };

    /// The sum of all weights.
    fn total(&self) -> u32
        requires { ordered self.now }
        ensures answer { result ≡ below (weight self.now) (range self.now) };

    /// The least code such that the codes up to it weigh at least `rank` together.
    fn select(&self, rank: u32) -> Result<u32, SelectRefusal>
        requires { ordered self.now }
        ensures answer { Selected (weight self.now) (range self.now) rank result };

    /// The total is at most 65,535.
    ghost light: { (s : Self) → ordered s → below (weight s) (range s) ≤ MOST_WEIGHT };

    /// At most 64 codes have weight.
    ghost few: { (s : Self) → ordered s → held (weight s) (range s) ≤ MOST_CODES };
}
