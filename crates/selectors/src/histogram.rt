//! The histogram: one weight for each code below 512.
ghost use Rattle.std.specs.Prelude.{◌≡◌, ℕ, length, slice_index};
ghost use Rattle.selectors.specs.declared.histogram.TheConstants.{RANGE};
ghost use Rattle.selectors.specs.Tally.{Tally};
ghost use Rattle.std.proofs.Common.{rules};

use crate::limits::{MOST_CODES, heavier, ranked};
use crate::refusals::{PutRefusal, SelectRefusal};
use crate::selector::Selector;

/// The codes are below this.
pub const RANGE: usize = 512;

/// A selector over the codes below 512 that keeps the weight of every code. The weights are a fixed array: the range
/// bounds their number, and nothing here may allocate.
#[derive(Clone, Copy)]
pub struct Histogram {
    weights: [u16; RANGE],
    count: usize,
    sum: u32,
    ghost size: { length weights ≡ RANGE },
    ghost tally: { Tally (λ c. slice_index weights c) RANGE count sum },
}

impl Histogram {
    ghost use Rattle.selectors.specs.Weights.{histogram_weight};

    /// A histogram in which every weight is 0.
    pub fn new() -> Histogram
        ensures weights { (c : ℕ) → histogram_weight result c ≡ 0 }
    {
        Histogram {
            weights: [0; RANGE],
            count: 0,
            sum: 0,
        }
    }
}

impl Default for Histogram {
    ghost use Rattle.selectors.specs.Weights.{histogram_weight};

    ghost is_default = { λ s. (c : ℕ) → histogram_weight s c ≡ 0 };

    fn default() -> Histogram {
        Histogram::new()
    }
}

impl Selector for Histogram {
    ghost use Rattle.selectors.specs.Weights.{histogram_weight};

    ghost range = { λ _. RANGE };

    ghost weight = { histogram_weight };

    ghost ordered = { λ _. Unit {0} };

    ghost light = { Prim.search rules };

    ghost few = { Prim.search rules };

    fn range(&self) -> u32 {
        RANGE as u32
    }

    fn empty(&mut self) {
        *self = Histogram::new();
    }

    fn put(&mut self, code: u32, amount: u32) -> Result<(), PutRefusal> {
        let place = code as usize;
        if amount == 0 || place >= RANGE {
            return Err(PutRefusal::Unfit);
        }
        let old = self.weights[place];
        let count = self.count + usize::from(old == 0);
        if count > MOST_CODES {
            return Err(PutRefusal::Full);
        }
        self.sum = heavier(self.sum, amount)?;
        self.weights[place] = old + amount as u16;
        self.count = count;
        Ok(())
    }

    fn total(&self) -> u32 {
        self.sum
    }

    fn select(&self, rank: u32) -> Result<u32, SelectRefusal> {
        ranked(rank, self.sum)?;
        let mut code = 0;
        // What the codes passed leave of the rank: at the first code that weighs as much, the running weight
        // reaches it.
        let mut left = rank;
        // A loop that yields the code by `break`: with a range or an iterator it would also end past the last code,
        // which the rank's being at most the total rules out.
        let chosen = loop {
            let weight = u32::from(self.weights[code]);
            if left <= weight {
                break code;
            }
            left -= weight;
            code += 1;
        };
        Ok(chosen as u32)
    }
}
