//! The selector that a script has chosen.
ghost use Rattle.std.specs.Prelude.{◌≡◌, ℕ, OnErr};
ghost use Rattle.rank.specs.Choice.{chosen_range, chosen_weight, kind_range};
ghost use Rattle.selectors.specs.Played.{Answered, bag_after};

use selectors::{CallRefusal, Gate, Histogram, Ladder, Reply, SelectorCall, SelectorKind, play};

/// A selector of one of the three kinds.
#[derive(Clone, Copy)]
pub enum Chosen {
    OfGate(Gate),
    OfHistogram(Histogram),
    OfLadder(Ladder),
}

impl Chosen {
    /// A new selector of this kind, in which every weight is 0.
    pub fn new(kind: SelectorKind) -> Chosen
        ensures weights { (c : ℕ) → chosen_weight result c ≡ 0 }
        ensures range { chosen_range result ≡ kind_range kind }
    {
        match kind {
            SelectorKind::Gate => Chosen::OfGate(Gate::new()),
            SelectorKind::Histogram => Chosen::OfHistogram(Histogram::new()),
            SelectorKind::Ladder => Chosen::OfLadder(Ladder::new()),
        }
    }

    /// Makes the call on it.
    pub fn play(&mut self, call: SelectorCall) -> Result<Reply, CallRefusal>
        ensures answer { Answered (chosen_weight self.old) (chosen_range self.old) call result }
        ensures weights { (c : ℕ) → chosen_weight self.new c
            ≡ bag_after (chosen_weight self.old) (chosen_range self.old) call c }
        ensures kept { OnErr result (self.new ≡ self.old) }
        ensures range_kept { chosen_range self.new ≡ chosen_range self.old }
    {
        match self {
            Chosen::OfGate(gate) => play(gate, call),
            Chosen::OfHistogram(histogram) => play(histogram, call),
            Chosen::OfLadder(ladder) => play(ladder, call),
        }
    }
}
