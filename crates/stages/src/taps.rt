//! A place of an element, turned for its stage.

ghost use Rattle.std.specs.Prelude.{◌≡◌, ◌≤◌, neg_ℤ, unsigned_abs};
ghost use Rattle.recipes.specs.Places.{IsLimited};
ghost use Rattle.stages.specs.Taps.{tap_of};

use recipes::places::{Part, Place};
use recipes::recipe::{Operation, Stage};

/// Where a pixel's window reads, how much that weighs, and by how much it is lowered. A dilation
/// reads as an erosion whose offsets and amounts are turned round.
#[derive(Clone, Copy)]
pub struct Tap {
    pub dx: isize,
    pub dy: isize,
    pub weight: u32,
    pub amount: i32,
}

impl Tap {
    /// The tap of a place of a stage: a core place weighs the order index, a soft one 1.
    pub fn of(stage: &Stage, place: &Place) -> Tap
        requires { IsLimited place.now }
        ensures { result ≡ tap_of stage.now place.now }
    {
        let order = stage.element.order_index();
        let tap = Tap {
            dx: place.dx as isize,
            dy: place.dy as isize,
            weight: match place.part {
                Part::Core => order,
                Part::Soft => 1,
            },
            amount: place.amount,
        };
        match stage.operation {
            Operation::Erosion => tap,
            Operation::Dilation => tap.turned(),
        }
    }

    /// The tap with its offsets and its amount turned round.
    fn turned(self) -> Tap
        requires across { (unsigned_abs self.dx ≤ 1024) × (unsigned_abs self.dy ≤ 1024) }
        requires deep { unsigned_abs self.amount ≤ 1024 }
        ensures offsets { (result.dx ≡ neg_ℤ self.dx) × (result.dy ≡ neg_ℤ self.dy) }
        ensures weight { result.weight ≡ self.weight }
        ensures amount { result.amount ≡ neg_ℤ self.amount }
    {
        Tap {
            dx: -self.dx,
            dy: -self.dy,
            amount: -self.amount,
            ..self
        }
    }
}
