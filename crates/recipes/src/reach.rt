//! How far an element reaches.

ghost use Rattle.std.specs.Prelude.{◌≡◌, max, unsigned_abs};

use crate::places::Place;

/// How far an element reaches from its origin: the greatest |dx| and |dy| of its places.
#[derive(Clone, Copy, Default, PartialEq, Eq, Debug)]
pub struct Reach {
    pub x: u32,
    pub y: u32,
}

impl Reach {
    /// The reach, widened to hold a place.
    pub(crate) fn widened(self, place: &Place) -> Reach
        ensures across { result.x ≡ max self.x (unsigned_abs place.now.dx) }
        ensures down { result.y ≡ max self.y (unsigned_abs place.now.dy) }
    {
        Reach {
            x: self.x.max(place.dx.unsigned_abs()),
            y: self.y.max(place.dy.unsigned_abs()),
        }
    }
}
