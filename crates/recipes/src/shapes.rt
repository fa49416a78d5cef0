//! The four standard shapes.

ghost use Rattle.recipes.specs.Placed.{placed, order_of};
ghost use Rattle.recipes.specs.Shapes.{in_shape, standard_place, standard_places};
ghost use Rattle.std.specs.Prelude.{◌≡◌, ◌/◌, ◌%◌, pos, ◌-ℤ◌};

use crate::element::{Element, MOST_PLACES};
use crate::places::{Part, Place};
use crate::refusals::ElementRefusal;

/// A standard shape.
#[derive(Clone, Copy, PartialEq, Eq, Debug)]
pub enum Shape {
    /// The origin with its four neighbours.
    Cross,
    /// The 3 × 3 square.
    Square3,
    /// The 5 × 5 square without its corners.
    Octagon5,
    /// The 7 × 7 square.
    Square7,
}

impl TryFrom<u32> for Shape {
    type Error = ElementRefusal;

    ghost use Rattle.recipes.specs.Shapes.{IsNumbered};

    ghost try_from_gives = { IsNumbered };

    /// The shape of a number, from 0 to 3. Refused above 3 (9).
    fn try_from(i: u32) -> Result<Shape, ElementRefusal> {
        match i {
            0 => Ok(Shape::Cross),
            1 => Ok(Shape::Square3),
            2 => Ok(Shape::Octagon5),
            3 => Ok(Shape::Square7),
            _ => Err(ElementRefusal::UnknownShape),
        }
    }
}

impl Shape {
    /// The element of the shape: its places row by row, with amounts 0, and order 1.
    pub(crate) fn element(self) -> Element
        ensures places { placed result ≡ standard_places self }
        ensures order { order_of result ≡ 1 }
    {
        // Not by the element's `push`: there is no element before the origin is met.
        let mut places = [Place::ORIGIN; MOST_PLACES];
        let mut count = 0;
        let cells = (0..49).map(cell);
        for place in cells.filter(|place| self.contains(place.dx, place.dy)) {
            places[count] = place;
            count += 1;
        }
        Element {
            places,
            count,
            order: 1,
        }
    }

    /// Whether the offsets lie in the shape.
    fn contains(self, dx: i32, dy: i32) -> bool
        ensures { result ≡ in_shape self dx dy }
    {
        let (x, y) = (dx.unsigned_abs(), dy.unsigned_abs());
        match self {
            Shape::Cross => x <= 1 && y <= 1 - x,
            Shape::Square3 => x <= 1 && y <= 1,
            Shape::Octagon5 => x <= 2 && y <= 2 && !(x == 2 && y == 2),
            Shape::Square7 => x <= 3 && y <= 3,
        }
    }
}

/// The place of cell n of the 7 × 7 square, counted row by row: in the core at the origin, else soft.
fn cell(n: u8) -> Place
    ensures { result ≡ standard_place (pos (n % 7) -ℤ pos 3) (pos (n / 7) -ℤ pos 3) }
{
    let dx = i32::from(n % 7) - 3;
    let dy = i32::from(n / 7) - 3;
    let part = if dx == 0 && dy == 0 {
        Part::Core
    } else {
        Part::Soft
    };
    Place {
        dx,
        dy,
        part,
        amount: 0,
    }
}
