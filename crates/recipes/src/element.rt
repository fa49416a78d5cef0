//! A structuring element: its places and its order index.

ghost use Rattle.recipes.specs.Lawful.{lawful};
ghost use Rattle.recipes.specs.declared.element.TheConstants.{MOST_PLACES};
ghost use Rattle.std.specs.Prelude.{◌≡◌, ◌≤◌, true, length, take};

use crate::places::{Part, Place, in_limits};
use crate::reach::Reach;
use crate::refusals::ElementRefusal;
use crate::shapes::Shape;

/// An element has at most so many places.
pub const MOST_PLACES: usize = 49;

/// At most 49 places, the first `count` of the array, and the order index. The origin is in the core, no place stands
/// twice, and the order is lawful.
///
/// A fixed array, since nothing here allocates; the kit's `ArrayVec` is not `Copy`.
#[derive(Clone, Copy)]
pub struct Element {
    pub(crate) places: [Place; MOST_PLACES],
    pub(crate) count: usize,
    pub(crate) order: u32,
    ghost long: { length places ≡ MOST_PLACES },
    ghost within: { count ≤ MOST_PLACES },
    ghost sound: { lawful (take count places) order ≡ true },
}

impl Default for Element {
    ghost use Rattle.recipes.specs.Placed.{placed, order_of};
    ghost use Rattle.recipes.specs.Places.{origin};
    ghost use Rattle.std.specs.Prelude.{[], ◌∷◌};

    ghost is_default = { λ e. (placed e ≡ origin ∷ []) × (order_of e ≡ 1) };

    /// The origin alone, as `new` makes it.
    fn default() -> Element {
        Element::new()
    }
}

impl Element {
    ghost use Rattle.recipes.specs.Edits.{amount_refusal, order_refusal, place_refusal};
    ghost use Rattle.recipes.specs.Lawful.{lawful_order};
    ghost use Rattle.recipes.specs.Placed.{placed, order_of};
    ghost use Rattle.recipes.specs.Places.{amended, limited, origin, place_of, soft, stands_at, taken, IsLimited};
    ghost use Rattle.recipes.specs.Reaches.{reach, IsGreatest};
    ghost use Rattle.recipes.specs.Recipes.{places_within};
    ghost use Rattle.recipes.specs.Refusals.{element_number, refused_with};
    ghost use Rattle.recipes.specs.Shapes.{shape_of, standard_after, standard_refusal, Members};
    ghost use Rattle.recipes.specs.declared.places.Place.{Place};
    ghost use Rattle.recipes.specs.declared.places.TheConstants.{FARTHEST};
    ghost use Rattle.recipes.specs.declared.shapes.Shape.{Shape};
    ghost use Rattle.std.specs.Prelude.{ℕ, ◌<◌, false, [], ◌∷◌, ◌++◌, map, position, is_ok, if◌then◌else◌, count_by, slice_index_or, Some, OnErr};

    /// The origin alone, with amount 0 and order 1.
    pub fn new() -> Element
        ensures places { placed result ≡ origin ∷ [] }
        ensures order { order_of result ≡ 1 }
    {
        Element {
            places: [Place::ORIGIN; MOST_PLACES],
            count: 1,
            order: 1,
        }
    }

    /// Overwrites the element by the standard shape of a number, with amounts 0 and order 1. Refused where the number is
    /// above 3 (9).
    pub fn standard(&mut self, i: u32) -> Result<(), ElementRefusal>
        ensures answer { refused_with element_number result ≡ standard_refusal (shape_of i) }
        ensures places { placed self.new ≡ standard_after (shape_of i) (placed self.old) }
        ensures members { (s : Shape) → shape_of i ≡ Some s → Members s (placed self.new) }
        ensures order { order_of self.new ≡ (if is_ok result then 1 else order_of self.old) }
        ensures kept { OnErr result (self.new ≡ self.old) }
    {
        *self = Shape::try_from(i)?.element();
        Ok(())
    }

    /// Adds a place. Refused outside the limits (6), then where a place stands already (7).
    pub fn place(&mut self, dx: i32, dy: i32, part: Part, amount: i32) -> Result<(), ElementRefusal>
        ensures answer { refused_with element_number result
            ≡ place_refusal (placed self.old) dx dy amount }
        ensures places { placed self.new
            ≡ (if is_ok result
            then placed self.old ++ place_of dx dy part amount ∷ []
            else placed self.old) }
        ensures order { order_of self.new ≡ order_of self.old }
        ensures kept { OnErr result (self.new ≡ self.old) }
    {
        if !in_limits(dx, dy, amount) {
            return Err(ElementRefusal::Outside);
        }
        if self.taken(dx, dy) {
            return Err(ElementRefusal::Taken);
        }
        self.push(Place {
            dx,
            dy,
            part,
            amount,
        });
        Ok(())
    }

    /// Sets the amount of the place at these offsets. Refused outside the limits (6), then where no place stands (8).
    pub fn amount(&mut self, dx: i32, dy: i32, amount: i32) -> Result<(), ElementRefusal>
        ensures answer { refused_with element_number result
            ≡ amount_refusal (placed self.old) dx dy amount }
        ensures places { placed self.new
            ≡ (if is_ok result
            then map (amended dx dy amount) (placed self.old)
            else placed self.old) }
        ensures order { order_of self.new ≡ order_of self.old }
        ensures kept { OnErr result (self.new ≡ self.old) }
    {
        if !in_limits(dx, dy, amount) {
            return Err(ElementRefusal::Outside);
        }
        let i = self.position(dx, dy).ok_or(ElementRefusal::Missing)?;
        self.places[i].amount = amount;
        Ok(())
    }

    /// Sets the order index. Refused where it is not lawful (10).
    pub fn order(&mut self, k: u32) -> Result<(), ElementRefusal>
        ensures answer { refused_with element_number result ≡ order_refusal (placed self.old) k }
        ensures places { placed self.new ≡ placed self.old }
        ensures order { order_of self.new ≡ (if is_ok result then k else order_of self.old) }
        ensures kept { OnErr result (self.new ≡ self.old) }
    {
        if !self.lawful_order(k) {
            return Err(ElementRefusal::UnlawfulOrder);
        }
        self.order = k;
        Ok(())
    }

    /// The places, each in its limits.
    pub fn places(&self) -> &[Place]
        ensures places { result.now ≡ placed self.now }
        ensures few { length result.now ≤ MOST_PLACES }
        ensures limits { (i : ℕ) (d : Place) → i < length result.now
            → IsLimited (slice_index_or result.now i d) }
    {
        &self.places[..self.count]
    }

    /// The order index.
    pub fn order_index(&self) -> u32
        ensures order { result ≡ order_of self.now }
    {
        self.order
    }

    /// The greatest |dx| and |dy| of the places.
    pub fn reach(&self) -> Reach
        ensures across { result.x ≡ reach (λ p. p.dx) (placed self.now) }
        ensures down { result.y ≡ reach (λ p. p.dy) (placed self.now) }
        ensures greatest_across { IsGreatest (λ p. p.dx) (placed self.now) result.x }
        ensures greatest_down { IsGreatest (λ p. p.dy) (placed self.now) result.y }
        ensures near { (result.x ≤ FARTHEST) × (result.y ≤ FARTHEST) }
    {
        self.places()
            .iter()
            .fold(Reach::default(), |reach, place| reach.widened(place))
    }

    /// Whether every amount of the places is from −span to span.
    pub(crate) fn amounts_within(&self, span: u32) -> bool
        ensures { result ≡ places_within span (placed self.now) }
    {
        self.places()
            .iter()
            .all(|place| place.amount.unsigned_abs() <= span)
    }

    /// Stores a place after the last one. A draft and a recipe have a `push` of their own: a generic struct holds no array
    /// of a type parameter.
    fn push(&mut self, place: Place)
        requires limits { limited place ≡ true }
        requires free { taken place.dx place.dy (placed self.old) ≡ false }
        ensures places { placed self.new ≡ placed self.old ++ place ∷ [] }
        ensures order { order_of self.new ≡ order_of self.old }
    {
        self.places[self.count] = place;
        self.count += 1;
    }

    /// Whether a place stands at these offsets.
    fn taken(&self, dx: i32, dy: i32) -> bool
        ensures { result ≡ taken dx dy (placed self.now) }
    {
        self.places().iter().any(|place| place.stands_at(dx, dy))
    }

    /// Where among the places the one at these offsets is.
    fn position(&self, dx: i32, dy: i32) -> Option<usize>
        ensures { result ≡ position (stands_at dx dy) (placed self.now) }
    {
        self.places()
            .iter()
            .position(|place| place.stands_at(dx, dy))
    }

    /// The number of soft places.
    fn softs(&self) -> usize
        ensures { result ≡ count_by soft (placed self.now) }
    {
        self.places().iter().filter(|place| place.is_soft()).count()
    }

    /// Whether an order index is lawful for the places.
    fn lawful_order(&self, k: u32) -> bool
        ensures { result ≡ lawful_order (placed self.now) k }
    {
        k == 1 || k > 1 && 2 * k as usize <= self.places().len() && k as usize <= self.softs()
    }
}
