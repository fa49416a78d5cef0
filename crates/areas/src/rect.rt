//! Rectangles of pixels on a card.

ghost use Rattle.std.specs.Prelude.{◌≡◌, ℕ, ◌<◌, true, ◌⊎◌, IfSome, Some};
ghost use Rattle.areas.specs.Areas.{Stale, area_fits, met, rows};
ghost use Rattle.areas.specs.Rects.{Exactly, Fits, Holds, InReach, Smallest, hull, joined};
ghost use Rattle.areas.specs.Rects.{lessened, rect_on, stretch_fits, whole, widened};
ghost use Rattle.planes.specs.declared.size.Size.{Size};

use planes::size::Size;
use recipes::recipe::Stage;

/// The columns from `left` to before `right`, in the rows from `top` to before `bottom`.
#[derive(Clone, Copy, PartialEq, Eq, Debug)]
pub struct Rect {
    pub left: usize,
    pub top: usize,
    pub right: usize,
    pub bottom: usize,
}

impl Rect {
    /// The rectangle of a corner, a width and a height, if it has a pixel and lies wholly on the
    /// card.
    pub fn on(size: Size, x: usize, y: usize, width: usize, height: usize) -> Option<Rect>
        ensures answer { result ≡ rect_on size x y width height }
        ensures fits { IfSome result (Fits size) }
    {
        let within = stretch_fits(x, width, size.width) && stretch_fits(y, height, size.height);
        within.then(|| Rect {
            left: x,
            top: y,
            right: x + width,
            bottom: y + height,
        })
    }

    /// The whole card.
    pub(crate) fn whole(size: Size) -> Rect
        ensures { result ≡ whole size }
    {
        Rect {
            left: 0,
            top: 0,
            right: size.width,
            bottom: size.height,
        }
    }

    /// The rectangle, widened by a stage's reach on each side and cut to the card.
    pub fn widened(self, size: Size, stage: &Stage) -> Rect
        ensures answer { result ≡ widened size stage.now self }
        ensures exact { Fits size self → Exactly result (InReach size stage.now (Holds self)) }
    {
        let reach = stage.element.reach();
        let (x, y) = (reach.x as usize, reach.y as usize);
        Rect {
            left: self.left.saturating_sub(x),
            top: self.top.saturating_sub(y),
            right: self.right.saturating_add(x).min(size.width),
            bottom: self.bottom.saturating_add(y).min(size.height),
        }
    }

    /// The smallest rectangle that holds this one and the old area.
    pub fn joined(self, old: Option<Rect>) -> Rect
        ensures answer { result ≡ joined self old }
        ensures smallest { (size : Size) → Fits size self → area_fits size old ≡ true
            → Smallest result (λ x y. Holds self x y ⊎ Stale old x y) }
    {
        old.map_or(self, |old| self.hull(old))
    }

    /// The rectangle of the outer sides of this one and another.
    fn hull(self, other: Rect) -> Rect
        ensures { result ≡ hull self other }
    {
        Rect {
            left: self.left.min(other.left),
            top: self.top.min(other.top),
            right: self.right.max(other.right),
            bottom: self.bottom.max(other.bottom),
        }
    }

    /// The rectangle less its top row; nothing where no row is left.
    pub(crate) fn lessened(self) -> Option<Rect>
        requires { self.top < self.bottom }
        ensures { result ≡ lessened self }
    {
        let top = self.top + 1;
        (top < self.bottom).then_some(Rect { top, ..self })
    }

    /// The number of rows.
    pub(crate) fn rows(self) -> usize
        ensures { result ≡ rows (Some self) }
    {
        self.bottom.saturating_sub(self.top)
    }

    /// The first column of a piece of row y, n wide from column x on, that the rectangle holds.
    pub(crate) fn met(self, x: usize, y: usize, n: usize) -> Option<usize>
        ensures { result ≡ met (Some self) x y n }
    {
        let first = x.max(self.left);
        let meets = self.top <= y && y < self.bottom && first < self.right && first - x < n;
        meets.then_some(first)
    }
}

/// Whether so many places from one on, at least one, lie before the end.
fn stretch_fits(from: usize, many: usize, end: usize) -> bool
    ensures { result ≡ stretch_fits from many end }
{
    0 < many && many <= end && from <= end - many
}
