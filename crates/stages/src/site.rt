//! A pixel of a plane, and what a tap reads there.

ghost use Rattle.std.specs.Prelude.{◌≡◌, ◌<◌, ◌≤◌, length};
ghost use Rattle.planes.specs.Sizes.{area};
ghost use Rattle.stages.specs.Taps.{reached};

use crate::taps::Tap;
use planes::frame::Frame;
use planes::size::Size;
use tones::Tone;

/// A pixel of a plane: its column and its row, with the plane around it.
#[derive(Drop)]
pub struct Site<'a, T: Tone> {
    frame: Frame,
    plane: &'a [T::Row],
    x: usize,
    y: usize,
    ghost filled: { length plane.now ≡ area frame.size },
    ghost column: { x < frame.size.width },
    ghost row: { y < frame.size.height },
}

impl<'a, T: Tone> Site<'a, T> {
    ghost use Rattle.std.specs.Prelude.{true, Some};
    ghost use Rattle.stages.specs.Sites.{read_at};
    ghost use Rattle.stages.specs.Taps.{IsInner, IsNear};

    /// The pixel in column x and row y of a plane.
    pub(crate) fn new(frame: Frame, plane: &'a [T::Row], x: usize, y: usize) -> Self
        requires plane { length plane.now ≡ area frame.size }
        requires column { x < frame.size.width }
        requires row { y < frame.size.height }
        ensures frame { result.frame ≡ frame }
        ensures plane { result.plane.now ≡ plane.now }
        ensures place { (result.x ≡ x) × (result.y ≡ y) }
    {
        Site { frame, plane, x, y }
    }

    /// The code that a tap reads, if that lies on the card.
    pub(crate) fn code_at(&self, tap: &Tap) -> Option<u32>
        ensures { result ≡ read_at self.now tap.now }
    {
        let column = reached(self.x, tap.dx, self.frame.size.width)?;
        let row = reached(self.y, tap.dy, self.frame.size.height)?;
        let tone = T::of_row(self.plane[self.frame.cell(column, row)]);
        Some(lowered(tone, tap.amount).code())
    }

    /// The code that a tap reads which falls on the card and lowers nothing.
    pub(crate) fn code_near(&self, tap: &Tap) -> u32
        requires { IsNear self.now.frame.size self.now.x self.now.y tap.now }
        ensures { Some result ≡ read_at self.now tap.now }
    {
        let column = self.x.wrapping_add_signed(tap.dx);
        let row = self.y.wrapping_add_signed(tap.dy);
        T::of_row(self.plane[self.frame.cell(column, row)]).code()
    }

    /// That the pixel is so far from every edge of the card that no place reaches past one.
    pub(crate) fn is_inner(&self) -> bool
        ensures { result ≡ true → IsInner self.now.frame.size self.now.x self.now.y }
    {
        let Size { width, height } = self.frame.size;
        (3..width.saturating_sub(3)).contains(&self.x)
            && (3..height.saturating_sub(3)).contains(&self.y)
    }
}

/// The column or row that lies `d` from `x`, of a card that has `n` of them.
fn reached(x: usize, d: isize, n: usize) -> Option<usize>
    requires { (x < 1024) × (n ≤ 1024) }
    ensures { result ≡ reached x d n }
{
    let at = x.wrapping_add_signed(d);
    (at < n).then_some(at)
}

/// A tone lowered by an amount, which is 0 most of the time.
fn lowered<T: Tone>(tone: T, amount: i32) -> T
    ensures { result ≡ T.kind.lowered tone amount }
{
    if amount == 0 {
        tone
    } else {
        tone.lowered(amount)
    }
}
