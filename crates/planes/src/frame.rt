//! A size within its limits, and where its planes and pixels lie in one long memory.

ghost use Rattle.std.specs.Prelude.{◌<◌, ◌≤◌, ◌≡◌, MatchOption};
ghost use Rattle.planes.specs.Sizes.{Limits, area, cell, start};

use crate::size::Size;

/// A card has at most so many columns.
pub const MOST_WIDTH: usize = 1024;

/// A card has at most so many rows.
pub const MOST_HEIGHT: usize = 256;

/// A size that a card may have: from 1 × 1 to 1,024 × 256 pixels.
#[derive(Clone, Copy, PartialEq, Eq, Debug)]
pub struct Frame {
    pub size: Size,
    ghost within: { Limits size },
}

impl Frame {
    /// The frame of a size that is within the limits.
    pub fn new(size: Size) -> Frame
        requires { Limits size }
        ensures { result.size ≡ size }
    {
        Frame { size }
    }

    /// The frame of a size, if it is within the limits.
    pub fn checked(size: Size) -> Option<Frame>
        ensures { MatchOption result (Limits size → ⊥) (λ f. f.size ≡ size) }
    {
        // Not by `then`: a closure knows nothing of the test.
        let wide = (1..=MOST_WIDTH).contains(&size.width);
        let high = (1..=MOST_HEIGHT).contains(&size.height);
        if wide && high {
            Some(Frame { size })
        } else {
            None
        }
    }

    /// How many pixels there are.
    pub fn area(self) -> usize
        ensures value { result ≡ area self.size }
        ensures bound { result ≤ 262144 }
    {
        self.size.width * self.size.height
    }

    /// Where the plane `j` begins.
    pub fn start(self, j: usize) -> usize
        requires { j ≤ 9 }
        ensures value { result ≡ start self.size j }
        ensures bound { result ≤ 2359296 }
    {
        j * self.area()
    }

    /// Where the pixel in column x and row y lies in its plane.
    pub fn cell(self, x: usize, y: usize) -> usize
        requires column { x < self.size.width }
        requires row { y < self.size.height }
        ensures value { result ≡ cell self.size x y }
        ensures bound { result < area self.size }
    {
        y * self.size.width + x
    }
}
