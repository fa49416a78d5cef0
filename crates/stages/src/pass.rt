//! The way of a stage through a memory, from one of its planes into another: the pixels of a
//! stretch of a row are made one after another.

ghost use Rattle.std.specs.Prelude.{◌≡◌, ◌+◌, ◌≤◌};
ghost use Rattle.planes.specs.Sizes.{area};

use crate::site::Site;
use crate::window::Window;
use planes::frame::Frame;
use selectors::Selector;
use tones::Tone;

/// A stage's window, and where the plane that it reads and the later one that it writes begin.
#[derive(Clone, Copy)]
pub struct Pass<'a> {
    pub window: &'a Window,
    pub frame: Frame,
    pub from: usize,
    pub into: usize,
    ghost apart: { from + area frame.size ≤ into },
}

// The selector's two facts stand in each contract, as in `window`; so does the room, since the
// memory is lent anew to each call.
impl<'a> Pass<'a> {
    ghost use Rattle.std.specs.Prelude.{ℕ, ◌<◌, length};
    ghost use Rattle.stages.specs.Passes.{pixel_made, pixel_weights, stretch_made, stretch_weights};

    /// The pass of a window from the plane that begins at `from` into the one that begins at
    /// `into`.
    pub fn new(window: &'a Window, frame: Frame, from: usize, into: usize) -> Self
        requires { from + area frame.size ≤ into }
        ensures window { result.window.now ≡ window.now }
        ensures frame { result.frame ≡ frame }
        ensures planes { (result.from ≡ from) × (result.into ≡ into) }
    {
        Pass {
            window,
            frame,
            from,
            into,
        }
    }

    /// Writes what the stage makes of a pixel.
    pub fn stage_pixel<T: Tone, S: Selector>(
        &self,
        selector: &mut S,
        memory: &mut [T::Row],
        x: usize,
        y: usize,
    )
        requires order { S.ordered selector.old }
        requires codes { T.kind.count ≤ S.range selector.old }
        requires room { self.now.into + area self.now.frame.size ≤ length memory.old }
        requires column { x < self.now.frame.size.width }
        requires row { y < self.now.frame.size.height }
        ensures memory { memory.new ≡ pixel_made T.kind self.now memory.old x y }
        ensures weights { (c : ℕ) → S.weight selector.new c
            ≡ pixel_weights T.kind self.now memory.old x y c }
        ensures range_kept { S.range selector.new ≡ S.range selector.old }
        ensures in_order { S.ordered selector.new }
    {
        let plane = &memory[self.from..self.from + self.frame.area()];
        let site = Site::<T>::new(self.frame, plane, x, y);
        let tone = self.window.pixel(selector, &site);
        memory[self.into + self.frame.cell(x, y)] = tone.row();
    }

    /// Writes what the stage makes of the columns from `left` up to `right` of row y, from left to
    /// right.
    pub fn stage_row<T: Tone, S: Selector>(
        &self,
        selector: &mut S,
        memory: &mut [T::Row],
        y: usize,
        left: usize,
        right: usize,
    )
        requires order { S.ordered selector.old }
        requires codes { T.kind.count ≤ S.range selector.old }
        requires room { self.now.into + area self.now.frame.size ≤ length memory.old }
        requires columns { (left ≤ right) × (right ≤ self.now.frame.size.width) }
        requires row { y < self.now.frame.size.height }
        ensures memory { memory.new ≡ stretch_made T.kind self.now memory.old y left right }
        ensures weights { let before = S.weight selector.old in
            (c : ℕ) → S.weight selector.new c
            ≡ stretch_weights T.kind self.now memory.old y left right before c }
        ensures range_kept { S.range selector.new ≡ S.range selector.old }
        ensures in_order { S.ordered selector.new }
    {
        for x in left..right {
            self.stage_pixel::<T, S>(selector, memory, x, y);
        }
    }
}
