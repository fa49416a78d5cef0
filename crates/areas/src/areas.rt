//! The stale areas of a card: which rows of which stage of a recipe have to be redone.

ghost use Rattle.std.specs.List.{sum_by};
ghost use Rattle.std.specs.Prelude.{◌≡◌, ◌<◌, ◌≤◌, ◌^◌, true, length, take};
ghost use Rattle.areas.specs.Areas.{FirstThere, areas_fit, rows};

use crate::rect::Rect;
use planes::frame::Frame;
use planes::size::Size;
use recipes::recipe::Stage;

/// One area a stage, at most 8, the first `count` of the array: nothing, or a rectangle that has a
/// pixel and lies wholly on the card. A fixed array, since nothing here allocates; the kit's
/// `ArrayVec` is not `Copy`.
#[derive(Clone, Copy)]
pub struct Areas {
    frame: Frame,
    areas: [Option<Rect>; 8],
    count: usize,
    ghost long: { length areas ≡ 8 },
    ghost few: { count ≤ 8 },
    ghost sound: { areas_fit frame.size (take count areas) ≡ true },
}

impl Areas {
    ghost use Rattle.std.specs.Prelude.{◌-◌, [], nat_lt};
    ghost use Rattle.areas.specs.Areas.{FirstMet, all_stale, dropped, last_area, lowest, met};
    ghost use Rattle.areas.specs.Areas.{next_of, spread, stale_rows};
    ghost use Rattle.areas.specs.Arising.{Arising};
    ghost use Rattle.areas.specs.Listed.{listed, frame_of};
    ghost use Rattle.areas.specs.Meanings.{Leaves, NextIs, Spreads, some_stale};
    ghost use Rattle.areas.specs.Rects.{Fits, Holds};

    /// No stages, nothing stale.
    pub fn none(frame: Frame) -> Areas
        ensures frame { frame_of result ≡ frame }
        ensures areas { listed result ≡ [] }
    {
        Areas {
            frame,
            areas: [None; 8],
            count: 0,
        }
    }

    /// Every stage's area is the whole card.
    pub fn all_stale(frame: Frame, stages: &[Stage]) -> Areas
        requires few { length stages.now ≤ 8 }
        ensures frame { frame_of result ≡ frame }
        ensures areas { listed result ≡ all_stale frame.size stages.now }
    {
        Areas {
            frame,
            areas: [Some(Rect::whole(frame.size)); 8],
            count: stages.len(),
        }
    }

    /// The size of the card, within its limits.
    pub fn frame(&self) -> Frame
        ensures { result ≡ frame_of self.now }
    {
        self.frame
    }

    /// The size of the card.
    pub fn size(&self) -> Size
        ensures { result ≡ (frame_of self.now).size }
    {
        self.frame.size
    }

    /// A written rectangle makes stale what the stages make of it.
    pub fn spread(&mut self, stages: &[Stage], rect: Rect)
        requires { Fits (frame_of self.old).size rect }
        ensures frame { frame_of self.new ≡ frame_of self.old }
        ensures areas { let size = (frame_of self.old).size in
            listed self.new ≡ spread size stages.now rect (listed self.old) }
        ensures meaning { let size = (frame_of self.old).size in
            Spreads size stages.now (Holds rect) (listed self.old) (listed self.new) }
    {
        // By index: a proof knows nothing of what is written through a `zip` of `iter_mut`.
        let mut below = rect;
        for (i, stage) in stages.iter().enumerate().take(self.count) {
            below = below.widened(self.frame.size, stage).joined(self.areas[i]);
            self.areas[i] = Some(below);
        }
    }

    /// What is redone next: the lowest stage with an area, counted from 1, and that area's top row.
    pub fn next(&self) -> Option<(usize, usize)>
        ensures answer { result ≡ next_of (listed self.now) }
        ensures meaning { NextIs (listed self.now) result }
    {
        self.lowest().map(|(stage, area)| (stage, area.top))
    }

    /// The lowest stage with an area, counted from 1, and that area.
    pub fn lowest(&self) -> Option<(usize, Rect)>
        ensures answer { result ≡ lowest (listed self.now) }
    {
        first_there(self.listed())
    }

    /// The top row of the lowest stage with an area leaves it.
    pub fn drop_row(&mut self)
        ensures frame { frame_of self.new ≡ frame_of self.old }
        ensures areas { listed self.new ≡ dropped (listed self.old) }
        ensures meaning { Leaves (listed self.old) (next_of (listed self.old)) (listed self.new) }
        ensures rows { stale_rows (listed self.new) ≡ stale_rows (listed self.old) - 1 }
    {
        if let Some((stage, rect)) = self.lowest() {
            self.areas[stage - 1] = rect.lessened();
        }
    }

    /// The rows of all areas together.
    pub fn rows_left(&self) -> usize
        ensures answer { result ≡ stale_rows (listed self.now) }
        ensures bound { result ≤ 2048 }
        ensures some { nat_lt 0 result ≡ some_stale (listed self.now) }
        ensures arising { Arising (frame_of self.now).size (listed self.now) }
    {
        rows_of(self.listed())
    }

    /// The first column of a piece of row y, n wide from column x on, that the last stage's area
    /// holds.
    pub fn first_met(&self, x: usize, y: usize, n: usize) -> Option<usize>
        ensures answer { result ≡ met (last_area (listed self.now)) x y n }
        ensures meaning { FirstMet (last_area (listed self.now)) x y n result }
    {
        (*self.listed().last()?)?.met(x, y, n)
    }

    /// The areas, one a stage.
    fn listed(&self) -> &[Option<Rect>]
        ensures { result.now ≡ listed self.now }
    {
        &self.areas[..self.count]
    }
}

/// The first of some areas that is there, with its number, counted from 1.
fn first_there(areas: &[Option<Rect>]) -> Option<(usize, Rect)>
    ensures { FirstThere areas.now result }
{
    areas
        .iter()
        .enumerate()
        .find_map(|(i, area)| area.map(|rect| (i + 1, rect)))
}

/// The rows of some areas together.
fn rows_of(areas: &[Option<Rect>]) -> usize
    requires { sum_by rows areas.now < 2 ^ 64 }
    ensures { result ≡ sum_by rows areas.now }
{
    areas
        .iter()
        .map(|area| area.map_or(0, |rect| rect.rows()))
        .sum()
}
