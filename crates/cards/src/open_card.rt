//! An open card: what a card notes once it has a size, and what its calls do then: laying a patch, replacing the
//! recipe,
//! redoing rows.

ghost use Rattle.std.specs.Prelude.{◌≡◌, ◌≤◌, length};
ghost use Rattle.areas.specs.Listed.{listed};
ghost use Rattle.recipes.specs.Recipes.{staged};

use crate::laying::lay;
use areas::areas::Areas;
use areas::rect::Rect;
use calls::refusals::Refusal;
use planes::frame::Frame;
use recipes::draft::Draft;
use recipes::recipe::{Recipe, Stage};
use selectors::Selector;
use stages::pass::Pass;
use stages::window::Window;
use tones::Tone;

/// The size (with the areas), the most stages that there are planes for, the recipe in force, and the stale area
/// of each of its stages.
#[derive(Clone, Copy)]
pub struct OpenCard {
    pub(crate) most: usize,
    pub(crate) recipe: Recipe,
    pub(crate) areas: Areas,
    ghost few: { most ≤ 8 },
    ghost fits: { length (staged recipe) ≤ most },
    ghost matched: { length (listed areas) ≡ length (staged recipe) },
}

// The selector's two facts stand in each contract, as in `stages::window`; so does the room, since the memory is
// lent anew to each call.
impl OpenCard {
    ghost use Rattle.std.specs.Prelude.{ℕ, ◌+◌, ◌-◌, ◌<◌, ◌==◌, if◌then◌else◌, List, Ok, Err, IfSome, OnErr};
    ghost use Rattle.areas.specs.Areas.{dropped, last_area, lowest, met, next_of, stale_rows};
    ghost use Rattle.areas.specs.Rects.{Fits};
    ghost use Rattle.calls.specs.Calls.Call.{Install, Patch};
    ghost use Rattle.calls.specs.Calls.{done, room};
    ghost use Rattle.calls.specs.declared.refusals.Refusal.TheVariants.{Stale};
    ghost use Rattle.calls.specs.Opening.{fresh};
    ghost use Rattle.calls.specs.Outcomes.{after_open, answer_open, patched_areas, redone_rows, rows_within};
    ghost use Rattle.calls.specs.Outcomes.{task, task_made, task_weights, with_areas, with_recipe};
    ghost use Rattle.planes.specs.Sizes.{cell, start};
    ghost use Rattle.cards.specs.OpenCards.{Stands, notes_of, open_of};

    /// A card just opened: an empty recipe, nothing stale.
    pub fn fresh(frame: Frame, most: usize) -> OpenCard
        requires { most ≤ 8 }
        ensures { notes_of result ≡ fresh frame.size.width frame.size.height most }
    {
        OpenCard {
            most,
            recipe: Recipe::empty(),
            areas: Areas::none(frame),
        }
    }

    /// Another recipe, of which every stage's area is the whole card.
    fn replace(&mut self, recipe: Recipe)
        requires { length (staged recipe) ≤ self.old.most }
        ensures { notes_of self.new ≡ with_recipe (notes_of self.old) (staged recipe) }
    {
        self.areas = Areas::all_stale(self.frame(), recipe.stages());
        self.recipe = recipe;
    }

    /// A rectangle of the raw card was written: the areas spread.
    fn spread(&mut self, rect: Rect)
        requires { Fits (notes_of self.old).size rect }
        ensures { let before = notes_of self.old in
            notes_of self.new ≡ with_areas before (patched_areas before rect) }
    {
        let OpenCard { recipe, areas, .. } = self;
        areas.spread(recipe.stages(), rect);
    }

    /// Lays a patch over the raw card; the areas spread. Refused where the rectangle is empty or not wholly on
    /// the card (17), then where the count of tones is wrong (18).
    pub fn patch<T: Tone>(
        &mut self,
        memory: &mut [T::Row],
        x: usize,
        y: usize,
        width: usize,
        height: usize,
        tones: &[T::Row],
    ) -> Result<(), Refusal>
        requires { length memory.old ≡ room (notes_of self.old) }
        ensures answer { (w : ℕ → ℕ) →
            let from = open_of self.old w memory.old in
            done result ≡ answer_open T.kind from (Patch x y width height tones.now) }
        ensures notes { (w : ℕ → ℕ) →
            let from = open_of self.old w memory.old in
            notes_of self.new ≡ (after_open T.kind from (Patch x y width height tones.now)).notes }
        ensures memory { (w : ℕ → ℕ) →
            let from = open_of self.old w memory.old in
            memory.new ≡ (after_open T.kind from (Patch x y width height tones.now)).memory }
        ensures kept { OnErr result (self.new ≡ self.old) }
    {
        let frame = self.frame();
        let rect = Rect::on(frame.size, x, y, width, height).ok_or(Refusal::Outside)?;
        if tones.len() != width * height {
            return Err(Refusal::Count);
        }
        lay::<T>(memory, frame, rect, tones);
        self.spread(rect);
        Ok(())
    }

    /// Replaces the recipe by that of the draft, which is used up. Refused where the draft has fewer steps than
    /// declared (19), then where it has more stages than there are planes for (20), then where an amount is
    /// outside the span (21).
    pub fn install<T: Tone>(&mut self, draft: Draft) -> Result<(), Refusal>
        ensures answer { (w : ℕ → ℕ) (m : List T.Row) →
            done result ≡ answer_open T.kind (open_of self.old w m) (Install draft) }
        ensures notes { (w : ℕ → ℕ) (m : List T.Row) →
            notes_of self.new ≡ (after_open T.kind (open_of self.old w m) (Install draft)).notes }
        ensures kept { OnErr result (self.new ≡ self.old) }
    {
        let recipe = draft.finish().map_err(|_| Refusal::TooFewSteps)?;
        if recipe.len() > self.most {
            return Err(Refusal::TooManyStages);
        }
        if !recipe.amounts_within(T::span()) {
            return Err(Refusal::Amount);
        }
        self.replace(recipe);
        Ok(())
    }

    /// Redoes the top row of the lowest stage with an area, if there is one; the row leaves the area.
    fn redo<T: Tone, S: Selector>(&mut self, selector: &mut S, memory: &mut [T::Row])
        requires order { S.ordered selector.old }
        requires codes { T.kind.count ≤ S.range selector.old }
        requires room { length memory.old ≡ room (notes_of self.old) }
        ensures notes { let before = notes_of self.old in
            notes_of self.new ≡ with_areas before (dropped before.areas) }
        ensures memory { let before = notes_of self.old in
            memory.new ≡ task_made T.kind before.size (task before) memory.old }
        ensures weights { let before = notes_of self.old in
            let weights = S.weight selector.old in
            (c : ℕ) → S.weight selector.new c
            ≡ task_weights T.kind before.size (task before) memory.old weights c }
        ensures range_kept { S.range selector.new ≡ S.range selector.old }
        ensures in_order { S.ordered selector.new }
    {
        let Some((stage, rect)) = self.lowest() else {
            return;
        };
        let frame = self.frame();
        let window = Window::of(&self.recipe.stages()[stage - 1]);
        let (from, into) = (frame.start(stage - 1), frame.start(stage));
        let pass = Pass::new(&window, frame, from, into);
        pass.stage_row::<T, S>(selector, memory, rect.top, rect.left, rect.right);
        self.areas.drop_row();
    }

    /// Redoes so many stale rows as the budget allows, and answers how many. Where that is none, everything is
    /// as it was.
    pub fn work<T: Tone, S: Selector>(
        &mut self,
        selector: &mut S,
        memory: &mut [T::Row],
        budget: usize,
    ) -> usize
        requires order { S.ordered selector.old }
        requires codes { T.kind.count ≤ S.range selector.old }
        requires room { length memory.old ≡ room (notes_of self.old) }
        ensures answer { result ≡ rows_within budget (notes_of self.old) }
        ensures notes { let from = open_of self.old (S.weight selector.old) memory.old in
            notes_of self.new ≡ (redone_rows T.kind result from).notes }
        ensures memory { let from = open_of self.old (S.weight selector.old) memory.old in
            memory.new ≡ (redone_rows T.kind result from).memory }
        ensures weights { let from = open_of self.old (S.weight selector.old) memory.old in
            (c : ℕ) → S.weight selector.new c ≡ (redone_rows T.kind result from).weights c }
        ensures idle { result ≡ 0 → (self.new ≡ self.old) × (selector.new ≡ selector.old) }
        ensures range_kept { S.range selector.new ≡ S.range selector.old }
        ensures in_order { S.ordered selector.new }
    {
        let rows = budget.min(self.rows_left());
        for _done in 0..rows {
            self.redo::<T, S>(selector, memory);
        }
        rows
    }

    /// The size of the card, within its limits.
    pub fn frame(&self) -> Frame
        ensures { result.size ≡ (notes_of self.now).size }
    {
        self.areas.frame()
    }

    /// The rows of the memory: one plane more than stages.
    pub fn room(&self) -> usize
        ensures { result ≡ room (notes_of self.now) }
    {
        self.frame().start(self.most + 1)
    }

    /// The most stages that there are planes for.
    pub fn most(&self) -> usize
        ensures { result ≡ (notes_of self.now).most }
    {
        self.most
    }

    /// The stages of the recipe in force.
    pub fn recipe(&self) -> &[Stage]
        ensures { result.now ≡ (notes_of self.now).recipe }
    {
        self.recipe.stages()
    }

    /// Where the finished plane begins: that of the last stage, plane 0 without stages.
    pub fn finished(&self) -> usize
        ensures { result ≡ start (notes_of self.now).size (length (notes_of self.now).recipe) }
    {
        self.frame().start(self.recipe.len())
    }

    /// The stale rows of all stages together.
    pub fn rows_left(&self) -> usize
        ensures { result ≡ stale_rows (notes_of self.now).areas }
    {
        self.areas.rows_left()
    }

    /// Refused with column 0 while any stage is stale (22).
    pub fn settled(&self) -> Result<(), Refusal>
        ensures { result ≡ (if stale_rows (notes_of self.now).areas == 0
            then Ok tt
            else Err (Stale 0)) }
    {
        if self.rows_left() > 0 {
            return Err(Refusal::Stale(0));
        }
        Ok(())
    }

    /// The stage, counted from 1, and the row that is redone next.
    pub fn next(&self) -> Option<(usize, usize)>
        ensures { result ≡ next_of (notes_of self.now).areas }
    {
        self.areas.next()
    }

    /// The lowest stage with an area, counted from 1, and that area.
    pub(crate) fn lowest(&self) -> Option<(usize, Rect)>
        ensures answer { result ≡ lowest (notes_of self.now).areas }
        ensures stands { IfSome result (λ p. Stands self.now p.0 p.1) }
    {
        self.areas.lowest()
    }

    /// The first column of a piece of row y, n wide from column x on, that is stale at the last stage.
    pub fn first_met(&self, x: usize, y: usize, n: usize) -> Option<usize>
        ensures { result ≡ met (last_area (notes_of self.now).areas) x y n }
    {
        self.areas.first_met(x, y, n)
    }

    /// Where the pixel in column x and row y lies in the finished plane.
    pub fn finished_at(&self, x: usize, y: usize) -> usize
        requires column { x < (notes_of self.now).size.width }
        requires row { y < (notes_of self.now).size.height }
        ensures value { let notes = notes_of self.now in
            result ≡ start notes.size (length notes.recipe) + cell notes.size x y }
        ensures bound { let notes = notes_of self.now in
            result + (notes.size.width - x) ≤ room notes }
    {
        self.finished() + self.frame().cell(x, y)
    }
}
