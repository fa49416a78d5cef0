//! A card, and the calls on it.

ghost use Rattle.std.specs.Prelude.{◌≡◌, ℕ, List, length, Some, None, Ok, Err, OnOk, OnErr, ◌==◌, if◌then◌else◌};
ghost use Rattle.calls.specs.Calls.{room};
ghost use Rattle.calls.specs.Opening.{memory_of};
ghost use Rattle.calls.specs.declared.refusals.Refusal.TheVariants.{Memory};
ghost use Rattle.cards.specs.OpenCards.{notes_of};

use crate::faults::LoadFault;
use crate::open_card::OpenCard;
use crate::residues::subtract;
use areas::rect::Rect;
use calls::refusals::Refusal;
use pgm::file::read;
use planes::frame::Frame;
use planes::size::Size;
use recipes::draft::Draft;
use recipes::recipe::Stage;
use selectors::Selector;
use std::marker::PhantomData;
use tones::{Grey, Tone};

/// The most bytes of the file of a card: a write that is lent as many always has room.
pub const LONGEST_FILE: usize = 262_160;

/// A card of tones T with a selector S. Once it has a size it is an open card; its tones lie in memory that each
/// call is lent.
/// That its selector is in order is no invariant: a card may be made of any selector, and each call says that it
/// keeps what holds.
#[derive(Drop)]
pub struct Card<T, S> {
    pub(crate) selector: S,
    pub(crate) opened: Option<OpenCard>,
    pub(crate) tones: PhantomData<T>,
}

impl<T: Tone, S: Selector> Card<T, S> {
    ghost use Rattle.std.specs.Option.{option_map};
    ghost use Rattle.calls.specs.Calls.Answer.{Next, Number};
    ghost use Rattle.calls.specs.Calls.Call.{Due, Install, Left, Patch, Row, Work};
    ghost use Rattle.calls.specs.Calls.{done, number, piece};
    ghost use Rattle.calls.specs.Opening.{fresh, open_refusal};
    ghost use Rattle.calls.specs.Outcomes.{Outcome, done_unless, kept_if};
    ghost use Rattle.calls.specs.Promise.{Promise};
    ghost use Rattle.filters.specs.Laws.{SoftMorphologyLaws};
    ghost use Rattle.planes.specs.declared.size.Size.{Size as PlaneSize};
    ghost use Rattle.cards.specs.Meanings.{InOrder, StaysInOrder, notes, recipe_of, selector_of, state_of};

    /// A card without a size.
    pub fn new(selector: S) -> Self
        ensures selector { selector_of result ≡ selector }
        ensures notes { notes result ≡ None }
        ensures in_order { S.ordered selector → InOrder T.kind S.range S.ordered result }
    {
        Card {
            selector,
            opened: None,
            tones: PhantomData,
        }
    }

    /// Gives the card a size: an empty recipe, nothing stale. A card may be opened again: it starts over.
    /// Refused where the size or the number of stages is outside its limits (13), with memory of another length
    /// (14), and where the selector's range is smaller than the number of tones (15).
    ///
    /// What the card promises of every run of calls from there on is the clause `promise`; what the stages of
    /// every recipe make keeps the laws of soft morphology (`laws`).
    pub fn open(
        &mut self,
        memory: &[T::Row],
        width: usize,
        height: usize,
        stages: usize,
    ) -> Result<(), Refusal>
        ensures answer { let range = S.range (selector_of self.old) in
            let long = length memory.now in
            done {R = T.Row} result
            ≡ done_unless (open_refusal T.kind.count range long width height stages) }
        ensures notes { let range = S.range (selector_of self.old) in
            let refusal = open_refusal T.kind.count range (length memory.now) width height stages in
            notes self.new ≡ kept_if refusal (notes self.old) (Some (fresh width height stages)) }
        ensures selector { selector_of self.new ≡ selector_of self.old }
        ensures kept { OnErr result (self.new ≡ self.old) }
        ensures in_order { StaysInOrder T.kind S.range S.ordered self.old self.new }
        ensures laws { SoftMorphologyLaws T.kind }
        ensures promise { let size : PlaneSize = record { width = width; height = height } in
            OnOk result (Promise T.kind size stages (state_of S.weight self.new memory.now)) }
    {
        let frame = Frame::checked(Size { width, height }).ok_or(Refusal::Size)?;
        if !(1..=8).contains(&stages) {
            return Err(Refusal::Size);
        }
        let opened = OpenCard::fresh(frame, stages);
        fits(&opened, memory)?;
        if self.selector.range() < T::count() {
            return Err(Refusal::Range);
        }
        self.opened = Some(opened);
        Ok(())
    }

    /// Replaces the recipe by that of the draft, which is used up; every stage's area is the whole card. Refused
    /// without a size (16), with memory of another length (14), with fewer steps than declared (19), more stages
    /// than the card has planes for (20), or an amount outside the span (21).
    pub fn install(&mut self, memory: &[T::Row], draft: Draft) -> Result<(), Refusal>
        ensures outcome { let from = state_of S.weight self.old memory.now in
            let to = state_of S.weight self.new memory.now in
            Outcome T.kind from (Install draft) (done result) to }
        ensures selector { selector_of self.new ≡ selector_of self.old }
        ensures kept { OnErr result (self.new ≡ self.old) }
        ensures in_order { StaysInOrder T.kind S.range S.ordered self.old self.new }
    {
        let opened = self.opened.as_mut().ok_or(Refusal::Unopened)?;
        fits(opened, memory)?;
        opened.install::<T>(draft)
    }

    /// Lays a rectangle of tones, given by its corner, width and height, over the raw card, row by row; the
    /// areas spread. Refused without a size (16), with memory of another length (14), where the rectangle is
    /// empty or not wholly on the card (17), and with a wrong count of tones (18).
    pub fn patch(
        &mut self,
        memory: &mut [T::Row],
        x: usize,
        y: usize,
        width: usize,
        height: usize,
        tones: &[T::Row],
    ) -> Result<(), Refusal>
        ensures outcome { let from = state_of S.weight self.old memory.old in
            let to = state_of S.weight self.new memory.new in
            Outcome T.kind from (Patch x y width height tones.now) (done result) to }
        ensures selector { selector_of self.new ≡ selector_of self.old }
        ensures kept { OnErr result (self.new ≡ self.old) }
        ensures in_order { StaysInOrder T.kind S.range S.ordered self.old self.new }
    {
        let opened = self.opened.as_mut().ok_or(Refusal::Unopened)?;
        fits(opened, memory)?;
        opened.patch::<T>(memory, x, y, width, height, tones)
    }

    /// Redoes so many stale rows as the budget allows, and answers how many. Where that is none, the card is as
    /// it was, its selector too. Refused without a size (16) and with memory of another length (14).
    pub fn work(&mut self, memory: &mut [T::Row], budget: usize) -> Result<usize, Refusal>
        requires { InOrder T.kind S.range S.ordered self.old }
        ensures outcome { let from = state_of S.weight self.old memory.old in
            let to = state_of S.weight self.new memory.new in
            Outcome T.kind from (Work budget) (number result) to }
        ensures idle { result ≡ Ok 0 → self.new ≡ self.old }
        ensures range_kept { S.range (selector_of self.new) ≡ S.range (selector_of self.old) }
        ensures kept { OnErr result (self.new ≡ self.old) }
        ensures in_order { InOrder T.kind S.range S.ordered self.new }
    {
        let Card {
            selector,
            opened,
            ..
        } = self;
        let opened = opened.as_mut().ok_or(Refusal::Unopened)?;
        fits(opened, memory)?;
        Ok(opened.work::<T, S>(selector, memory, budget))
    }

    /// Hands out n tones of row y of the finished plane, from column x on: that part of the memory itself.
    /// Refused without a size (16), with memory of another length (14), where the piece is empty or not wholly
    /// on the card (17), and where it meets the last stage's stale area, with the first column met (22).
    pub fn row<'a>(
        &self,
        memory: &'a [T::Row],
        x: usize,
        y: usize,
        n: usize,
    ) -> Result<&'a [T::Row], Refusal>
        ensures { let at = state_of S.weight self.now memory.now in
            Outcome T.kind at (Row x y n) (piece result) at }
    {
        let opened = self.opened.as_ref().ok_or(Refusal::Unopened)?;
        fits(opened, memory)?;
        Rect::on(opened.frame().size, x, y, n, 1).ok_or(Refusal::Outside)?;
        if let Some(column) = opened.first_met(x, y, n) {
            return Err(Refusal::Stale(column));
        }
        let from = opened.finished_at(x, y);
        Ok(&memory[from..from + n])
    }

    /// The stale rows of all stages together; 0 without a size.
    pub fn left(&self) -> usize
        ensures { let at = state_of S.weight self.now in
            (m : List T.Row) → Outcome T.kind (at m) Left (Number result) (at m) }
    {
        self.opened.as_ref().map_or(0, |opened| opened.rows_left())
    }

    /// The stage, counted from 1, and the row that is redone next, or nothing.
    pub fn due(&self) -> Option<(usize, usize)>
        ensures { let at = state_of S.weight self.now in
            (m : List T.Row) → Outcome T.kind (at m) Due (Next result) (at m) }
    {
        self.opened.as_ref()?.next()
    }

    /// The size, once the card has one.
    pub fn size(&self) -> Option<Size>
        ensures { result ≡ option_map (λ n. n.size) (notes self.now) }
    {
        Some(self.opened.as_ref()?.frame().size)
    }

    /// The most stages that a recipe of the card may have, once it has a size.
    pub fn stages(&self) -> Option<usize>
        ensures { result ≡ option_map (λ n. n.most) (notes self.now) }
    {
        Some(self.opened.as_ref()?.most())
    }

    /// The stages of the recipe in force: none without a size.
    pub fn recipe(&self) -> &[Stage]
        ensures { result.now ≡ recipe_of (notes self.now) }
    {
        match &self.opened {
            Some(opened) => opened.recipe(),
            None => &[],
        }
    }

    /// The selector: after work it has the weights of the last window redone.
    pub fn selector(&self) -> &S
        ensures { result.now ≡ selector_of self.now }
    {
        &self.selector
    }
}

impl<S: Selector> Card<Grey, S> {
    ghost use Rattle.std.specs.Prelude.{◌≢◌, ◌≤◌, IfOk};
    ghost use Rattle.calls.specs.Calls.{done, number};
    ghost use Rattle.calls.specs.declared.refusals.Refusal.TheVariants.{NoRoom};
    ghost use Rattle.calls.specs.Residue.{residue_after, residue_answer};
    ghost use Rattle.cards.specs.Loading.{Loads};
    ghost use Rattle.cards.specs.Files.{OnceMore, ReadBack, RightFiles};
    ghost use Rattle.cards.specs.Writing.{Writes};
    ghost use Rattle.cards.specs.Meanings.{StaysInOrder, notes, selector_of, state_of};
    ghost use Rattle.tones.specs.Greys.{greys};

    /// Reads a raw PGM file and patches its tones at column x and row y. Refused with the file's fault (23)
    /// before all else, then as the patch is.
    pub fn load(
        &mut self,
        memory: &mut [u8],
        x: usize,
        y: usize,
        file: &[u8],
    ) -> Result<(), LoadFault>
        ensures outcome { let from = state_of S.weight self.old memory.old in
            Loads file.now from x y result (state_of S.weight self.new memory.new) }
        ensures kept { OnErr result (self.new ≡ self.old) }
        ensures selector { selector_of self.new ≡ selector_of self.old }
        ensures in_order { StaysInOrder greys S.range S.ordered self.old self.new }
    {
        let picture = read(file)?;
        self.patch(memory, x, y, picture.width, picture.height, picture.samples)?;
        Ok(())
    }

    /// Writes raw minus finished into a relief for each pixel. Refused without a size (16), with memory of
    /// another length (14), into a wrong count of reliefs (18), and with column 0 while any stage is stale (22).
    pub fn residue(&self, memory: &[u8], reliefs: &mut [i16]) -> Result<(), Refusal>
        ensures answer { done result
            ≡ residue_answer (notes self.now) memory.now (length reliefs.old) }
        ensures reliefs { reliefs.new ≡ residue_after (notes self.now) memory.now reliefs.old }
    {
        let opened = self.opened.as_ref().ok_or(Refusal::Unopened)?;
        fits(opened, memory)?;
        if reliefs.len() != opened.frame().area() {
            return Err(Refusal::Count);
        }
        opened.settled()?;
        subtract(memory, opened.finished(), reliefs);
        Ok(())
    }

    /// Writes the finished card as a raw PGM file (`P5`, maxval 255) into the first of the lent bytes, and answers
    /// how many it takes, at most `LONGEST_FILE`: as many are always enough. The bytes after them stay. Refused
    /// without a size (16), with memory of another length (14), with column 0 while any stage is stale (22), and
    /// where fewer bytes are lent (24).
    ///
    /// Of the file `pgm::read` makes the card's size and greys again (`read_back`). After any calls it shows what the
    /// recipe in force makes of the raw card (`right`). Loaded onto a card of its size with an empty recipe and
    /// written once more, it is the same file (`once_more`).
    pub fn write(&self, memory: &[u8], file: &mut [u8]) -> Result<usize, Refusal>
        ensures outcome { let at = state_of S.weight self.now memory.now in
            Writes at file.old (number result) file.new }
        ensures read_back { let at = state_of S.weight self.now memory.now in
            ReadBack at (number result) file.new }
        ensures most { IfOk result (λ n. n ≤ LONGEST_FILE) }
        ensures enough { LONGEST_FILE ≤ length file.old → result ≢ Err NoRoom }
        ensures right { RightFiles }
        ensures once_more { OnceMore }
    {
        let opened = self.opened.as_ref().ok_or(Refusal::Unopened)?;
        fits(opened, memory)?;
        opened.settled()?;
        let frame = opened.frame();
        let from = opened.finished();
        let greys = &memory[from..from + frame.area()];
        pgm::write(frame.size.width, frame.size.height, greys, file).ok_or(Refusal::NoRoom)
    }
}

/// The rows of memory that a card of a size and a most number of stages is lent; nothing where they are outside
/// their limits.
pub fn memory_len(width: usize, height: usize, stages: usize) -> Option<usize>
    ensures { result ≡ memory_of width height stages }
{
    let size = Size { width, height };
    let frame = Frame::checked(size)?;
    if !(1..=8).contains(&stages) {
        return None;
    }
    Some(frame.start(stages + 1))
}

/// Refused with memory of another length than the open card's (14). The test before it, whether the card is
/// open, stands in
/// each call, by a line: one that hands out the open card to be changed would hold the selector too, which
/// `work` needs.
pub(crate) fn fits<R>(opened: &OpenCard, memory: &[R]) -> Result<(), Refusal>
    ensures { result
        ≡ (if length memory.now == room (notes_of opened.now) then Ok tt else Err Memory) }
{
    if memory.len() == opened.room() {
        Ok(())
    } else {
        Err(Refusal::Memory)
    }
}
