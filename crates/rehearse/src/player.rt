//! A card with its memory, and a selector of the program's own, on which calls are played.

ghost use Rattle.std.specs.Option.{option_map};
ghost use Rattle.std.specs.Prelude.{◌≡◌, ℕ, [], IfOk, MatchResult, None};
ghost use Rattle.calls.specs.Calls.Answer.{Number};
ghost use Rattle.calls.specs.Calls.Call.{Left};
ghost use Rattle.calls.specs.Outcomes.{Outcome};
ghost use Rattle.cards.specs.Meanings.{InOrder, notes, selector_of};
ghost use Rattle.rehearse.specs.Seen.{Seen, stands};
ghost use Rattle.rehearse.specs.Plays.{AnswersDue, AnswersLeft, AnswersResidue, AnswersRow, AnswersTone, AnswersWrite, FileMade, HandsOver, LoadsFile, NoFile, Opens, Patches, Ranks, Works, area_after, memory_for};
ghost use Rattle.rehearse.specs.Rooms.{room_of};
ghost use Rattle.selectors.specs.Played.{bag_after};

use cards::card::Card;
use planes::frame::Frame;
use planes::size::Size;
use recipes::draft::Draft;
use scripts::{Answer, Fault, Opening, Patch, Rows, rows_read, rows_shown};
use selectors::Selector;
use selectors::calls::{SelectorCall, play};
use std::alloc::{AllocError, Global};
use std::marker::Model;
use tones::{Grey, Relief, Tone};

/// The card, its memory, the number of pixels of the card, and the selector.
#[derive(Drop)]
pub struct Player<T: Rows, S: Selector> {
    card: Card<T, S>,
    memory: Vec<T::Row>,
    area: usize,
    own: S,
}

impl<T: Rows, S: Selector> Model for Player<T, S> {
    ghost Value = { Seen T T.Row S };

    ghost view = { λ p. record {
      card = p.card;
      memory = p.memory.items;
      area = p.area;
      own = p.own;
    } };

    ghost invariant = { λ p. InOrder T.kind S.range S.ordered p.card × S.ordered p.own };
}

/// How many rows the memory has and how many plane 0 has; none where a number is outside its
/// limits.
pub fn room(opening: Opening) -> Option<(usize, usize)>
    ensures { result ≡ room_of opening.width opening.height opening.stages }
{
    let Opening {
        width,
        height,
        stages,
    } = opening;
    let frame = Frame::checked(Size { width, height })?;
    if !(1..=8).contains(&stages) {
        return None;
    }
    Some((frame.start(stages + 1), frame.area()))
}

/// The memory that a card is opened with: all planes, where the rows fill plane 0 or there are
/// none; else these rows alone.
fn memory_for<R: Copy + Default>(
    mut rows: Vec<R>,
    room: Option<(usize, usize)>,
) -> Result<Vec<R>, AllocError>
    ensures { IfOk result (λ memory. (zero : R) × R.Default.is_default zero
        × (memory.items ≡ memory_for room zero rows.items)) }
{
    let blank = R::default();
    if let Some((all, area)) = room {
        if rows.is_empty() || rows.len() == area {
            rows.resize(all, blank)?;
        }
    }
    Ok(rows)
}

impl<T: Rows, S: Selector> Player<T, S> {
    /// A card without a size.
    pub fn new(heap: Global, selector: S, own: S) -> Player<T, S>
        requires selector { S.ordered selector }
        requires own { S.ordered own }
        ensures card { (selector_of result.card ≡ selector) × (notes result.card ≡ None) }
        ensures memory { (result.memory ≡ []) × (result.area ≡ 0) }
        ensures own { result.own ≡ own }
    {
        Player {
            card: Card::new(selector),
            memory: Vec::new(heap),
            area: 0,
            own,
        }
    }

    /// The stale rows of the card.
    pub fn left(&self) -> usize
        ensures { let state = stands S.weight self.now in
            Outcome T.kind state Left (Number result) state }
    {
        self.card.left()
    }

    /// Opens the card with these rows in plane 0, or zeros where there are none. Rows of another
    /// count are all of the memory, which is then refused unless they fill it.
    pub fn open(&mut self, heap: Global, opening: Opening, words: &[&str]) -> Result<Answer, Fault>
        ensures outcome { let range = S.range (selector_of self.old.card) in
            Opens T.kind T.Rows.scripted T.Row.Default.is_default range
            (stands S.weight self.old) opening words.now result
            (stands S.weight self.new) }
        ensures area { self.new.area ≡ area_after result opening self.old.area }
        ensures own { self.new.own ≡ self.old.own }
    {
        let room = room(opening);
        let rows = memory_for(rows_read::<T>(heap, words)?, room)?;
        let Opening {
            width,
            height,
            stages,
        } = opening;
        self.card.open(rows.as_slice(), width, height, stages)?;
        self.memory = rows;
        self.area = room.map_or(0, |(_, area)| area);
        Ok(Answer::Done)
    }

    /// Hands a draft over; not read without one.
    pub fn install(&mut self, draft: Option<Draft>) -> Result<Answer, Fault>
        ensures outcome { let before = stands S.weight self.old in
            HandsOver T.kind before draft result (stands S.weight self.new) }
        ensures kept { (self.new.area ≡ self.old.area) × (self.new.own ≡ self.old.own) }
    {
        let draft = draft.ok_or(Fault::Unknown)?;
        self.card.install(self.memory.as_slice(), draft)?;
        Ok(Answer::Done)
    }

    /// Writes these rows into a rectangle.
    pub fn patch(&mut self, heap: Global, patch: Patch, words: &[&str]) -> Result<Answer, Fault>
        ensures outcome { Patches T.kind T.Rows.scripted (stands S.weight self.old)
            patch words.now result (stands S.weight self.new) }
        ensures kept { (self.new.area ≡ self.old.area) × (self.new.own ≡ self.old.own) }
    {
        let rows = rows_read::<T>(heap, words)?;
        let Patch {
            x,
            y,
            width,
            height,
        } = patch;
        let memory = self.memory.as_mut_slice();
        self.card
            .patch(memory, x, y, width, height, rows.as_slice())?;
        Ok(Answer::Done)
    }

    /// Redoes rows, at most as many as the budget.
    pub fn work(&mut self, budget: usize) -> Result<Answer, Fault>
        ensures outcome { let before = stands S.weight self.old in
            Works T.kind before budget result (stands S.weight self.new) }
        ensures kept { (self.new.area ≡ self.old.area) × (self.new.own ≡ self.old.own) }
    {
        let rows = self.card.work(self.memory.as_mut_slice(), budget)?;
        Ok(Answer::Counted(rows as u64))
    }

    /// Tells a piece of the finished card.
    pub fn row(&self, heap: Global, x: usize, y: usize, n: usize) -> Result<Answer, Fault>
        ensures { AnswersRow T.kind T.Rows.scripted (stands S.weight self.now) x y n result }
    {
        let rows = self.card.row(self.memory.as_slice(), x, y, n)?;
        Ok(Answer::Rows(rows_shown::<T>(heap, rows)?))
    }

    /// Tells the stale rows.
    pub fn answer_left(&self) -> Answer
        ensures { AnswersLeft T.kind (stands S.weight self.now) result }
    {
        Answer::Number(self.card.left() as u64)
    }

    /// Tells the next row.
    pub fn answer_due(&self) -> Answer
        ensures { AnswersDue T.kind (stands S.weight self.now) result }
    {
        Answer::Due(self.card.due())
    }

    /// Tells raw minus finished; not read where the kind has no residues.
    pub fn residue(&self, heap: Global) -> Result<Answer, Fault>
        ensures { AnswersResidue T.Rows.scripted (stands S.weight self.now) self.now.area result }
    {
        let mut reliefs = vec![in heap; 0i16; self.area]?;
        T::residue(&self.card, self.memory.as_slice(), reliefs.as_mut_slice())?;
        Ok(Answer::Rows(rows_shown::<Relief>(heap, reliefs.as_slice())?))
    }

    /// The card's file, made in so many lent bytes; not read where the kind has no files.
    pub fn file(&self, heap: Global, room: usize) -> Result<Vec<u8>, Fault>
        ensures { let at = stands S.weight self.now in
            MatchResult result (λ file. FileMade T.Rows.scripted at room file.items)
            (NoFile T.Rows.scripted at room) }
    {
        let mut file = vec![in heap; 0u8; room]?;
        let taken = T::write(&self.card, self.memory.as_slice(), file.as_mut_slice())?;
        file.truncate(taken);
        Ok(file)
    }

    /// Tells the card's file, made in so many lent bytes.
    pub fn write(&self, heap: Global, room: usize) -> Result<Answer, Fault>
        ensures { AnswersWrite T.Rows.scripted (stands S.weight self.now) room result }
    {
        let file = self.file(heap, room)?;
        let bytes = rows_shown::<Grey>(heap, file.as_slice())?;
        Ok(Answer::File(file.len() as u64, bytes))
    }

    /// Patches the card with a file; unreadable without one, not read where the kind has no files.
    pub fn load(&mut self, x: usize, y: usize, file: Option<Vec<u8>>) -> Result<Answer, Fault>
        ensures outcome { LoadsFile T.Rows.scripted (stands S.weight self.old)
            x y (option_map (λ bytes. bytes.items) file) result
            (stands S.weight self.new) }
        ensures kept { (self.new.area ≡ self.old.area) × (self.new.own ≡ self.old.own) }
    {
        let bytes = file.as_ref().map(|bytes| bytes.as_slice());
        T::load(&mut self.card, self.memory.as_mut_slice(), x, y, bytes)?;
        Ok(Answer::Done)
    }

    /// Makes a tone of these parts, and tells its code.
    pub fn tone(&self, words: &[&str]) -> Result<Answer, Fault>
        ensures { AnswersTone T.kind T.Rows.scripted words.now result }
    {
        let row = T::read(words).ok_or(Fault::Unknown)?;
        let tone = T::make(row)?;
        Ok(Answer::Counted(tone.code() as u64))
    }

    /// Makes the call on the program's own selector.
    pub fn ranks(&mut self, call: SelectorCall) -> Result<Answer, Fault>
        ensures answer { Ranks (S.weight self.old.own) (S.range self.old.own) call result }
        ensures kept { (self.new.card ≡ self.old.card) × (self.new.memory ≡ self.old.memory)
            × (self.new.area ≡ self.old.area) }
        ensures weights { (c : ℕ) → S.weight self.new.own c
            ≡ bag_after (S.weight self.old.own) (S.range self.old.own) call c }
    {
        let reply = play(&mut self.own, call)?;
        Ok(reply.into())
    }
}
