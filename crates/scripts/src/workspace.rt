//! The element and the draft at hand. They stay where a new card is made.

ghost use Rattle.std.specs.Prelude.{◌≡◌, [], ◌∷◌, None};
ghost use Rattle.recipes.specs.Placed.{placed, order_of};
ghost use Rattle.recipes.specs.Places.{origin};
ghost use Rattle.scripts.specs.Workspaces.{Drafted, Edited, Stepped, edit_order, edit_places};

use crate::answers::{Answer, Fault};
use crate::commands::{Drafting, Edit};
use recipes::draft::Draft;
use recipes::element::Element;

/// The present element, and the present draft until it is handed over.
#[derive(Drop)]
pub struct Workspace {
    pub element: Element,
    pub draft: Option<Draft>,
}

impl Workspace {
    /// A new element, and no draft.
    pub fn new() -> Workspace
        ensures places { placed result.element ≡ origin ∷ [] }
        ensures order { order_of result.element ≡ 1 }
        ensures draft { result.draft ≡ None }
    {
        Workspace {
            element: Element::new(),
            draft: None,
        }
    }

    /// Makes the call on the present element.
    pub fn edit(&mut self, edit: Edit) -> Result<Answer, Fault>
        ensures answer { Edited (placed self.old.element) edit result }
        ensures places { placed self.new.element ≡ edit_places (placed self.old.element) edit }
        ensures order { (order_of self.new.element)
            ≡ edit_order (placed self.old.element) (order_of self.old.element) edit }
        ensures draft { self.new.draft ≡ self.old.draft }
    {
        match edit {
            Edit::Element => self.element = Element::new(),
            Edit::Place(dx, dy, part, amount) => self.element.place(dx, dy, part, amount)?,
            Edit::Amount(dx, dy, amount) => self.element.amount(dx, dy, amount)?,
            Edit::Order(k) => self.element.order(k)?,
            Edit::Standard(i) => self.element.standard(i)?,
        }
        Ok(Answer::Done)
    }

    /// Makes the call on the present draft.
    pub fn draft(&mut self, drafting: Drafting) -> Result<Answer, Fault>
        ensures answer { Drafted self.old.draft self.old.element drafting self.new.draft result }
        ensures element { self.new.element ≡ self.old.element }
    {
        match drafting {
            Drafting::Begin(n) => {
                self.draft = Some(Draft::begin(n));
                Ok(Answer::Done)
            }
            Drafting::Step(letter) => self.step(letter),
        }
    }

    /// Adds a step with the present element; not read without a draft.
    fn step(&mut self, letter: char) -> Result<Answer, Fault>
        ensures answer { Stepped self.old.draft self.old.element letter self.new.draft result }
        ensures element { self.new.element ≡ self.old.element }
    {
        let draft = self.draft.as_mut().ok_or(Fault::Unknown)?;
        draft.step(letter, &self.element)?;
        Ok(Answer::Done)
    }

    /// Gives the present draft away.
    pub fn hand_over(&mut self) -> Option<Draft>
        ensures draft { (result ≡ self.old.draft) × (self.new.draft ≡ None) }
        ensures element { self.new.element ≡ self.old.element }
    {
        self.draft.take()
    }
}
