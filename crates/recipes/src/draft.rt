//! A draft: the steps of a recipe to be.

ghost use Rattle.recipes.specs.declared.draft.TheConstants.{MOST_STEPS};
ghost use Rattle.std.specs.Prelude.{◌≡◌, ◌≤◌, length};

use crate::element::Element;
use crate::recipe::{Operation, Recipe};
use crate::refusals::DraftRefusal;

/// A draft has at most so many steps.
pub const MOST_STEPS: usize = 4;

/// What a step does: E, D, O or C.
#[derive(Clone, Copy, PartialEq, Eq, Debug)]
pub enum Letter {
    /// One erosion.
    Erosion,
    /// One dilation.
    Dilation,
    /// An erosion, then a dilation.
    Opening,
    /// A dilation, then an erosion.
    Closing,
}

impl Letter {
    ghost use Rattle.recipes.specs.Recipes.{operations_by};

    /// What a step of the letter does, in order.
    pub(crate) fn operations(self) -> &'static [Operation]
        ensures { result.now ≡ operations_by self }
    {
        match self {
            Letter::Erosion => &[Operation::Erosion],
            Letter::Dilation => &[Operation::Dilation],
            Letter::Opening => &[Operation::Erosion, Operation::Dilation],
            Letter::Closing => &[Operation::Dilation, Operation::Erosion],
        }
    }
}

/// A letter with its element.
#[derive(Clone, Copy)]
pub struct Step {
    pub letter: Letter,
    pub element: Element,
}

/// At most 4 steps, the first `count` of the array, and no more than declared. A draft moves: it is neither copied nor
/// cloned.
///
/// A fixed array, since nothing here allocates; the kit's `ArrayVec` asks for a `Default` of what it holds, and a step has
/// none.
#[derive(Drop)]
pub struct Draft {
    pub(crate) steps: [Step; MOST_STEPS],
    pub(crate) count: usize,
    pub(crate) declared: u64,
    ghost long: { length steps ≡ MOST_STEPS },
    ghost few: { count ≤ MOST_STEPS },
    ghost within: { count ≤ declared },
}

impl Draft {
    ghost use Rattle.recipes.specs.Drafts.{letter_of, step_after, step_refusal, steps_of, declared_by};
    ghost use Rattle.recipes.specs.Recipes.{Finished};
    ghost use Rattle.recipes.specs.Refusals.{draft_number, refused_with};
    ghost use Rattle.std.specs.Prelude.{[], Some, OnErr};

    /// A draft without steps that declares n of them.
    pub fn begin(n: u64) -> Draft
        ensures steps { steps_of result ≡ [] }
        ensures declared { declared_by result ≡ n }
    {
        Draft {
            steps: [Step {
                letter: Letter::Erosion,
                element: Element::new(),
            }; MOST_STEPS],
            count: 0,
            declared: n,
        }
    }

    /// Adds a step. Refused where the letter is none of E, D, O and C (11), then where the draft has 4 steps or as many as
    /// declared (12).
    pub fn step(&mut self, letter: char, element: &Element) -> Result<(), DraftRefusal>
        ensures answer { refused_with draft_number result
            ≡ step_refusal (letter_of letter) (steps_of self.old) (declared_by self.old) }
        ensures steps { steps_of self.new
            ≡ step_after (letter_of letter) element.now (steps_of self.old) (declared_by self.old) }
        ensures declared { declared_by self.new ≡ declared_by self.old }
        ensures kept { OnErr result (self.new ≡ self.old) }
    {
        // Four characters, in which case counts: `o` is no letter.
        match letter {
            'E' => self.push(Letter::Erosion, element),
            'D' => self.push(Letter::Dilation, element),
            'O' => self.push(Letter::Opening, element),
            'C' => self.push(Letter::Closing, element),
            _ => Err(DraftRefusal::UnknownLetter),
        }
    }

    /// The recipe of the steps. The draft is used up. Refused where it has fewer steps than declared (19).
    pub fn finish(self) -> Result<Recipe, DraftRefusal>
        ensures { Finished self result }
    {
        if (self.count as u64) < self.declared {
            return Err(DraftRefusal::TooFew);
        }
        Ok(Recipe::of(&self.steps[..self.count]))
    }

    /// Adds a step of a known letter.
    fn push(&mut self, letter: Letter, element: &Element) -> Result<(), DraftRefusal>
        ensures answer { refused_with draft_number result
            ≡ step_refusal (Some letter) (steps_of self.old) (declared_by self.old) }
        ensures steps { steps_of self.new
            ≡ step_after (Some letter) element.now (steps_of self.old) (declared_by self.old) }
        ensures declared { declared_by self.new ≡ declared_by self.old }
        ensures kept { OnErr result (self.new ≡ self.old) }
    {
        if self.count == MOST_STEPS || self.count as u64 == self.declared {
            return Err(DraftRefusal::Full);
        }
        self.steps[self.count] = Step {
            letter,
            element: *element,
        };
        self.count += 1;
        Ok(())
    }
}
