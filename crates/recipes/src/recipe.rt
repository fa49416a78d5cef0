//! A recipe: its stages in order.

ghost use Rattle.recipes.specs.declared.recipe.TheConstants.{MOST_STAGES};
ghost use Rattle.std.specs.Prelude.{◌≡◌, ◌≤◌, length};

use crate::draft::Step;
use crate::element::Element;

/// A recipe has at most so many stages: two for each step.
pub const MOST_STAGES: usize = 8;

/// What a stage does.
#[derive(Clone, Copy, PartialEq, Eq, Debug)]
pub enum Operation {
    Erosion,
    Dilation,
}

/// An operation with its element.
#[derive(Clone, Copy)]
pub struct Stage {
    pub operation: Operation,
    pub element: Element,
}

/// At most 8 stages, the first `count` of the array.
///
/// A fixed array, since nothing here allocates; the kit's `ArrayVec` is not `Copy`.
#[derive(Clone, Copy)]
pub struct Recipe {
    pub(crate) stages: [Stage; MOST_STAGES],
    pub(crate) count: usize,
    ghost long: { length stages ≡ MOST_STAGES },
    ghost few: { count ≤ MOST_STAGES },
}

impl Recipe {
    ghost use Rattle.recipes.specs.Recipes.{amounts_within, staged, stages_of, stages_of_step};
    ghost use Rattle.recipes.specs.declared.draft.TheConstants.{MOST_STEPS};
    ghost use Rattle.std.specs.Prelude.{◌<◌, [], ◌∷◌, ◌++◌, ◌==◌};

    /// A recipe without stages.
    pub fn empty() -> Recipe
        ensures stages { staged result ≡ [] }
    {
        Recipe {
            stages: [Stage {
                operation: Operation::Erosion,
                element: Element::new(),
            }; MOST_STAGES],
            count: 0,
        }
    }

    /// The recipe of some steps.
    pub(crate) fn of(steps: &[Step]) -> Recipe
        requires { length steps.now ≤ MOST_STEPS }
        ensures stages { staged result ≡ stages_of steps.now }
    {
        let mut recipe = Recipe::empty();
        for step in steps {
            recipe.append(step);
        }
        recipe
    }

    /// The stages in order.
    pub fn stages(&self) -> &[Stage]
        ensures stages { result.now ≡ staged self.now }
        ensures few { length result.now ≤ MOST_STAGES }
    {
        &self.stages[..self.count]
    }

    /// The number of stages.
    pub fn len(&self) -> usize
        ensures { result ≡ length (staged self.now) }
    {
        self.stages().len()
    }

    /// Whether there is no stage.
    pub fn is_empty(&self) -> bool
        ensures { result ≡ (length (staged self.now) == 0) }
    {
        self.stages().is_empty()
    }

    /// Whether every amount of every stage is from −span to span.
    pub fn amounts_within(&self, span: u32) -> bool
        ensures { result ≡ amounts_within span (staged self.now) }
    {
        self.stages()
            .iter()
            .all(|stage| stage.element.amounts_within(span))
    }

    /// Adds the stages of a step.
    fn append(&mut self, step: &Step)
        requires { length (staged self.old) ≤ 6 }
        ensures stages { staged self.new ≡ staged self.old ++ stages_of_step step.now }
    {
        for operation in step.letter.operations() {
            self.push(Stage {
                operation: *operation,
                element: step.element,
            });
        }
    }

    /// Adds a stage.
    fn push(&mut self, stage: Stage)
        requires { length (staged self.old) < MOST_STAGES }
        ensures stages { staged self.new ≡ staged self.old ++ stage ∷ [] }
    {
        self.stages[self.count] = stage;
        self.count += 1;
    }
}
