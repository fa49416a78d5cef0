//! What a recipe is made of: structuring elements, steps and stages.

#![tactic(auto)]

pub mod draft;
pub mod element;
pub mod places;
pub mod reach;
pub mod recipe;
pub mod refusals;
pub mod shapes;
#[cfg(test)]
mod tests;

pub use draft::{Draft, Letter, MOST_STEPS, Step};
pub use element::{Element, MOST_PLACES};
pub use places::{FARTHEST, MOST_AMOUNT, Part, Place, UnknownPart};
pub use reach::Reach;
pub use recipe::{MOST_STAGES, Operation, Recipe, Stage};
pub use refusals::{DraftRefusal, ElementRefusal};
pub use shapes::Shape;
