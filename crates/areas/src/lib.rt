//! Stale areas: which rows of which stage of a recipe have to be redone.

#![tactic(auto)]

pub mod areas;
pub mod rect;
#[cfg(test)]
mod tests;

pub use areas::Areas;
pub use rect::Rect;
