//! The size of a card, and where its planes and pixels lie in one long memory.

#![tactic(auto)]

pub mod frame;
pub mod size;

pub use frame::{Frame, MOST_HEIGHT, MOST_WIDTH};
pub use size::Size;
