//! Tone kinds: marks, greys, reliefs and colours behind one interface.

#![tactic(auto)]

mod colours;
mod greys;
mod interface;
mod marks;
mod ranking;
mod refusals;
mod reliefs;
#[cfg(test)]
mod tests;

pub use colours::{Colour, ColourRow};
pub use greys::Grey;
pub use interface::Tone;
pub use marks::Mark;
pub use ranking::{count_at_least, higher_of, lower_of};
pub use refusals::ToneRefusal;
pub use reliefs::Relief;
