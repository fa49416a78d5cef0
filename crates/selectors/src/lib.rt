//! Weighted rank selection: one interface, `Selector`, and three implementations of it.

#![tactic(auto)]

pub mod calls;
mod entries;
mod gate;
mod histogram;
mod ladder;
mod limits;
mod median;
mod refusals;
mod selector;
#[cfg(test)]
mod tests;

pub use calls::{CallRefusal, Reply, SelectorCall, SelectorKind, UnknownKind, play};
pub use entries::Entry;
pub use gate::Gate;
pub use histogram::Histogram;
pub use ladder::Ladder;
pub use limits::{MOST_CODES, MOST_WEIGHT};
pub use median::{MedianRefusal, weighted_median};
pub use refusals::{PutRefusal, SelectRefusal};
pub use selector::Selector;
