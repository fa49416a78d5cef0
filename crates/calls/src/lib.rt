//! What the calls on a card answer and leave, and what a card promises of every run of them.

#![tactic(auto)]

pub mod refusals;

pub use refusals::Refusal;
