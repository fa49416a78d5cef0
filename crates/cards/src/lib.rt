//! Cards: a size, a recipe and stale areas over lent memory, and the calls that redo only what is stale.

#![tactic(auto)]

pub mod card;
pub mod faults;
mod laying;
mod open_card;
pub mod refused;
mod residues;

pub use calls::refusals::Refusal;
pub use card::{Card, LONGEST_FILE, memory_len};
pub use faults::LoadFault;
pub use refused::AnyRefusal;
