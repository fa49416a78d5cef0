//! A whole plane of a stage, with the laws of soft morphology.

#![tactic(auto)]

#[cfg(test)]
mod tests;
pub mod whole;

pub use whole::stage_plane;
