//! Soft erosion and dilation at every pixel, for every tone kind and selector.

#![tactic(auto)]

pub mod pass;
pub mod site;
pub mod taps;
#[cfg(test)]
mod tests;
pub mod window;

pub use pass::Pass;
pub use site::Site;
pub use taps::Tap;
pub use window::Window;
