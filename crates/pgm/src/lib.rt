//! PGM: a raw file read as its picture, or refused with its first fault; a picture written as such a file; and
//! what is printed of a file.

#![tactic(auto)]

mod bytes;
pub mod faults;
pub mod file;
mod machine;
pub mod picture;
pub mod plain;
pub mod raw;
mod reader;
#[cfg(test)]
mod tests;

pub use faults::{FileFault, HeaderFault};
pub use file::read;
pub use picture::Picture;
pub use plain::{PlainPgm, Refused};
pub use raw::{LONGEST_HEADER, write};
