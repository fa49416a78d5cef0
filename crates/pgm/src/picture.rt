//! A picture, as it lies in a file.

/// A picture. One that `read` answers is 1 to 1,024 wide and 1 to 256 high; its maxval is from 1 to 255,
/// and no sample is above it.
#[derive(Clone, Copy)]
pub struct Picture<'a> {
    pub width: usize,
    pub height: usize,
    pub maxval: u8,
    /// A part of the file itself: row by row from the top, each row from the left.
    pub samples: &'a [u8],
}
