//! What is read of the program's input.

ghost use Rattle.std.specs.Io.Take.{take_inner, take_limit};
ghost use Rattle.std.specs.Prelude.{◌≡◌};

use std::io::{Read, Take};

/// The longest file that is read, in bytes.
pub const LONGEST: usize = 16640;

/// The part of an input that is read: of a file that is too long no more than shows that it is.
pub fn file_of<R: Read>(input: R) -> Take<R>
    ensures input { take_inner result ≡ input }
    ensures limit { take_limit result ≡ 16641 }
{
    input.take(LONGEST as u64 + 1)
}
