//! Reads words.

ghost use Rattle.scripts.specs.Words.{Read};

use std::str::FromStr;

/// The number or the letter that a word writes.
pub fn number<N: FromStr>(word: &str) -> Option<N>
where
    N::Err: Drop,
    ensures { Read N.FromStr.from_str_gives word.now result }
{
    word.parse().ok()
}
