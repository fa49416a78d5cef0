//! What can be said of the tones of any kind, by their codes.
ghost use Rattle.std.specs.Prelude.{◌≡◌, min, max};
ghost use Rattle.tones.specs.Ranking.{at_least, at_or_above};

use crate::interface::Tone;

/// The lower of two tones.
pub fn lower_of<T: Tone>(a: T, b: T) -> T
    ensures { T.kind.code result ≡ min (T.kind.code a) (T.kind.code b) }
{
    if a.code() < b.code() { a } else { b }
}

/// The higher of two tones.
pub fn higher_of<T: Tone>(a: T, b: T) -> T
    ensures { T.kind.code result ≡ max (T.kind.code a) (T.kind.code b) }
{
    if a.code() < b.code() { b } else { a }
}

/// How many tones of a list are at least a given one.
pub fn count_at_least<T: Tone>(tones: &[T::Row], tone: T) -> usize
    ensures { result ≡ at_least T.kind (T.kind.code tone) tones.now }
{
    let least = tone.code();
    tones
        .iter()
        .filter(|row| reaches::<T>(**row, least))
        .count()
}

// Whether a row counts as a tone of a code or above.
fn reaches<T: Tone>(row: T::Row, code: u32) -> bool
    ensures { result ≡ at_or_above T.kind code row }
{
    T::of_row(row).code() >= code
}
