//! The limits of every selector, and the range of the gate and the ladder.
ghost use Rattle.std.specs.Prelude.{◌≡◌, ◌+◌, ◌<◌, ◌≤◌, ◌⊎◌, MatchResult};
ghost use Rattle.selectors.specs.declared.limits.TheConstants.{MOST_WEIGHT};
ghost use Rattle.selectors.specs.Calls.{put_number, select_number};

use crate::refusals::{PutRefusal, SelectRefusal};

/// At most so many codes have weight.
pub const MOST_CODES: usize = 64;

/// At most so much is the total.
pub const MOST_WEIGHT: u32 = 65_535;

/// The codes of the gate and the ladder are below this: they have 25 bits.
pub const WIDE_RANGE: u32 = 33_554_432;

/// The total with this amount more.
pub fn heavier(sum: u32, amount: u32) -> Result<u32, PutRefusal>
    requires { sum ≤ MOST_WEIGHT }
    ensures { MatchResult result (λ t. (t ≡ sum + amount) × (t ≤ MOST_WEIGHT))
        (λ e. (put_number e ≡ 4) × (MOST_WEIGHT < sum + amount)) }
{
    if amount > MOST_WEIGHT - sum {
        return Err(PutRefusal::Heavy);
    }
    Ok(sum + amount)
}

/// That a selector of this total has the rank.
pub fn ranked(rank: u32, total: u32) -> Result<(), SelectRefusal>
    ensures { MatchResult result (λ _. (0 < rank) × (rank ≤ total))
        (λ e. (select_number e ≡ 5) × ((rank ≡ 0) ⊎ (total < rank))) }
{
    if rank == 0 || rank > total {
        return Err(SelectRefusal::Unranked);
    }
    Ok(())
}
