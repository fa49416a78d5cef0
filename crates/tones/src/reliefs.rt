//! Reliefs: -255 has code 0; lowered by the difference, held to -255..255.
ghost use Rattle.std.specs.Prelude.{◌≤◌, unsigned_abs};

use crate::interface::Tone;
use crate::refusals::ToneRefusal;

/// A relief: a height from -255 to 255.
#[derive(Clone, Copy, PartialEq, Eq, Debug)]
pub struct Relief {
    pub height: i16,
    ghost within: { unsigned_abs height ≤ 255 },
}

impl Relief {
    ghost use Rattle.std.specs.Prelude.{pos, neg_ℤ};
    ghost use Rattle.tones.specs.Reliefs.{Making, relief_value, reliefs};
    ghost use Rattle.tones.specs.Whole.{WholeNumbers};

    /// The relief of a height; refused outside -255..255.
    pub fn new(height: i16) -> Result<Relief, ToneRefusal>
        ensures answer { Making height result }
        ensures whole { WholeNumbers reliefs (neg_ℤ (pos 255)) (pos 255) relief_value }
    {
        if height.unsigned_abs() > 255 {
            return Err(ToneRefusal::OutsideLimits);
        }
        Ok(Relief { height })
    }
}

impl Tone for Relief {
    ghost use Rattle.std.specs.Prelude.{◌≡◌};
    ghost use Rattle.tones.specs.Reliefs.{reliefs};
    ghost use Rattle.tones.specs.ReliefLaws.{relief_laws};

    type Row = i16;

    ghost kind = { reliefs };

    ghost lawful = { relief_laws };

    fn count() -> u32 {
        511
    }

    fn span() -> u32 {
        255
    }

    fn code(self) -> u32 {
        (i32::from(self.height) + 255) as u32
    }

    fn of_code(code: u32) -> Relief
        ensures { reliefs.row result ≡ reliefs.row (reliefs.tone code) }
    {
        Relief {
            height: code.min(510) as i16 - 255,
        }
    }

    fn lowered(self, amount: i32) -> Relief
        ensures { reliefs.row result ≡ reliefs.row (reliefs.lowered self amount) }
    {
        if amount.unsigned_abs() > 255 {
            return self;
        }
        Relief {
            height: (self.height - amount as i16).clamp(-255, 255),
        }
    }

    fn row(self) -> i16 {
        self.height
    }

    fn of_row(row: i16) -> Relief
        ensures { reliefs.row result ≡ reliefs.row (reliefs.counted row) }
    {
        Relief::new(row).unwrap_or(Relief { height: 255 })
    }
}
