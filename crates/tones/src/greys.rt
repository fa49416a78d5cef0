//! Greys: each its own code; lowered by the difference, held to 0..255.
ghost use Rattle.std.specs.Prelude.{◌<◌};

use crate::interface::Tone;

/// A grey from 0, black, to 255, white.
#[derive(Clone, Copy, PartialEq, Eq, Debug)]
pub struct Grey {
    pub level: u8,
    ghost within: { level < 256 },
}

impl Grey {
    ghost use Rattle.std.specs.Prelude.{◌≡◌, pos};
    ghost use Rattle.tones.specs.Greys.{grey_value, greys};
    ghost use Rattle.tones.specs.Whole.{WholeNumbers};

    /// The grey of its row.
    pub fn new(level: u8) -> Grey
        ensures answer { result.level ≡ level }
        ensures whole { WholeNumbers greys (pos 0) (pos 255) grey_value }
    {
        Grey { level }
    }
}

impl Tone for Grey {
    ghost use Rattle.std.specs.Prelude.{◌≡◌};
    ghost use Rattle.tones.specs.Greys.{greys};
    ghost use Rattle.tones.specs.GreyLaws.{grey_laws};

    type Row = u8;

    ghost kind = { greys };

    ghost lawful = { grey_laws };

    fn count() -> u32 {
        256
    }

    fn span() -> u32 {
        255
    }

    fn code(self) -> u32 {
        u32::from(self.level)
    }

    fn of_code(code: u32) -> Grey
        ensures { greys.row result ≡ greys.row (greys.tone code) }
    {
        Grey {
            level: code.min(255) as u8,
        }
    }

    fn lowered(self, amount: i32) -> Grey
        ensures { greys.row result ≡ greys.row (greys.lowered self amount) }
    {
        // Made before the test, which costs no branch where the amount is 0.
        let held = (i64::from(self.level) - i64::from(amount)).clamp(0, 255) as u8;
        if amount.unsigned_abs() > 255 {
            return self;
        }
        Grey { level: held }
    }

    fn row(self) -> u8 {
        self.level
    }

    fn of_row(row: u8) -> Grey
        ensures { greys.row result ≡ greys.row (greys.counted row) }
    {
        Grey { level: row }
    }
}
