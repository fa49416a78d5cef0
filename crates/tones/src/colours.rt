//! Colours: ranked by brightness, then falling saturation, then hue; no amount lowers one.
ghost use Rattle.std.specs.Prelude.{◌<◌};

use crate::interface::Tone;
use crate::refusals::ToneRefusal;

/// A colour: a hue from 0 to 359, a saturation and a brightness from 0 to 255.
#[derive(Clone, Copy, PartialEq, Eq, Debug)]
pub struct Colour {
    pub hue: u16,
    pub saturation: u8,
    pub brightness: u8,
    ghost within: { (hue < 360) × (saturation < 256) × (brightness < 256) },
}

/// A colour's parts as they lie in memory, within its limits or not: a type of its own, since a
/// `Colour` is within them.
#[derive(Clone, Copy, PartialEq, Eq, Debug, Default)]
pub struct ColourRow {
    pub hue: u16,
    pub saturation: u8,
    pub brightness: u8,
}

impl Colour {
    ghost use Rattle.std.specs.Prelude.{pos, Decides};
    ghost use Rattle.tones.specs.Colours.{Before, Making, RankedByParts};
    ghost use Rattle.tones.specs.Colours.{colour_value, colours, parts};
    ghost use Rattle.tones.specs.Whole.{WholeNumbers};

    /// The top tone.
    pub const TOP: Colour = Colour {
        hue: 359,
        saturation: 0,
        brightness: 255,
    };

    /// The colour of its parts; refused for a hue of 360 or more.
    pub fn new(hue: u16, saturation: u8, brightness: u8) -> Result<Colour, ToneRefusal>
        ensures answer { Making (parts hue saturation brightness) result }
        ensures whole { WholeNumbers colours (pos 0) (pos 23592959) colour_value }
    {
        if hue >= 360 {
            return Err(ToneRefusal::OutsideLimits);
        }
        Ok(Colour {
            hue,
            saturation,
            brightness,
        })
    }

    /// Whether this colour is below another: darker first, then more saturated, then smaller hue.
    /// A derived order would go by the fields upwards.
    pub fn is_below(self, other: Colour) -> bool
        ensures answer { Decides result (Before self other) }
        ensures order { RankedByParts }
    {
        self.code() < other.code()
    }
}

impl From<Colour> for ColourRow {
    ghost use Rattle.std.specs.Prelude.{◌≡◌};
    ghost use Rattle.tones.specs.Colours.{parts};

    ghost from_gives = { λ t row. row ≡ parts t.hue t.saturation t.brightness };

    fn from(colour: Colour) -> ColourRow {
        ColourRow {
            hue: colour.hue,
            saturation: colour.saturation,
            brightness: colour.brightness,
        }
    }
}

impl Tone for Colour {
    ghost use Rattle.std.specs.Prelude.{◌≡◌};
    ghost use Rattle.tones.specs.Colours.{colours};
    ghost use Rattle.tones.specs.ColourLaws.{colour_laws};

    type Row = ColourRow;

    ghost kind = { colours };

    ghost lawful = { colour_laws };

    fn count() -> u32 {
        23_592_960
    }

    fn span() -> u32 {
        0
    }

    fn code(self) -> u32 {
        let value = u32::from(self.brightness) * 256 + 255 - u32::from(self.saturation);
        value * 360 + u32::from(self.hue)
    }

    fn of_code(code: u32) -> Colour
        ensures { colours.row result ≡ colours.row (colours.tone code) }
    {
        if code >= Self::count() {
            return Colour::TOP;
        }
        Colour {
            hue: (code % 360) as u16,
            saturation: (255 - code / 360 % 256) as u8,
            brightness: (code / 360 / 256) as u8,
        }
    }

    fn lowered(self, _amount: i32) -> Colour {
        self
    }

    fn row(self) -> ColourRow {
        self.into()
    }

    fn of_row(row: ColourRow) -> Colour
        ensures { colours.row result ≡ colours.row (colours.counted row) }
    {
        Colour::new(row.hue, row.saturation, row.brightness).unwrap_or(Colour::TOP)
    }
}
