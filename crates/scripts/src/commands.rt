//! What a line of a script asks for.

use recipes::places::Part;
use selectors::calls::{SelectorCall, SelectorKind};
use std::str::FromStr;

/// A kind of tones.
#[derive(Clone, Copy, PartialEq, Eq, Debug)]
pub enum Tones {
    Mark,
    Grey,
    Relief,
    Colour,
}

/// No tones have the name.
#[derive(Clone, Copy, PartialEq, Eq, Debug)]
pub struct UnknownTones;

impl FromStr for Tones {
    ghost use Rattle.std.specs.Prelude.{◌≡◌, ◌≢◌, MatchResult};
    ghost use Rattle.scripts.specs.Words.{tones_name};
    ghost use Rattle.scripts.specs.declared.commands.Tones.{Tones as Named};

    type Err = UnknownTones;

    ghost from_str_gives = { λ w r. MatchResult r
        (λ k. w ≡ tones_name k) (λ _. (k : Named) → w ≢ tones_name k) };

    fn from_str(name: &str) -> Result<Tones, UnknownTones> {
        match name {
            "mark" => Ok(Tones::Mark),
            "grey" => Ok(Tones::Grey),
            "relief" => Ok(Tones::Relief),
            "colour" => Ok(Tones::Colour),
            _ => Err(UnknownTones),
        }
    }
}

/// What a card is made of.
#[derive(Clone, Copy, PartialEq, Eq, Debug)]
pub struct Choice {
    pub tones: Tones,
    pub selector: SelectorKind,
}

/// A call on the present element.
#[derive(Clone, Copy)]
pub enum Edit {
    /// A new element takes its place.
    Element,
    /// The offsets, the part and the amount.
    Place(i32, i32, Part, i32),
    /// The offsets and the amount.
    Amount(i32, i32, i32),
    Order(u32),
    Standard(u32),
}

/// A call on the present draft.
#[derive(Clone, Copy)]
pub enum Drafting {
    /// A new draft takes its place; the number of steps that it declares.
    Begin(u64),
    /// A step of this letter, with the present element.
    Step(char),
}

/// The size of a card.
#[derive(Clone, Copy)]
pub struct Opening {
    pub width: usize,
    pub height: usize,
    pub stages: usize,
}

/// A rectangle of a card.
#[derive(Clone, Copy)]
pub struct Patch {
    pub x: usize,
    pub y: usize,
    pub width: usize,
    pub height: usize,
}

/// A call on the present card.
#[derive(Clone, Copy)]
pub enum CardCall<'a> {
    /// The size, and the words of the rows of plane 0.
    Open(Opening, &'a [&'a str]),
    /// The present draft is handed over.
    Install,
    /// The rectangle, and the words of its rows.
    Patch(Patch, &'a [&'a str]),
    /// The budget.
    Work(usize),
    /// The first column, the row and the number of tones.
    Row(usize, usize, usize),
    Left,
    Due,
    Residue,
    /// Making a tone of the parts that these words write.
    Tone(&'a [&'a str]),
}

/// The most bytes that a `write` lends.
pub const MOST_ROOM: usize = 1_048_576;

/// A call on the present card that makes a file or takes one; only grey cards have them.
#[derive(Clone, Copy)]
pub enum FileCall<'a> {
    /// How many bytes are lent.
    Write(usize),
    /// The path of the file.
    Save(&'a str),
    /// The corner, and the path of the file.
    Load(usize, usize, &'a str),
}

/// A line of a script.
#[derive(Clone, Copy)]
pub enum Command<'a> {
    Choose(Choice),
    OnElement(Edit),
    OnDraft(Drafting),
    OnCard(CardCall<'a>),
    OnFile(FileCall<'a>),
    OnSelector(SelectorCall),
}
