//! How the rows of each kind of tones are read and printed, and what only greys can do.

ghost use Rattle.std.specs.Option.{option_map};
ghost use Rattle.std.specs.Prelude.{◌≡◌, ◌≢◌, ◌++◌, IfOk, MatchResult, string_bytes};
ghost use Rattle.cards.specs.Meanings.{InOrder, notes, state_of};
ghost use Rattle.scripts.specs.Words.{ReadsAll};
ghost use Rattle.std.proofs.Common.{rules};
ghost use Rattle.scripts.specs.Cards.{GreyLoad, GreyResidue, GreyWrite, NoLoad, NoResidue, NoWrite};
ghost use Rattle.scripts.specs.Scripted.{Scripted};
ghost use Rattle.scripts.specs.Rows.{ColourWritten, GreyWritten, HasParts, MarkWritten, ReadsOnly, ReliefWritten, colour_shown, mark_shown, relief_shown, spaced};

use crate::answers::Fault;
use crate::words::number;
use cards::card::Card;
use selectors::Selector;
use std::alloc::AllocError;
use std::fmt::Write;
use std::str::FromStr;
use tones::{Colour, ColourRow, Grey, Mark, Relief, Tone, ToneRefusal};

/// A kind of tones whose rows can be written in a script. The row by default has the numbers 0.
pub trait Rows: Tone<Row: Default> {
    /// What the kind is in scripts: how its rows are written and shown, and what only greys can do.
    ghost scripted: { Scripted Self.Row };

    /// How many numbers a row has. No constant: a law cannot say that a trait's constant is above 0.
    fn parts() -> usize
        ensures { result ≡ scripted.count };

    /// The row that the words write; none where they are too many, too few or no numbers of its parts.
    fn read(words: &[&str]) -> Option<Self::Row>
        ensures { ReadsAll (scripted.written words.now) result };

    /// Adds the numbers of the row to a text, each after a space.
    fn show(row: Self::Row, text: &mut String) -> Result<(), AllocError>
        ensures { IfOk result
            (λ _. string_bytes text.new ≡ string_bytes text.old ++ scripted.shown row) };

    /// The tone of these parts; refused outside the limits.
    fn make(row: Self::Row) -> Result<Self, ToneRefusal>
        ensures { MatchResult result (λ t. Self.kind.row t ≡ row)
            (λ _. (t : Self) → Self.kind.row t ≢ row) };

    /// Writes raw minus finished of a card into the reliefs; not read where the kind has no residues.
    fn residue<S: Selector>(
        card: &Card<Self, S>,
        memory: &[Self::Row],
        reliefs: &mut [i16],
    ) -> Result<(), Fault>
        ensures { scripted.residues (notes card.now) memory.now reliefs.old result reliefs.new };

    /// Writes a card as a file into the lent bytes; not read where the kind has no files.
    fn write<S: Selector>(
        card: &Card<Self, S>,
        memory: &[Self::Row],
        file: &mut [u8],
    ) -> Result<usize, Fault>
        ensures { let at = state_of S.weight card.now memory.now in
            scripted.writes at file.old result file.new };

    /// Patches a card with a file; not read where the kind has no files, unreadable where there is none.
    fn load<S: Selector>(
        card: &mut Card<Self, S>,
        memory: &mut [Self::Row],
        x: usize,
        y: usize,
        file: Option<&[u8]>,
    ) -> Result<(), Fault>
        ensures outcome { let before = state_of S.weight card.old memory.old in
            scripted.loads before x y (option_map (λ bytes. bytes.now) file.entry) result
            (state_of S.weight card.new memory.new) }
        ensures in_order { InOrder Self.kind S.range S.ordered card.old
            → InOrder Self.kind S.range S.ordered card.new };

    /// Words that write a row are as many as it has numbers, at least one.
    ghost sized: { HasParts scripted.written scripted.count };
}

impl Rows for Mark {
    ghost scripted = { record {
      written = MarkWritten;
      count = 1;
      shown = mark_shown;
      residues = NoResidue;
      writes = NoWrite;
      loads = NoLoad;
    } };

    ghost sized = { Prim.search rules };

    fn parts() -> usize {
        1
    }

    fn read(words: &[&str]) -> Option<bool> {
        match words {
            ["0"] => Some(false),
            ["1"] => Some(true),
            _ => None,
        }
    }

    fn show(row: bool, text: &mut String) -> Result<(), AllocError> {
        write!(text, " {}", u8::from(row))
    }

    fn make(row: bool) -> Result<Mark, ToneRefusal> {
        Ok(Mark::new(row))
    }

    fn residue<S: Selector>(
        _card: &Card<Mark, S>,
        _memory: &[bool],
        _reliefs: &mut [i16],
    ) -> Result<(), Fault> {
        Err(Fault::Unknown)
    }

    fn write<S: Selector>(
        _card: &Card<Mark, S>,
        _memory: &[bool],
        _file: &mut [u8],
    ) -> Result<usize, Fault> {
        Err(Fault::Unknown)
    }

    fn load<S: Selector>(
        _card: &mut Card<Mark, S>,
        _memory: &mut [bool],
        _x: usize,
        _y: usize,
        _file: Option<&[u8]>,
    ) -> Result<(), Fault> {
        Err(Fault::Unknown)
    }
}

/// The number that the only word writes.
fn only<N: FromStr>(words: &[&str]) -> Option<N>
where
    N::Err: Drop,
    ensures { ReadsOnly N.FromStr.from_str_gives words.now result }
{
    match words {
        [word] => number(word),
        _ => None,
    }
}

impl Rows for Grey {
    ghost scripted = { record {
      written = GreyWritten;
      count = 1;
      shown = spaced;
      residues = GreyResidue;
      writes = GreyWrite;
      loads = GreyLoad;
    } };

    ghost sized = { Prim.search rules };

    fn parts() -> usize {
        1
    }

    fn read(words: &[&str]) -> Option<u8> {
        only(words)
    }

    fn show(row: u8, text: &mut String) -> Result<(), AllocError> {
        write!(text, " {row}")
    }

    fn make(row: u8) -> Result<Grey, ToneRefusal> {
        Ok(Grey::new(row))
    }

    fn residue<S: Selector>(
        card: &Card<Grey, S>,
        memory: &[u8],
        reliefs: &mut [i16],
    ) -> Result<(), Fault> {
        Ok(card.residue(memory, reliefs)?)
    }

    fn write<S: Selector>(
        card: &Card<Grey, S>,
        memory: &[u8],
        file: &mut [u8],
    ) -> Result<usize, Fault> {
        Ok(card.write(memory, file)?)
    }

    fn load<S: Selector>(
        card: &mut Card<Grey, S>,
        memory: &mut [u8],
        x: usize,
        y: usize,
        file: Option<&[u8]>,
    ) -> Result<(), Fault> {
        let bytes = file.ok_or(Fault::Unreadable)?;
        Ok(card.load(memory, x, y, bytes)?)
    }
}

impl Rows for Relief {
    ghost scripted = { record {
      written = ReliefWritten;
      count = 1;
      shown = relief_shown;
      residues = NoResidue;
      writes = NoWrite;
      loads = NoLoad;
    } };

    ghost sized = { Prim.search rules };

    fn parts() -> usize {
        1
    }

    fn read(words: &[&str]) -> Option<i16> {
        only(words)
    }

    fn show(row: i16, text: &mut String) -> Result<(), AllocError> {
        write!(text, " {row}")
    }

    fn make(row: i16) -> Result<Relief, ToneRefusal> {
        Relief::new(row)
    }

    fn residue<S: Selector>(
        _card: &Card<Relief, S>,
        _memory: &[i16],
        _reliefs: &mut [i16],
    ) -> Result<(), Fault> {
        Err(Fault::Unknown)
    }

    fn write<S: Selector>(
        _card: &Card<Relief, S>,
        _memory: &[i16],
        _file: &mut [u8],
    ) -> Result<usize, Fault> {
        Err(Fault::Unknown)
    }

    fn load<S: Selector>(
        _card: &mut Card<Relief, S>,
        _memory: &mut [i16],
        _x: usize,
        _y: usize,
        _file: Option<&[u8]>,
    ) -> Result<(), Fault> {
        Err(Fault::Unknown)
    }
}

impl Rows for Colour {
    ghost scripted = { record {
      written = ColourWritten;
      count = 3;
      shown = colour_shown;
      residues = NoResidue;
      writes = NoWrite;
      loads = NoLoad;
    } };

    ghost sized = { Prim.search rules };

    fn parts() -> usize {
        3
    }

    fn read(words: &[&str]) -> Option<ColourRow> {
        match words {
            [hue, saturation, brightness] => Some(ColourRow {
                hue: number(hue)?,
                saturation: number(saturation)?,
                brightness: number(brightness)?,
            }),
            _ => None,
        }
    }

    fn show(row: ColourRow, text: &mut String) -> Result<(), AllocError> {
        write!(text, " {} {} {}", row.hue, row.saturation, row.brightness)
    }

    fn make(row: ColourRow) -> Result<Colour, ToneRefusal> {
        Colour::new(row.hue, row.saturation, row.brightness)
    }

    fn residue<S: Selector>(
        _card: &Card<Colour, S>,
        _memory: &[ColourRow],
        _reliefs: &mut [i16],
    ) -> Result<(), Fault> {
        Err(Fault::Unknown)
    }

    fn write<S: Selector>(
        _card: &Card<Colour, S>,
        _memory: &[ColourRow],
        _file: &mut [u8],
    ) -> Result<usize, Fault> {
        Err(Fault::Unknown)
    }

    fn load<S: Selector>(
        _card: &mut Card<Colour, S>,
        _memory: &mut [ColourRow],
        _x: usize,
        _y: usize,
        _file: Option<&[u8]>,
    ) -> Result<(), Fault> {
        Err(Fault::Unknown)
    }
}
