//! Why a file is not loaded: a fault of the file, or the card's refusal of its patch.

ghost use Rattle.cards.specs.Loading.{load_letter, load_number, load_spot};
ghost use Rattle.cards.specs.declared.faults.LoadFault.TheVariants.{Card, File};
ghost use Rattle.std.specs.Prelude.{◌≡◌};

use calls::refusals::Refusal;
use pgm::faults::FileFault;
use std::error::Error;
use std::fmt;

/// Why a file is not loaded.
#[derive(Clone, Copy, PartialEq, Eq, Debug)]
pub enum LoadFault {
    /// The file is no picture.
    File(FileFault),
    /// The card refuses the patch.
    Card(Refusal),
}

impl LoadFault {
    /// The number of the refusal.
    pub fn number(&self) -> u32
        ensures { result ≡ load_number self.now }
    {
        match self {
            LoadFault::File(fault) => fault.number(),
            LoadFault::Card(refusal) => refusal.number(),
        }
    }

    /// The byte of the file at fault, counted from 0; 0 for the card.
    pub fn spot(&self) -> usize
        ensures { result ≡ load_spot self.now }
    {
        match self {
            LoadFault::File(fault) => fault.byte(),
            LoadFault::Card(_) => 0,
        }
    }

    /// The letter of the file's fault; nothing for the card.
    pub fn letter(&self) -> Option<char>
        ensures { result ≡ load_letter self.now }
    {
        match self {
            LoadFault::File(fault) => Some(fault.letter()),
            LoadFault::Card(_) => None,
        }
    }
}

impl From<FileFault> for LoadFault {
    ghost from_gives = { λ fault r. r ≡ File fault };

    fn from(fault: FileFault) -> Self {
        LoadFault::File(fault)
    }
}

impl From<Refusal> for LoadFault {
    ghost from_gives = { λ refusal r. r ≡ Card refusal };

    fn from(refusal: Refusal) -> Self {
        LoadFault::Card(refusal)
    }
}

/// What was refused, the file or the card, and why.
impl fmt::Display for LoadFault {
    ghost use Rattle.std.specs.Prelude.{Some};
    ghost use Rattle.cards.specs.Loading.{load_text};

    ghost output = { λ fault. Some (load_text fault) };

    fn fmt<W: fmt::Write>(&self, f: &mut fmt::Formatter<W>) -> fmt::Result {
        match self {
            LoadFault::File(fault) => write!(f, "file: {fault}"),
            LoadFault::Card(refusal) => write!(f, "card: {refusal}"),
        }
    }
}

impl Error for LoadFault {}
