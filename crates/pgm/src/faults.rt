//! What is wrong with a file that is no picture: a letter and a byte, counted from 0.

ghost use Rattle.std.specs.Prelude.{◌≡◌};
ghost use Rattle.pgm.specs.Numbers.{byte_of, cause_of, header_byte, header_cause, header_letter, letter_of, number_of};
ghost use Rattle.pgm.specs.declared.faults.FileFault.TheVariants.{Header};

use std::error::Error;
use std::fmt;

/// A fault of the header.
#[derive(Clone, Copy, PartialEq, Eq, Debug)]
pub enum HeaderFault {
    /// (a) The file does not begin with `P5`, at that byte.
    Mark(usize),
    /// (b) A byte that cannot stand there.
    Byte(usize),
    /// (c) A number outside its limits, at its first digit.
    Number(usize),
    /// (d) The header ends early, at the file's length.
    Early(usize),
}

/// A fault of the file.
#[derive(Clone, Copy, PartialEq, Eq, Debug)]
pub enum FileFault {
    /// (a) to (d) The header's fault.
    Header(HeaderFault),
    /// (e) Samples are missing, at the file's length, or too many, at the first extra byte.
    Count(usize),
    /// (f) A sample above maxval.
    Sample(usize),
}

impl HeaderFault {
    /// From `a` to `d`.
    pub fn letter(&self) -> char
        ensures { result ≡ header_letter self.now }
    {
        match self {
            HeaderFault::Mark(_) => 'a',
            HeaderFault::Byte(_) => 'b',
            HeaderFault::Number(_) => 'c',
            HeaderFault::Early(_) => 'd',
        }
    }

    /// The byte at fault, counted from 0.
    pub fn byte(&self) -> usize
        ensures { result ≡ header_byte self.now }
    {
        match self {
            HeaderFault::Mark(at)
            | HeaderFault::Byte(at)
            | HeaderFault::Number(at)
            | HeaderFault::Early(at) => *at,
        }
    }

    /// The cause in words.
    fn cause(&self) -> &'static str
        ensures { result.now ≡ header_cause self.now }
    {
        match self {
            HeaderFault::Mark(_) => "no P5 at the beginning",
            HeaderFault::Byte(_) => "a byte that cannot stand there",
            HeaderFault::Number(_) => "a number outside its limits",
            HeaderFault::Early(_) => "the header ends early",
        }
    }
}

/// The letter, the byte and the cause in words.
impl fmt::Display for HeaderFault {
    ghost use Rattle.std.specs.Prelude.{Some};
    ghost use Rattle.pgm.specs.Numbers.{header_text};

    ghost output = { λ fault. Some (header_text fault) };

    fn fmt<W: fmt::Write>(&self, f: &mut fmt::Formatter<W>) -> fmt::Result {
        write!(f, "{} {}: {}", self.letter(), self.byte(), self.cause())
    }
}

impl Error for HeaderFault {}

impl FileFault {
    /// The number of the refusal.
    pub fn number(&self) -> u32
        ensures { result ≡ number_of self.now }
    {
        23
    }

    /// From `a` to `f`.
    pub fn letter(&self) -> char
        ensures { result ≡ letter_of self.now }
    {
        match self {
            FileFault::Header(fault) => fault.letter(),
            FileFault::Count(_) => 'e',
            FileFault::Sample(_) => 'f',
        }
    }

    /// The byte at fault, counted from 0.
    pub fn byte(&self) -> usize
        ensures { result ≡ byte_of self.now }
    {
        match self {
            FileFault::Header(fault) => fault.byte(),
            FileFault::Count(at) | FileFault::Sample(at) => *at,
        }
    }

    /// The cause in words.
    fn cause(&self) -> &'static str
        ensures { result.now ≡ cause_of self.now }
    {
        match self {
            FileFault::Header(fault) => fault.cause(),
            FileFault::Count(_) => "samples missing, or too many",
            FileFault::Sample(_) => "a sample above maxval",
        }
    }
}

/// The number, the letter and the byte, and the cause in words.
impl fmt::Display for FileFault {
    ghost use Rattle.std.specs.Prelude.{Some};
    ghost use Rattle.pgm.specs.Numbers.{fault_text};

    ghost output = { λ fault. Some (fault_text fault) };

    fn fmt<W: fmt::Write>(&self, f: &mut fmt::Formatter<W>) -> fmt::Result {
        let (number, letter, byte) = (self.number(), self.letter(), self.byte());
        write!(f, "{number} {letter} {byte}: {}", self.cause())
    }
}

impl Error for FileFault {}

impl From<HeaderFault> for FileFault {
    ghost from_gives = { λ header r. r ≡ Header header };

    fn from(header: HeaderFault) -> Self {
        FileFault::Header(header)
    }
}
