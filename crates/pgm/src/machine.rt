//! The header, taken in byte by byte by a machine with six states.

ghost use Rattle.std.specs.Prelude.{◌≡◌, ℕ, ◌+◌, ◌*◌, ◌^◌, ◌<◌, ◌≤◌, Bool};
ghost use Rattle.pgm.specs.Grammar.{limit};
ghost use Rattle.pgm.specs.Machine.{a_numeral, after_class, closed, closing, final, grown, marked, within_limits};

use crate::bytes::Class;
use crate::faults::HeaderFault;

/// The greatest width of a picture.
const MOST_WIDTH: u16 = 1024;

/// The greatest height of a picture.
const MOST_HEIGHT: u16 = 256;

/// The greatest maxval.
const MOST_MAXVAL: u16 = 255;

/// The numbers that the header has named so far: not options within options, since the limits and
/// the grammar go by these three names.
#[derive(Clone, Copy)]
pub enum Known {
    Nothing,
    Width(u16),
    Size(u16, u16),
}

/// What a whole header says, and the number of the byte after it.
#[derive(Clone, Copy)]
pub struct Header {
    pub width: u16,
    pub height: u16,
    pub maxval: u8,
    pub end: usize,
}

/// A number that is being read.
#[derive(Clone, Copy)]
pub struct Numeral {
    /// The numbers before it.
    known: Known,
    /// The byte of its first digit.
    first: usize,
    /// Its value so far, held above every limit.
    value: u16,
}

/// Where in the header the bytes so far end.
#[derive(Clone, Copy)]
pub enum State {
    /// In `P5`, or right behind it.
    Mark,
    /// In white space, with the numbers before it.
    Gap(Known),
    Number(Numeral),
    Comment(Known),
    /// Behind the header.
    Raster(Header),
    Refused(HeaderFault),
}

impl State {
    /// Takes in a byte of that class with the number `at`.
    pub fn take(&mut self, at: usize, class: Class)
        requires { at + 1 < 2 ^ 64 }
        ensures { self.new ≡ after_class at class self.old }
    {
        *self = match (*self, class) {
            (State::Mark, class) => marked(at, class),
            (State::Gap(known), Class::Line | Class::Blank) => State::Gap(known),
            (State::Gap(known), Class::Hash) => State::Comment(known),
            (State::Gap(known), Class::Digit(digit)) => {
                State::Number(Numeral::begun(known, at, digit))
            }
            (State::Gap(_), _) => State::Refused(HeaderFault::Byte(at)),
            (State::Number(numeral), Class::Digit(digit)) => State::Number(numeral.grown(digit)),
            (State::Number(numeral), Class::Line | Class::Blank) => numeral.closed(at, true),
            (State::Number(numeral), _) => numeral.closed(at, false),
            (State::Comment(known), Class::Line) => State::Gap(known),
            (State::Comment(known), _) => State::Comment(known),
            (State::Raster(header), _) => State::Raster(header),
            (State::Refused(fault), _) => State::Refused(fault),
        };
    }

    /// Nothing more is taken in.
    pub fn is_final(&self) -> bool
        ensures { result ≡ final self.now }
    {
        matches!(self, State::Raster(_) | State::Refused(_))
    }

    /// What the header says where no byte is left of a file of that length.
    pub fn close(self, len: usize) -> Result<Header, HeaderFault>
        ensures { result ≡ closing len self }
    {
        match self {
            State::Raster(header) => Ok(header),
            State::Refused(fault) => Err(fault),
            State::Number(numeral) if !numeral.is_within_limits() => {
                Err(HeaderFault::Number(numeral.first))
            }
            State::Mark | State::Gap(_) | State::Number(_) | State::Comment(_) => {
                Err(HeaderFault::Early(len))
            }
        }
    }
}

/// After a byte of the mark: `P`, then `5`, then white space.
fn marked(at: usize, class: Class) -> State
    ensures { result ≡ marked at class }
{
    match (at, class) {
        (0, Class::Letter) => State::Mark,
        (1, Class::Digit(5)) => State::Mark,
        (0 | 1, _) => State::Refused(HeaderFault::Mark(at)),
        (_, Class::Line | Class::Blank) => State::Gap(Known::Nothing),
        (_, _) => State::Refused(HeaderFault::Byte(at)),
    }
}

impl Numeral {
    /// A number at its first digit.
    fn begun(known: Known, first: usize, digit: u8) -> Self
        ensures { result ≡ a_numeral known first digit }
    {
        Numeral {
            known,
            first,
            value: u16::from(digit),
        }
    }

    /// A number with one digit more.
    fn grown(self, digit: u8) -> Self
        ensures { result ≡ a_numeral self.known self.first (grown self.value digit) }
    {
        let value = self
            .value
            .saturating_mul(10)
            .saturating_add(u16::from(digit));
        Numeral {
            value: value.min(MOST_WIDTH + 1),
            ..self
        }
    }

    /// After a number's last digit, at the byte behind it.
    fn closed(self, at: usize, white: bool) -> State
        requires { at + 1 < 2 ^ 64 }
        ensures { result ≡ closed self.known self.first self.value at white }
    {
        if !self.is_within_limits() {
            return State::Refused(HeaderFault::Number(self.first));
        }
        if !white {
            return State::Refused(HeaderFault::Byte(at));
        }
        match self.known {
            Known::Nothing => State::Gap(Known::Width(self.value)),
            Known::Width(width) => State::Gap(Known::Size(width, self.value)),
            Known::Size(width, height) => State::Raster(Header {
                width,
                height,
                maxval: self.value as u8,
                end: at + 1,
            }),
        }
    }

    fn is_within_limits(&self) -> bool
        ensures { result ≡ within_limits self.now.known self.now.value }
    {
        (1..=self.known.limit()).contains(&self.value)
    }
}

impl Known {
    /// The greatest value of the number that comes next.
    fn limit(&self) -> u16
        ensures { result ≡ limit self.now }
    {
        match self {
            Known::Nothing => MOST_WIDTH,
            Known::Width(_) => MOST_HEIGHT,
            Known::Size(_, _) => MOST_MAXVAL,
        }
    }
}

impl Header {
    /// How many samples the picture has.
    pub fn area(&self) -> usize
        ensures { result ≡ self.now.width * self.now.height }
    {
        usize::from(self.width) * usize::from(self.height)
    }
}
