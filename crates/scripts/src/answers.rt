//! What the program answers, and why a line has no answer.

ghost use Rattle.std.specs.Prelude.{◌≡◌, Some};
ghost use Rattle.scripts.specs.Shown.{answer_line, fault_line};
ghost use Rattle.scripts.specs.Answers.{reply_answer};
ghost use Rattle.scripts.specs.declared.answers.Fault.TheVariants as fault;

use calls::refusals::Refusal;
use cards::faults::LoadFault;
use recipes::refusals::{DraftRefusal, ElementRefusal};
use selectors::calls::{CallRefusal, Reply};
use std::alloc::AllocError;
use std::fmt;
use tones::ToneRefusal;

/// An answer: a line.
#[derive(Drop)]
pub enum Answer {
    /// The call was accepted.
    Done,
    /// It was accepted, with a number.
    Counted(u64),
    /// It was accepted, with rows, each after a space.
    Rows(String),
    /// It was accepted, with a number, and as many bytes as numbers, each after a space.
    File(u64, String),
    /// A number that is never refused.
    Number(u64),
    /// The stage and the row that are redone next, if there are any.
    Due(Option<(usize, usize)>),
}

impl From<Reply> for Answer {
    ghost from_gives = { λ r a. a ≡ reply_answer r };

    fn from(reply: Reply) -> Answer {
        match reply {
            Reply::Done => Answer::Done,
            Reply::Total(total) => Answer::Number(u64::from(total)),
            Reply::Code(code) => Answer::Counted(u64::from(code)),
        }
    }
}

impl fmt::Display for Answer {
    ghost output = { λ a. Some (answer_line a) };

    fn fmt<W: fmt::Write>(&self, f: &mut fmt::Formatter<W>) -> fmt::Result {
        match self {
            Answer::Done => write!(f, "ok"),
            Answer::Counted(number) => write!(f, "ok {number}"),
            Answer::Rows(rows) => write!(f, "ok{rows}"),
            Answer::File(number, bytes) => write!(f, "ok {number}{bytes}"),
            Answer::Number(number) => write!(f, "{number}"),
            Answer::Due(Some((stage, row))) => write!(f, "{stage} {row}"),
            Answer::Due(None) => write!(f, "nothing"),
        }
    }
}

/// Why a line has no answer.
#[derive(Clone, Copy)]
pub enum Fault {
    /// The line was not read.
    Unknown,
    /// The file was not read, or not written.
    Unreadable,
    /// A call on the element was refused.
    Element(ElementRefusal),
    /// A step was refused.
    Draft(DraftRefusal),
    /// A call on the selector was refused.
    Selector(CallRefusal),
    /// A call on the card was refused.
    Card(Refusal),
    /// A file was refused.
    Load(LoadFault),
    /// A tone was not made.
    Tone(ToneRefusal),
    /// There was no memory for the call.
    Memory(AllocError),
}

impl From<ElementRefusal> for Fault {
    ghost from_gives = { λ e f. f ≡ fault.Element e };

    fn from(refusal: ElementRefusal) -> Fault {
        Fault::Element(refusal)
    }
}

impl From<DraftRefusal> for Fault {
    ghost from_gives = { λ e f. f ≡ fault.Draft e };

    fn from(refusal: DraftRefusal) -> Fault {
        Fault::Draft(refusal)
    }
}

impl From<CallRefusal> for Fault {
    ghost from_gives = { λ e f. f ≡ fault.Selector e };

    fn from(refusal: CallRefusal) -> Fault {
        Fault::Selector(refusal)
    }
}

impl From<Refusal> for Fault {
    ghost from_gives = { λ e f. f ≡ fault.Card e };

    fn from(refusal: Refusal) -> Fault {
        Fault::Card(refusal)
    }
}

impl From<LoadFault> for Fault {
    ghost from_gives = { λ e f. f ≡ fault.Load e };

    fn from(fault: LoadFault) -> Fault {
        Fault::Load(fault)
    }
}

impl From<ToneRefusal> for Fault {
    ghost from_gives = { λ e f. f ≡ fault.Tone e };

    fn from(refusal: ToneRefusal) -> Fault {
        Fault::Tone(refusal)
    }
}

impl From<AllocError> for Fault {
    ghost from_gives = { λ e f. f ≡ fault.Memory e };

    fn from(error: AllocError) -> Fault {
        Fault::Memory(error)
    }
}

impl fmt::Display for Fault {
    ghost output = { λ e. Some (fault_line e) };

    fn fmt<W: fmt::Write>(&self, f: &mut fmt::Formatter<W>) -> fmt::Result {
        match self {
            Fault::Unknown => write!(f, "unknown"),
            Fault::Unreadable => write!(f, "unreadable"),
            Fault::Element(refusal) => write!(f, "refused {}", refusal.number()),
            Fault::Draft(refusal) => write!(f, "refused {}", refusal.number()),
            Fault::Selector(refusal) => write!(f, "refused {}", refusal.number()),
            Fault::Card(refusal @ Refusal::Stale(column)) => {
                write!(f, "refused {} {column}", refusal.number())
            }
            Fault::Card(refusal) => write!(f, "refused {}", refusal.number()),
            Fault::Load(LoadFault::File(fault)) => {
                let (number, letter, byte) = (fault.number(), fault.letter(), fault.byte());
                write!(f, "refused load file {number} {letter} {byte}")
            }
            Fault::Load(fault @ LoadFault::Card(_)) => {
                write!(f, "refused load card {} {}", fault.number(), fault.spot())
            }
            Fault::Tone(refusal) => write!(f, "refused {}", refusal.number()),
            Fault::Memory(_) => write!(f, "no memory"),
        }
    }
}
