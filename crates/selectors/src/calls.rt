//! Calls of a selector as values: the names of the kinds, the calls, and what they answer.
ghost use Rattle.std.specs.Prelude.{◌≡◌, ℕ, MatchResult, Some, codes, ◌≢◌, OnErr};
ghost use Rattle.selectors.specs.Played.{Answered, bag_after, call_number, call_text, name_of};
ghost use Rattle.selectors.specs.declared.calls.CallRefusal.TheVariants as refused;
ghost use Rattle.selectors.specs.declared.calls.SelectorKind.{SelectorKind as Named};

use crate::refusals::{PutRefusal, SelectRefusal};
use crate::selector::Selector;
use std::error::Error;
use std::fmt;
use std::str::FromStr;

/// One of the three selectors.
#[derive(Clone, Copy, PartialEq, Eq, Debug)]
pub enum SelectorKind {
    Gate,
    Histogram,
    Ladder,
}

/// No selector has the name.
#[derive(Clone, Copy, PartialEq, Eq, Debug)]
pub struct UnknownKind;

impl fmt::Display for UnknownKind {
    ghost output = { λ _. Some (codes "no selector has this name") };

    fn fmt<W: fmt::Write>(&self, f: &mut fmt::Formatter<W>) -> fmt::Result {
        write!(f, "no selector has this name")
    }
}

impl Error for UnknownKind {}

/// Reads a selector's name.
impl FromStr for SelectorKind {
    type Err = UnknownKind;

    ghost from_str_gives = { λ word result. MatchResult result (λ kind. word ≡ name_of kind)
        (λ _. (kind : Named) → word ≢ name_of kind) };

    fn from_str(name: &str) -> Result<SelectorKind, UnknownKind> {
        match name {
            "gate" => Ok(SelectorKind::Gate),
            "histogram" => Ok(SelectorKind::Histogram),
            "ladder" => Ok(SelectorKind::Ladder),
            _ => Err(UnknownKind),
        }
    }
}

/// A call of a selector.
#[derive(Clone, Copy, PartialEq, Eq, Debug)]
pub enum SelectorCall {
    /// A code and the weight that it is given.
    Put(u32, u32),
    Total,
    /// A rank.
    Select(u32),
    Empty,
}

/// What a call answers.
#[derive(Clone, Copy, PartialEq, Eq, Debug)]
pub enum Reply {
    Done,
    Total(u32),
    Code(u32),
}

/// Why a call is refused.
#[derive(Clone, Copy, PartialEq, Eq, Debug)]
pub enum CallRefusal {
    Put(PutRefusal),
    Select(SelectRefusal),
}

impl CallRefusal {
    /// The refusal's number.
    pub fn number(self) -> u32
        ensures { result ≡ call_number self }
    {
        match self {
            CallRefusal::Put(refusal) => refusal.number(),
            CallRefusal::Select(refusal) => refusal.number(),
        }
    }
}

/// The number and the cause in words.
impl fmt::Display for CallRefusal {
    ghost output = { λ refusal. Some (call_text refusal) };

    fn fmt<W: fmt::Write>(&self, f: &mut fmt::Formatter<W>) -> fmt::Result {
        match self {
            CallRefusal::Put(refusal) => write!(f, "{refusal}"),
            CallRefusal::Select(refusal) => write!(f, "{refusal}"),
        }
    }
}

impl Error for CallRefusal {}

impl From<PutRefusal> for CallRefusal {
    ghost from_gives = { λ r e. e ≡ refused.Put r };

    fn from(refusal: PutRefusal) -> CallRefusal {
        CallRefusal::Put(refusal)
    }
}

impl From<SelectRefusal> for CallRefusal {
    ghost from_gives = { λ r e. e ≡ refused.Select r };

    fn from(refusal: SelectRefusal) -> CallRefusal {
        CallRefusal::Select(refusal)
    }
}

/// Makes the call; a refused one leaves the selector as it was.
pub fn play<S: Selector>(selector: &mut S, call: SelectorCall) -> Result<Reply, CallRefusal>
    requires { S.ordered selector.old }
    ensures answer { Answered (S.weight selector.old) (S.range selector.old) call result }
    ensures weights { (c : ℕ) → S.weight selector.new c
        ≡ bag_after (S.weight selector.old) (S.range selector.old) call c }
    ensures kept { OnErr result (selector.new ≡ selector.old) }
    ensures range_kept { S.range selector.new ≡ S.range selector.old }
    ensures in_order { S.ordered selector.new }
{
    match call {
        SelectorCall::Put(code, weight) => {
            selector.put(code, weight)?;
            Ok(Reply::Done)
        }
        SelectorCall::Total => Ok(Reply::Total(selector.total())),
        SelectorCall::Select(rank) => Ok(Reply::Code(selector.select(rank)?)),
        SelectorCall::Empty => {
            selector.empty();
            Ok(Reply::Done)
        }
    }
}
