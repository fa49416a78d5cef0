//! Any refusal of the library in one type, so that `?` serves a caller of several crates.

ghost use Rattle.cards.specs.Refused.{any_number};
ghost use Rattle.cards.specs.declared.faults.LoadFault.TheVariants as load;
ghost use Rattle.cards.specs.declared.refused.AnyRefusal.TheVariants as any;
ghost use Rattle.selectors.specs.declared.calls.CallRefusal.TheVariants as call;
ghost use Rattle.std.specs.Prelude.{◌≡◌};

use crate::faults::LoadFault;
use calls::refusals::Refusal;
use pgm::faults::FileFault;
use recipes::refusals::{DraftRefusal, ElementRefusal};
use selectors::calls::CallRefusal;
use selectors::{MedianRefusal, PutRefusal, SelectRefusal};
use std::error::Error;
use std::fmt;
use tones::ToneRefusal;

/// Why a call of the library is refused.
#[derive(Clone, Copy, PartialEq, Eq, Debug)]
pub enum AnyRefusal {
    /// A tone is not made.
    Tone(ToneRefusal),
    /// A call on a selector.
    Selector(CallRefusal),
    /// A weighted median.
    Median(MedianRefusal),
    /// A call on an element.
    Element(ElementRefusal),
    /// A call on a draft.
    Draft(DraftRefusal),
    /// A call on a card.
    Card(Refusal),
    /// A file, or the load of one.
    Load(LoadFault),
}

impl AnyRefusal {
    /// The number of the refusal.
    pub fn number(&self) -> u32
        ensures { result ≡ any_number self.now }
    {
        match self {
            AnyRefusal::Tone(refusal) => refusal.number(),
            AnyRefusal::Selector(refusal) => refusal.number(),
            AnyRefusal::Median(refusal) => refusal.number(),
            AnyRefusal::Element(refusal) => refusal.number(),
            AnyRefusal::Draft(refusal) => refusal.number(),
            AnyRefusal::Card(refusal) => refusal.number(),
            AnyRefusal::Load(fault) => fault.number(),
        }
    }
}

/// The text of the refusal.
impl fmt::Display for AnyRefusal {
    ghost use Rattle.std.specs.Prelude.{Some};
    ghost use Rattle.cards.specs.Refused.{any_text};

    ghost output = { λ e. Some (any_text e) };

    fn fmt<W: fmt::Write>(&self, f: &mut fmt::Formatter<W>) -> fmt::Result {
        match self {
            AnyRefusal::Tone(refusal) => write!(f, "{refusal}"),
            AnyRefusal::Selector(refusal) => write!(f, "{refusal}"),
            AnyRefusal::Median(refusal) => write!(f, "{refusal}"),
            AnyRefusal::Element(refusal) => write!(f, "{refusal}"),
            AnyRefusal::Draft(refusal) => write!(f, "{refusal}"),
            AnyRefusal::Card(refusal) => write!(f, "{refusal}"),
            AnyRefusal::Load(fault) => write!(f, "{fault}"),
        }
    }
}

impl Error for AnyRefusal {}

impl From<ToneRefusal> for AnyRefusal {
    ghost from_gives = { λ r e. e ≡ any.Tone r };

    fn from(refusal: ToneRefusal) -> AnyRefusal {
        AnyRefusal::Tone(refusal)
    }
}

impl From<CallRefusal> for AnyRefusal {
    ghost from_gives = { λ r e. e ≡ any.Selector r };

    fn from(refusal: CallRefusal) -> AnyRefusal {
        AnyRefusal::Selector(refusal)
    }
}

impl From<ElementRefusal> for AnyRefusal {
    ghost from_gives = { λ r e. e ≡ any.Element r };

    fn from(refusal: ElementRefusal) -> AnyRefusal {
        AnyRefusal::Element(refusal)
    }
}

impl From<DraftRefusal> for AnyRefusal {
    ghost from_gives = { λ r e. e ≡ any.Draft r };

    fn from(refusal: DraftRefusal) -> AnyRefusal {
        AnyRefusal::Draft(refusal)
    }
}

impl From<Refusal> for AnyRefusal {
    ghost from_gives = { λ r e. e ≡ any.Card r };

    fn from(refusal: Refusal) -> AnyRefusal {
        AnyRefusal::Card(refusal)
    }
}

impl From<LoadFault> for AnyRefusal {
    ghost from_gives = { λ r e. e ≡ any.Load r };

    fn from(refusal: LoadFault) -> AnyRefusal {
        AnyRefusal::Load(refusal)
    }
}

impl From<PutRefusal> for AnyRefusal {
    ghost from_gives = { λ r e. e ≡ any.Selector (call.Put r) };

    fn from(refusal: PutRefusal) -> AnyRefusal {
        AnyRefusal::Selector(CallRefusal::Put(refusal))
    }
}

impl From<SelectRefusal> for AnyRefusal {
    ghost from_gives = { λ r e. e ≡ any.Selector (call.Select r) };

    fn from(refusal: SelectRefusal) -> AnyRefusal {
        AnyRefusal::Selector(CallRefusal::Select(refusal))
    }
}

impl From<MedianRefusal> for AnyRefusal {
    ghost from_gives = { λ r e. e ≡ any.Median r };

    fn from(refusal: MedianRefusal) -> AnyRefusal {
        AnyRefusal::Median(refusal)
    }
}

impl From<FileFault> for AnyRefusal {
    ghost from_gives = { λ f e. e ≡ any.Load (load.File f) };

    fn from(fault: FileFault) -> AnyRefusal {
        AnyRefusal::Load(LoadFault::File(fault))
    }
}
