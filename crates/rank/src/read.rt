//! Reads a line of a script.
ghost use Rattle.std.specs.Prelude.{ℕ, MatchOption};
ghost use Rattle.std.specs.Option.{option_map};
ghost use Rattle.rank.specs.Words.{Reads, Writes};

use crate::command::Command;
use selectors::SelectorCall;

/// The command of a line of at most three words.
pub fn command(line: &str) -> Option<Command> {
    let mut words = line.split_whitespace();
    let name = words.next()?;
    let first = words.next();
    let second = words.next();
    if words.next().is_some() {
        return None;
    }
    said(name, first, second)
}

/// The command that these words say.
pub fn said(name: &str, first: Option<&str>, second: Option<&str>) -> Option<Command>
    ensures { let a = option_map (λ word. word.now) first.entry in
        let b = option_map (λ word. word.now) second.entry in
        Reads name.now a b result }
{
    match (name, first, second) {
        ("selector", Some(kind), None) => Some(Command::Choose(kind.parse().ok()?)),
        ("put", Some(code), Some(weight)) => {
            Some(Command::Ask(SelectorCall::Put(number(code)?, number(weight)?)))
        }
        ("total", None, None) => Some(Command::Ask(SelectorCall::Total)),
        ("select", Some(rank), None) => Some(Command::Ask(SelectorCall::Select(number(rank)?))),
        ("empty", None, None) => Some(Command::Ask(SelectorCall::Empty)),
        _ => None,
    }
}

/// The number that the word writes. `scripts` reads any kind of number so; this program stands on `selectors` alone.
pub fn number(word: &str) -> Option<u32>
    ensures { MatchOption result ((n : ℕ) → Writes word.now n → ⊥) (λ n. Writes word.now n) }
{
    word.parse().ok()
}
