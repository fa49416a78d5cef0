//! Reads the words of a line: its name, and the rest.

ghost use Rattle.scripts.specs.Lines.{Calls, Chooses, Drafts, Edits, Files, IsRoom, Ranks, Says};
ghost use Rattle.scripts.specs.Words.{ReadsAll};

use crate::commands::{
    CardCall, Choice, Command, Drafting, Edit, FileCall, MOST_ROOM, Opening, Patch,
};
use crate::words::number;
use selectors::calls::SelectorCall;

/// The choice of a card.
pub fn read_choice(name: &str, rest: &[&str]) -> Option<Choice>
    ensures { ReadsAll (Chooses name.now rest.now) result }
{
    match (name, rest) {
        ("card", [tones, selector]) => Some(Choice {
            tones: tones.parse().ok()?,
            selector: selector.parse().ok()?,
        }),
        _ => None,
    }
}

/// The call on an element.
pub fn read_edit(name: &str, rest: &[&str]) -> Option<Edit>
    ensures { ReadsAll (Edits name.now rest.now) result }
{
    match (name, rest) {
        ("element", []) => Some(Edit::Element),
        ("place", [dx, dy, part, amount]) => Some(Edit::Place(
            number(dx)?,
            number(dy)?,
            part.parse().ok()?,
            number(amount)?,
        )),
        ("amount", [dx, dy, amount]) => {
            Some(Edit::Amount(number(dx)?, number(dy)?, number(amount)?))
        }
        ("order", [k]) => Some(Edit::Order(number(k)?)),
        ("standard", [i]) => Some(Edit::Standard(number(i)?)),
        _ => None,
    }
}

/// The call on a draft.
pub fn read_drafting(name: &str, rest: &[&str]) -> Option<Drafting>
    ensures { ReadsAll (Drafts name.now rest.now) result }
{
    match (name, rest) {
        ("begin", [steps]) => Some(Drafting::Begin(number(steps)?)),
        ("step", [letter]) => Some(Drafting::Step(number(letter)?)),
        _ => None,
    }
}

/// The call on a selector.
pub fn read_selector_call(name: &str, rest: &[&str]) -> Option<SelectorCall>
    ensures { ReadsAll (Ranks name.now rest.now) result }
{
    match (name, rest) {
        ("put", [code, weight]) => Some(SelectorCall::Put(number(code)?, number(weight)?)),
        ("total", []) => Some(SelectorCall::Total),
        ("select", [rank]) => Some(SelectorCall::Select(number(rank)?)),
        ("empty", []) => Some(SelectorCall::Empty),
        _ => None,
    }
}

/// The call on a card.
pub fn read_call<'a>(name: &str, rest: &'a [&'a str]) -> Option<CardCall<'a>>
    ensures { ReadsAll (Calls name.now rest.now) result }
{
    match (name, rest) {
        ("open", [width, height, stages, rows @ ..]) => {
            let opening = Opening {
                width: number(width)?,
                height: number(height)?,
                stages: number(stages)?,
            };
            Some(CardCall::Open(opening, rows))
        }
        ("install", []) => Some(CardCall::Install),
        ("patch", [x, y, width, height, rows @ ..]) => {
            let patch = Patch {
                x: number(x)?,
                y: number(y)?,
                width: number(width)?,
                height: number(height)?,
            };
            Some(CardCall::Patch(patch, rows))
        }
        ("work", [budget]) => Some(CardCall::Work(number(budget)?)),
        ("row", [x, y, n]) => Some(CardCall::Row(number(x)?, number(y)?, number(n)?)),
        ("left", []) => Some(CardCall::Left),
        ("due", []) => Some(CardCall::Due),
        ("residue", []) => Some(CardCall::Residue),
        ("tone", parts) => Some(CardCall::Tone(parts)),
        _ => None,
    }
}

/// How many bytes a word asks to be lent; not read above `MOST_ROOM`.
pub fn read_room(word: &str) -> Option<usize>
    ensures { ReadsAll (IsRoom word.now) result }
{
    let room = number(word)?;
    if room > MOST_ROOM {
        return None;
    }
    Some(room)
}

/// The call that makes a file or takes one.
pub fn read_file_call<'a>(name: &str, rest: &'a [&'a str]) -> Option<FileCall<'a>>
    ensures { ReadsAll (Files name.now rest.now) result }
{
    match (name, rest) {
        ("write", [room]) => Some(FileCall::Write(read_room(room)?)),
        ("save", [path]) => Some(FileCall::Save(path)),
        ("load", [x, y, path]) => Some(FileCall::Load(number(x)?, number(y)?, path)),
        _ => None,
    }
}

/// The command that the words say.
pub fn read_command<'a>(name: &str, rest: &'a [&'a str]) -> Option<Command<'a>>
    ensures { ReadsAll (Says name.now rest.now) result }
{
    // No chain of `or_else`: the check covers no closure whose result alone names a lifetime.
    if let Some(choice) = read_choice(name, rest) {
        return Some(Command::Choose(choice));
    }
    if let Some(edit) = read_edit(name, rest) {
        return Some(Command::OnElement(edit));
    }
    if let Some(drafting) = read_drafting(name, rest) {
        return Some(Command::OnDraft(drafting));
    }
    if let Some(call) = read_selector_call(name, rest) {
        return Some(Command::OnSelector(call));
    }
    if let Some(call) = read_file_call(name, rest) {
        return Some(Command::OnFile(call));
    }
    read_call(name, rest).map(Command::OnCard)
}
