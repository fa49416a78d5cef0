//! Plays a script of calls on a card: one command a line on standard input, one answer a line on
//! standard output.

#![tactic(auto)]

mod player;
mod script;
mod session;

use script::Script;
use scripts::{Answer, Choice, Rows, Summary, Tally, Tones, Workspace};
use selectors::calls::SelectorKind;
use selectors::{Gate, Histogram, Ladder};
use session::{Rehearsal, session};
use std::ops::ControlFlow;
use std::process::ExitCode;
use std::{env, io};
use tones::{Colour, Grey, Mark, Relief, Tone};

/// What `--help` prints.
const USAGE: &str = "usage: rehearse < SCRIPT

Plays a script of calls on a card, one command a line, and prints every answer:

  card KIND SELECTOR            a new card: mark, grey, relief, colour; gate, histogram, ladder
  open W H G ROWS..             a size and at most G stages; the rows of plane 0, or none for all zero
  element                       a new element: the origin alone
  place DX DY core|soft A       a place more           amount DX DY A     another amount
  order K                       the order index        standard I         a standard shape
  begin N                       a draft of N steps     step LETTER        E, D, O or C with the present element
  install                       hands the draft to the card
  patch X Y W H ROWS..          letters a rectangle    load X Y PATH      a raw PGM file (grey cards)
  work B                        redoes at most B rows
  row X Y N                     hands out N tones      residue            raw minus finished (grey cards)
  write ROOM                    the card as a PGM file, into ROOM bytes (grey cards)
  save PATH                     writes that file to a path (grey cards)
  left, due                     stale rows; the next stage and row
  tone PARTS                    the code of a tone     put, total, select, empty   a selector alone

Empty lines and comments, which begin with `#`, are passed over. A line that is no command
prints `unknown`; a `load` whose file cannot be read, and a `save` whose path cannot be written,
`unreadable`.
";

/// A session on a card of these tones, with the selector that is chosen.
fn with_selector<T: Rows>(
    rt: &HostRuntime,
    selector: SelectorKind,
    rehearsal: &mut Rehearsal,
) -> io::Result<ControlFlow<usize, Choice>> {
    match selector {
        SelectorKind::Gate => session::<T, Gate>(rt, Gate::new(), Gate::new(), rehearsal),
        SelectorKind::Histogram => session::<T, Histogram>(
            rt,
            Histogram::new(),
            Histogram::new(),
            rehearsal,
        ),
        SelectorKind::Ladder => session::<T, Ladder>(rt, Ladder::new(), Ladder::new(), rehearsal),
    }
}

/// A session on the card that is chosen.
fn with_card(
    rt: &HostRuntime,
    choice: Choice,
    rehearsal: &mut Rehearsal,
) -> io::Result<ControlFlow<usize, Choice>> {
    match choice.tones {
        Tones::Mark => with_selector::<Mark>(rt, choice.selector, rehearsal),
        Tones::Grey => with_selector::<Grey>(rt, choice.selector, rehearsal),
        Tones::Relief => with_selector::<Relief>(rt, choice.selector, rehearsal),
        Tones::Colour => with_selector::<Colour>(rt, choice.selector, rehearsal),
    }
}

/// Plays the whole script, session by session, and tells what is left of the last card.
fn sessions(rt: &HostRuntime, rehearsal: &mut Rehearsal) -> io::Result<usize> {
    let mut choice = Choice {
        tones: Tones::Grey,
        selector: SelectorKind::Histogram,
    };
    // As many cards as there are: each loop is proved to end.
    for _ in 0..u64::MAX {
        match with_card(rt, choice, rehearsal)? {
            ControlFlow::Break(left) => return Ok(left),
            ControlFlow::Continue(next) => choice = next,
        }
        rehearsal.answer(rt, Ok(Answer::Done))?;
    }
    Ok(0)
}

/// Plays the script on standard input, and says the last line.
fn rehearse(rt: &HostRuntime) -> io::Result<()> {
    let mut rehearsal = Rehearsal {
        script: Script::new(rt)?,
        workspace: Workspace::new(),
        tally: Tally::new(),
    };
    let left = sessions(rt, &mut rehearsal)?;
    let tally = rehearsal.tally;
    println!(rt; "{}", Summary { tally, left })
}

fn main(rt: HostRuntime) -> io::Result<ExitCode> {
    let Some(argument) = env::args(&rt)?.nth(1) else {
        rehearse(&rt)?;
        return Ok(ExitCode::SUCCESS);
    };
    if matches!(argument.as_str(), "--help" | "-h") {
        rt.print(USAGE)?;
        return Ok(ExitCode::SUCCESS);
    }
    eprintln!(rt; "rehearse: unknown argument {argument}; usage: rehearse < SCRIPT")?;
    Ok(ExitCode::FAILURE)
}
