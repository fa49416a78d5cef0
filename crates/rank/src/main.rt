//! Plays a script of calls on a selector: standard input has one command a line, standard output one answer a line.

#![tactic(auto)]

mod answer;
mod chosen;
mod command;
mod read;

use answer::Answer;
use chosen::Chosen;
use command::Command;
use selectors::{Reply, SelectorKind};
use std::io::{BufRead, BufReader};
use std::process::ExitCode;
use std::{env, io};

/// What `--help` prints.
const USAGE: &str = "usage: rank < SCRIPT

Plays a script on a rank selector, one command a line:

  selector KIND     a new, empty selector: gate, histogram or ladder
  put CODE WEIGHT   adds the weight to what the code weighs
  total             the sum of all weights
  select RANK       the least code that, with all below it, weighs at least RANK
  empty             makes every weight 0

The first selector is a gate. Answers are `ok`, the number, or `refused N`;
a line that cannot be read prints `unknown` and its number.
";

/// Plays the whole script.
fn play(rt: &HostRuntime) -> io::Result<()> {
    let mut input = BufReader::new(rt.alloc(), rt.stdin())?;
    let mut line = Vec::new(rt.alloc());
    let mut chosen = Chosen::new(SelectorKind::Gate);
    // Counted by hand: both figures are printed after the loop, where an `enumerate` tells neither.
    let mut lines = 0u64;
    let mut played = 0u64;
    // As many lines as there are: each loop is proved to end.
    for _ in 0..u64::MAX {
        line.clear();
        if input.read_until(b'\n', &mut line)? == 0 {
            break;
        }
        lines = lines.wrapping_add(1);
        // Cut at its end before it is read as text: bytes that are no text make one line unknown.
        let text = std::str::from_utf8(line.as_slice()).ok();
        let Some(command) = text.and_then(read::command) else {
            println!(rt; "unknown {lines}")?;
            continue;
        };
        let answer = match command {
            Command::Choose(kind) => {
                chosen = Chosen::new(kind);
                Ok(Reply::Done)
            }
            Command::Ask(call) => chosen.play(call),
        };
        played = played.wrapping_add(1);
        println!(rt; "{}", Answer(answer))?;
    }
    println!(rt; "played {played} of {lines} lines")
}

fn main(rt: HostRuntime) -> io::Result<ExitCode> {
    let Some(argument) = env::args(&rt)?.nth(1) else {
        play(&rt)?;
        return Ok(ExitCode::SUCCESS);
    };
    if matches!(argument.as_str(), "--help" | "-h") {
        rt.print(USAGE)?;
        return Ok(ExitCode::SUCCESS);
    }
    eprintln!(rt; "rank: unknown argument {argument}; usage: rank < SCRIPT")?;
    Ok(ExitCode::FAILURE)
}
