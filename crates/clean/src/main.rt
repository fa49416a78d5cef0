//! Reads a raw PGM card from standard input, and prints it, eroded by the cross of order 2, as plain PGM
//! or as a raw file.

#![tactic(auto)]

mod cleaning;
mod form;
mod input;
mod request;
#[cfg(test)]
mod tests;
mod text;

use form::Form;
use input::file_of;
use request::Request;
use std::io::Read;
use std::process::ExitCode;
use std::{env, io};
use text::report;

/// What `--help` prints.
const USAGE: &str = "usage: clean [raw] < CARD.pgm

Reads one raw PGM file (P5) of at most 16,640 bytes and prints the cleaned card:
at each pixel the second smallest tone of the pixel, counted twice, and its four
neighbours. It is printed as plain PGM (P2), one tone a line; with `raw` as a raw
PGM file again.

A longer file prints `too large`, a file that is no picture `refused 23 BYTE`,
the byte at fault counted from 0.
";

/// Cleans the card on standard input, and prints it in a form.
fn clean(rt: &HostRuntime, form: Form) -> io::Result<()> {
    let heap = rt.alloc();
    let mut file = Vec::new(heap);
    file_of(rt.stdin()).read_to_end(&mut file)?;
    rt.write_all(report(heap, file.as_slice(), form)?.as_slice())
}

fn main(rt: HostRuntime) -> io::Result<ExitCode> {
    let first = env::args(&rt)?.nth(1);
    match Request::of(first.as_deref()) {
        Request::Card(form) => clean(&rt, form)?,
        Request::Usage => rt.print(USAGE)?,
        Request::Unknown(word) => {
            eprintln!(rt; "clean: unknown argument {word}; usage: clean [raw] < CARD.pgm")?;
            return Ok(ExitCode::FAILURE);
        }
    }
    Ok(ExitCode::SUCCESS)
}
