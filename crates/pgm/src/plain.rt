//! What is printed of a file: its picture, or why it is refused.

ghost use Rattle.pgm.specs.Plain.{plain, refused};
ghost use Rattle.std.specs.Prelude.{Some};

use crate::faults::FileFault;
use crate::picture::Picture;
use std::fmt;

/// A picture, which is printed as plain PGM: its size, and then a tone a line.
#[derive(Clone, Copy)]
pub struct PlainPgm<'a>(pub Picture<'a>);

/// A refusal, which is printed as its number and the byte at fault.
#[derive(Clone, Copy)]
pub struct Refused(pub FileFault);

impl fmt::Display for PlainPgm<'_> {
    ghost output = { λ p. Some (plain (p.0).width (p.0).height (p.0).samples.now) };

    fn fmt<W: fmt::Write>(&self, f: &mut fmt::Formatter<W>) -> fmt::Result {
        let Picture {
            width,
            height,
            samples,
            ..
        } = self.0;
        write!(f, "P2\n{width} {height}\n255\n")?;
        for tone in samples {
            writeln!(f, "{tone}")?;
        }
        Ok(())
    }
}

impl fmt::Display for Refused {
    ghost output = { λ refusal. Some (refused refusal.0) };

    fn fmt<W: fmt::Write>(&self, f: &mut fmt::Formatter<W>) -> fmt::Result {
        let number = self.0.number();
        let byte = self.0.byte();
        writeln!(f, "refused {number} {byte}")
    }
}
