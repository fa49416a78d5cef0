//! The forms in which a card is printed.

ghost use Rattle.clean.specs.Cleaning.{size};
ghost use Rattle.clean.specs.Printed.{in_form};
ghost use Rattle.pgm.specs.Raw.{raw_file};
ghost use Rattle.planes.specs.Sizes.{Limits};
ghost use Rattle.std.specs.Prelude.{◌≡◌, IfOk};

use pgm::{LONGEST_HEADER, Picture, PlainPgm};
use std::alloc::Global;
use std::io;

/// A form in which a card is printed.
#[derive(Clone, Copy)]
pub enum Form {
    /// As plain PGM, one tone a line.
    Plain,
    /// As a raw PGM file.
    Raw,
}

impl Form {
    /// A picture in the form.
    pub fn bytes(self, heap: Global, picture: Picture<'_>) -> io::Result<Vec<u8>>
        requires { Limits (size picture.width picture.height) }
        ensures { let p = picture.entry in
            IfOk result (λ v. v.items ≡ in_form self p.width p.height p.samples.now) }
    {
        match self {
            Form::Plain => Ok(PlainPgm(picture).to_string(heap)?.into_bytes()),
            Form::Raw => raw(heap, picture),
        }
    }
}

/// A picture as a raw file.
fn raw(heap: Global, picture: Picture<'_>) -> io::Result<Vec<u8>>
    requires { Limits (size picture.width picture.height) }
    ensures { let p = picture.entry in
        IfOk result (λ v. v.items ≡ raw_file p.width p.height p.samples.now) }
{
    let Picture {
        width,
        height,
        samples,
        ..
    } = picture;
    let mut file = vec![in heap; 0; LONGEST_HEADER + samples.len()]?;
    let taken = pgm::write(width, height, samples, file.as_mut_slice()).unwrap();
    file.truncate(taken);
    Ok(file)
}
