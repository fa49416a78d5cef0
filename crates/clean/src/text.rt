//! What the program prints of a file.

ghost use Rattle.clean.specs.Printed.{Printed};
ghost use Rattle.std.specs.Prelude.{◌≡◌, IfOk};

use crate::cleaning::cleaned;
use crate::form::Form;
use crate::input::LONGEST;
use pgm::{Picture, Refused, read};
use std::alloc::Global;
use std::io;

/// What is printed of a file: of a picture the cleaned card in the form, else a line of text.
pub fn report(heap: Global, file: &[u8], form: Form) -> io::Result<Vec<u8>>
    ensures { IfOk result (λ v. Printed form file.now v.items) }
{
    if file.len() > LONGEST {
        return Ok(String::from_str(heap, "too large\n")?.into_bytes());
    }
    match read(file) {
        Ok(picture) => {
            let tones = cleaned(heap, file, picture)?;
            let eroded = Picture {
                samples: tones.as_slice(),
                ..picture
            };
            form.bytes(heap, eroded)
        }
        Err(fault) => Ok(Refused(fault).to_string(heap)?.into_bytes()),
    }
}
