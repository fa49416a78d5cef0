//! A whole file: its header, and then its samples.

ghost use Rattle.pgm.specs.Reading.{OneReading, Reading, Reads, reading};
ghost use Rattle.std.specs.Prelude.{◌≡◌};

use crate::faults::FileFault;
use crate::picture::Picture;
use crate::reader::Reader;

/// Reads a file as the picture that it is, or names its first fault.
pub fn read(file: &[u8]) -> Result<Picture<'_>, FileFault>
    ensures answer { Reads file.now (reading result) }
    ensures unambiguous { OneReading }
    ensures only { (other : Reading) → Reads file.now other → other ≡ reading result }
{
    let mut reader = Reader::new(file);
    let header = reader.header()?;
    let samples = reader.samples(header)?;
    Ok(Picture {
        width: usize::from(header.width),
        height: usize::from(header.height),
        maxval: header.maxval,
        samples,
    })
}
