//! The reader: a file and the number of its next byte.

ghost use Rattle.std.specs.Prelude.{◌≡◌, ◌≤◌, length, IfOk};
ghost use Rattle.pgm.specs.Machine.{Advanced, Sampled, header_of};

use crate::bytes::Class;
use crate::faults::{FileFault, HeaderFault};
use crate::machine::{Header, State};

#[derive(Drop)]
pub struct Reader<'a> {
    file: &'a [u8],
    next: usize,
    ghost within: { next ≤ length file.now },
}

impl<'a> Reader<'a> {
    pub fn new(file: &'a [u8]) -> Self
        ensures file { result.file.now ≡ file.now }
        ensures next { result.next ≡ 0 }
    {
        Reader { file, next: 0 }
    }

    /// The next byte with its number, if there is one more.
    fn advance(&mut self) -> Option<(usize, u8)>
        ensures file { self.new.file.now ≡ self.old.file.now }
        ensures step { Advanced self.old.file.now self.old.next result self.new.next }
    {
        let at = self.next;
        let byte = *self.file.get(at)?;
        self.next += 1;
        Some((at, byte))
    }

    /// The header, from the file's first byte on.
    pub fn header(&mut self) -> Result<Header, HeaderFault>
        requires { self.old.next ≡ 0 }
        ensures file { self.new.file.now ≡ self.old.file.now }
        ensures answer { result ≡ header_of self.old.file.now }
        ensures next { IfOk result (λ h. self.new.next ≡ h.end) }
    {
        let mut state = State::Mark;
        while let Some((at, byte)) = self.advance() {
            state.take(at, Class::from(byte));
            if state.is_final() {
                break;
            }
        }
        state.close(self.file.len())
    }

    /// The samples that the header announces, from the next byte to the file's end.
    pub fn samples(&self, header: Header) -> Result<&'a [u8], FileFault>
        ensures { Sampled self.now.file.now self.now.next header result }
    {
        let samples = &self.file[self.next..];
        let count = header.area();
        if samples.len() < count {
            return Err(FileFault::Count(self.file.len()));
        }
        if samples.len() > count {
            return Err(FileFault::Count(self.next + count));
        }
        if let Some(i) = samples.iter().position(|sample| *sample > header.maxval) {
            return Err(FileFault::Sample(self.next + i));
        }
        Ok(samples)
    }
}
