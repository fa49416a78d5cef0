//! The script: standard input, line by line.

ghost use Rattle.scripts.specs.Answers.{one_more};
ghost use Rattle.rehearse.specs.Cuts.{CutInto, is_comment};
ghost use Rattle.std.specs.Io.{StopsAt};
ghost use Rattle.std.specs.Prelude.{◌≡◌, ◌<◌, ◌≤◌, ◌↔◌, [], IfOk, IfSome, IsTrue, MatchOption, length};
ghost use Rattle.std.specs.Str.{IsUtf8};

use std::alloc::{AllocError, Global};
use std::fs::File;
use std::io;
use std::io::{BufRead, BufReader, Read, Stdin};

/// The most bytes of a file that is loaded.
pub const LONGEST: u64 = 1_048_576;

/// The input, and the present line with its number, from 1. The number goes round at 2^64.
#[derive(Drop)]
pub struct Script {
    input: BufReader<Stdin>,
    line: Vec<u8>,
    pub number: u64,
}

impl Script {
    /// The script on standard input.
    pub fn new(rt: &HostRuntime) -> io::Result<Script>
        ensures { IfOk result (λ script. (script.line.items ≡ []) × (script.number ≡ 0)) }
    {
        Ok(Script {
            input: BufReader::new(rt.alloc(), rt.stdin())?,
            line: Vec::new(rt.alloc()),
            number: 0,
        })
    }

    /// Goes to the next line, which ends at its first line feed; false at the end.
    pub fn advance(&mut self) -> io::Result<bool>
        ensures more { IfOk result (λ more. IsTrue more ↔ 0 < length self.new.line.items) }
        ensures line { StopsAt self.new.line.items 10 }
        ensures number { self.new.number ≡ one_more self.old.number }
    {
        self.line.clear();
        self.number = self.number.wrapping_add(1);
        Ok(self.input.read_until(b'\n', &mut self.line)? > 0)
    }

    /// Whether the present line is a comment: its first byte after blanks is `#`.
    pub fn is_comment(&self) -> bool
        ensures { result ≡ is_comment self.now.line.items }
    {
        self.line.as_slice().trim_ascii_start().starts_with(b"#")
    }

    /// The present line, where it is text.
    pub fn text(&self) -> Option<&str>
        ensures { let line = self.now.line.items in
            MatchOption result (¬ (IsUtf8 line)) (λ text. text.now ≡ line) }
    {
        std::str::from_utf8(self.line.as_slice()).ok()
    }
}

/// The words of a text.
pub fn words_of<'a>(heap: Global, text: &'a str) -> Result<Vec<&'a str>, AllocError>
    ensures { IfOk result (λ words. CutInto text.now words.items) }
{
    let mut words = Vec::new(heap);
    // A loop: of a `collect` a proof does not know enough to say which words there are.
    for word in text.split_whitespace() {
        words.push(word).map_err(AllocError::from)?;
    }
    Ok(words)
}

/// The bytes of a file; none where it cannot be read or is too long.
pub fn bytes_of(rt: &HostRuntime, path: &str) -> Option<Vec<u8>>
    ensures { IfSome result (λ bytes. length bytes.items ≤ LONGEST) }
{
    bytes_up_to(rt, path)
        .ok()
        .filter(|bytes| bytes.len() as u64 <= LONGEST)
}

/// The bytes of a file, cut one after the longest length.
fn bytes_up_to(rt: &HostRuntime, path: &str) -> io::Result<Vec<u8>> {
    let mut bytes = Vec::new(rt.alloc());
    File::open(rt, path)?
        .take(LONGEST + 1)
        .read_to_end(&mut bytes)?;
    Ok(bytes)
}
