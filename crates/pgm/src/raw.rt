//! A picture of greys, written as a raw file.

ghost use Rattle.pgm.specs.Raw.{OneFile, ReadsBack, ShortHeader, filled_with, raw_file, raw_header, taken_by};
ghost use Rattle.std.specs.Prelude.{◌≡◌, length};

use arrayvec::ArrayString;
use itoa::Buffer;

/// The most bytes of the header of a picture's file: lend as many beside its greys, and the file has room.
pub const LONGEST_HEADER: usize = 16;

/// The header of a raw file, with the maxval 255.
fn header(width: usize, height: usize) -> ArrayString<49>
    ensures { result.bytes ≡ raw_header width height }
{
    let (mut columns, mut rows) = (Buffer::new(), Buffer::new());
    let mut header = ArrayString::new();
    header.push_str("P5\n");
    header.push_str(columns.format(width));
    header.push_str(" ");
    header.push_str(rows.format(height));
    header.push_str("\n255\n");
    header
}

/// Writes a picture as a raw file (`P5`, maxval 255) into the first of the lent bytes, and answers how many
/// they are; nothing, and no byte is written, where fewer are lent.
///
/// The header takes at most `LONGEST_HEADER` bytes for a picture of at most 1,024 × 256 greys. Of such a picture,
/// with as many greys as pixels, `read` makes the same again (`reads_back`), and no other picture has this file
/// (`one_file`).
#[tactic(auto, using(crate::proofs::Writing::pictures_written))]
pub fn write(width: usize, height: usize, greys: &[u8], file: &mut [u8]) -> Option<usize>
    ensures answer { result ≡ taken_by (raw_file width height greys.now) (length file.old) }
    ensures file { file.new ≡ filled_with (raw_file width height greys.now) file.old }
    ensures short_header { ShortHeader }
    ensures reads_back { ReadsBack }
    ensures one_file { OneFile }
{
    let header = header(width, height);
    let end = header.len() + greys.len();
    if file.len() < end {
        return None;
    }
    file[..header.len()].copy_from_slice(header.as_bytes());
    file[header.len()..end].copy_from_slice(greys);
    Some(end)
}
