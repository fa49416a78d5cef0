//! Files of every kind, with what reading them gives; and the texts, once each.

use crate::faults::{FileFault, HeaderFault};
use crate::file::read;
use crate::picture::Picture;
use crate::plain::{PlainPgm, Refused};
use crate::raw::write;
use std::alloc::{AllocError, Global};
use std::test::Fail;

/// The size and maxval of a picture, or the letter and byte of a fault.
type Outcome = Result<(usize, usize, u8), (char, usize)>;

fn reading_of(file: &[u8]) -> Outcome {
    read(file)
        .map(|picture| (picture.width, picture.height, picture.maxval))
        .map_err(|fault| (fault.letter(), fault.byte()))
}

#[test]
fn files(rt: HostRuntime) {
    let files: [(&[u8], Outcome); 78] = [
        // (a) not P5
        (b"xy", Err(('a', 0))),
        (b" P5", Err(('a', 0))),
        (b"p5 1 1 1 a", Err(('a', 0))),
        (b"\x00", Err(('a', 0))),
        (b"Px", Err(('a', 1))),
        (b"P4 1 1 1 a", Err(('a', 1))),
        (b"P\n5", Err(('a', 1))),
        // (b) a byte that cannot stand there
        (b"P5#c", Err(('b', 2))),
        (b"P51 1 1 a", Err(('b', 2))),
        (b"P5x", Err(('b', 2))),
        (b"P5\x0c1 1 1 a", Err(('b', 2))),
        (b"P5\x0b1 1 1 a", Err(('b', 2))),
        (b"P5 x", Err(('b', 3))),
        (b"P5 -1", Err(('b', 3))),
        (b"P5 +1", Err(('b', 3))),
        (b"P5 \x0c1", Err(('b', 3))),
        (b"P5 1#c", Err(('b', 4))),
        (b"P5 1x", Err(('b', 4))),
        (b"P5 1.0", Err(('b', 4))),
        (b"P5 1\x0b1", Err(('b', 4))),
        (b"P5 #c\nx", Err(('b', 6))),
        (b"P5 1 #c\r#d\n?", Err(('b', 11))),
        (b"P5 1 1 x", Err(('b', 7))),
        (b"P5 1 1 1#", Err(('b', 8))),
        (b"P5 1 1 1x", Err(('b', 8))),
        // (c) a number outside its limits
        (b"P5 0", Err(('c', 3))),
        (b"P5 0#c", Err(('c', 3))),
        (b"P5 000 1 1 a", Err(('c', 3))),
        (b"P5 1025", Err(('c', 3))),
        (b"P5 1025 1 1 ", Err(('c', 3))),
        (b"P5 2000x", Err(('c', 3))),
        (b"P5 4294967297 1 1 a", Err(('c', 3))),
        (b"P5 18446744073709551617 1 1 a", Err(('c', 3))),
        (b"P5 1 0 1 a", Err(('c', 5))),
        (b"P5 1 257 1 a", Err(('c', 5))),
        (b"P5 256 1024 255 ", Err(('c', 7))),
        (b"P5 1 1 0 a", Err(('c', 7))),
        (b"P5 1 1 0", Err(('c', 7))),
        (b"P5 1 1 999", Err(('c', 7))),
        (b"P5 1 1 256 a", Err(('c', 7))),
        (b"P5 1 1 65535 a", Err(('c', 7))),
        // (d) the header ends early
        (b"", Err(('d', 0))),
        (b"P", Err(('d', 1))),
        (b"P5", Err(('d', 2))),
        (b"P5 ", Err(('d', 3))),
        (b"P5 1", Err(('d', 4))),
        (b"P5 1 ", Err(('d', 5))),
        (b"P5 102", Err(('d', 6))),
        (b"P5 1 1 ", Err(('d', 7))),
        (b"P5 1 1 1", Err(('d', 8))),
        (b"P5 #c", Err(('d', 5))),
        (b"P5 #\n", Err(('d', 5))),
        (b"P5 1 #", Err(('d', 6))),
        (b"P5 1 1\n#end", Err(('d', 11))),
        // (e) samples missing or too many, before (f)
        (b"P5 1 1 1 ", Err(('e', 9))),
        (b"P5 2 2 9 \n\x0b\x01", Err(('e', 12))),
        (b"P5 1024 256 255 ", Err(('e', 16))),
        (b"P5 1 1 1 # c", Err(('e', 10))),
        (b"P5 1 1 1\r\n\x00", Err(('e', 10))),
        (b"P5 1 1 255 ab", Err(('e', 12))),
        (b"P5 1 1 255 aP5 1 1 255 b", Err(('e', 12))),
        (b"P5 1 1 1 \x00\xff", Err(('e', 10))),
        // (f) a sample above maxval
        (b"P5 1 1 1 #", Err(('f', 9))),
        (b"P5 1 1 1 \x02", Err(('f', 9))),
        (b"P5 2 1 5 \x05\x06", Err(('f', 10))),
        (b"P5 2 2 9 \x01\n\x0b\x01", Err(('f', 10))),
        // pictures
        (b"P5 1 1 255 a", Ok((1, 1, 255))),
        (b"P5 1 1 40 #", Ok((1, 1, 40))),
        (b"P5 1 1 255\r\n", Ok((1, 1, 255))),
        (b"P5\t1\n1\r1 \x00", Ok((1, 1, 1))),
        (b"P5 #c\n1 1 1 \x01", Ok((1, 1, 1))),
        (b"P5\r#c\r1 #d\n 1 1 \x01", Ok((1, 1, 1))),
        (b"P5 #\n#\r1 1 1 \x01", Ok((1, 1, 1))),
        (b"P5 001 0001 000255 z", Ok((1, 1, 255))),
        (b"P5 3 1 100 abc", Ok((3, 1, 100))),
        (b"P5 1 1 255 \xff", Ok((1, 1, 255))),
        (b"P5 #\x00\x80#\n1 1 1 \x00", Ok((1, 1, 1))),
        (b"P5 2 3 255 abcdef", Ok((2, 3, 255))),
    ];
    for (file, outcome) in files {
        assert_eq!(rt; reading_of(file), outcome);
    }
}

/// A file whose width is written with 5,000 of those digits before a 1.
fn long_width(heap: Global, digit: u8) -> Result<Outcome, AllocError> {
    let mut file = b"P5 ".to_vec(heap)?;
    file.resize(5003, digit)?;
    file.extend_from_slice(b"1 1 255 a")?;
    Ok(reading_of(file.as_slice()))
}

#[test]
fn long_numbers(rt: HostRuntime) -> Result<(), Fail> {
    assert_eq!(rt; long_width(rt.alloc(), b'0')?, Ok((1, 1, 255)));
    assert_eq!(rt; long_width(rt.alloc(), b'9')?, Err(('c', 3)));
    Ok(())
}

#[test]
fn a_picture_is_written(rt: HostRuntime) -> Result<(), Fail> {
    let mut file = [7; 14];
    assert_eq!(rt; write(2, 1, &[10, 200], &mut file[..12]), None);
    assert_eq!(rt; &file[..], &[7; 14][..]);
    assert_eq!(rt; write(2, 1, &[10, 200], &mut file), Some(13));
    assert_eq!(rt; &file[..], &b"P5\n2 1\n255\n\n\xc8\x07"[..]);
    assert_eq!(rt; read(&file[..13])?.samples, &[10, 200][..]);
    Ok(())
}

#[test]
fn plain_pgm(rt: HostRuntime) -> Result<(), Fail> {
    let picture = PlainPgm(Picture {
        width: 3,
        height: 1,
        maxval: 255,
        samples: b"\x00\x09\xff",
    });
    let text = picture.to_string(rt.alloc())?;
    assert_eq!(rt; text.as_str(), "P2\n3 1\n255\n0\n9\n255\n");
    Ok(())
}

#[test]
fn refusal(rt: HostRuntime) -> Result<(), Fail> {
    let fault = FileFault::Header(HeaderFault::Number(7));
    let text = Refused(fault).to_string(rt.alloc())?;
    assert_eq!(rt; text.as_str(), "refused 23 7\n");
    let shown = fault.to_string(rt.alloc())?;
    assert_eq!(rt; shown.as_str(), "23 c 7: a number outside its limits");
    Ok(())
}
