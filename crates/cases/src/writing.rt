//! Files that cards write: of every number of digits, into bytes that are too few, enough, and more.

ghost use Rattle.std.specs.Prelude.{◌<◌, length};

use cards::{Card, Refusal};
use pgm::read;
use selectors::Histogram;
use std::alloc::Global;
use std::process::Abort;
use std::test::Fail;
use tones::Grey;

/// Writes a card with an empty recipe, and reads what it wrote.
fn written(
    rt: &impl Abort,
    heap: Global,
    width: u16,
    height: u16,
    header: &[u8],
) -> Result<(), Fail>
    requires { 0 < length header.now }
{
    let (width, height) = (usize::from(width), usize::from(height));
    let area = width * height;
    let mut memory = vec![in heap; 0u8; 2 * area]?;
    for (i, tone) in memory.iter_mut().enumerate() {
        *tone = (i % 251) as u8;
    }
    let memory = memory.as_slice();
    let mut card: Card<Grey, Histogram> = Card::new(Histogram::new());
    card.open(memory, width, height, 1)?;

    let len = header.len() + area;
    let mut short = vec![in heap; 0xa5u8; len - 1]?;
    assert_eq!(rt;
        card.write(memory, short.as_mut_slice()),
        Err(Refusal::NoRoom)
    );
    assert!(rt; short.iter().all(|byte| *byte == 0xa5));

    let mut exact = vec![in heap; 0xa5u8; len]?;
    assert_eq!(rt; card.write(memory, exact.as_mut_slice())?, len);
    assert_eq!(rt; &exact.as_slice()[..header.len()], header);
    assert_eq!(rt; &exact.as_slice()[header.len()..], &memory[..area]);

    let mut long = vec![in heap; 0xa5u8; len + 3]?;
    assert_eq!(rt; card.write(memory, long.as_mut_slice())?, len);
    assert_eq!(rt; &long.as_slice()[..len], exact.as_slice());
    assert_eq!(rt; &long.as_slice()[len..], &[0xa5; 3][..]);

    let picture = read(exact.as_slice())?;
    assert_eq!(rt;
        (picture.width, picture.height, picture.maxval),
        (width, height, 255)
    );
    assert_eq!(rt; picture.samples, &memory[..area]);
    Ok(())
}

#[test]
fn files_of_every_size(rt: HostRuntime) -> Result<(), Fail> {
    let heap = rt.alloc();
    written(&rt, heap, 1, 1, b"P5\n1 1\n255\n")?;
    written(&rt, heap, 9, 9, b"P5\n9 9\n255\n")?;
    written(&rt, heap, 10, 10, b"P5\n10 10\n255\n")?;
    written(&rt, heap, 100, 100, b"P5\n100 100\n255\n")?;
    written(&rt, heap, 1024, 256, b"P5\n1024 256\n255\n")
}
