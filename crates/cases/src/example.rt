//! A card from its opening to a corner that is lettered again: README.md quotes this text.

use cards::{Card, Refusal};
use recipes::{Draft, Element};
use selectors::Histogram;
use std::test::Fail;
use tones::Grey;

#[test]
fn a_corner_is_lettered_again(rt: HostRuntime) -> Result<(), Fail> {
    let mut memory = [0; 18]; // (1 stage + 1) × 3 × 3 rows, lent to every call
    let mut card: Card<Grey, Histogram> = Card::new(Histogram::new());
    card.open(&memory, 3, 3, 1)?; // recipes of at most one stage; nothing is stale
    let letters = [10, 20, 30, 40, 50, 60, 70, 80, 90];
    card.patch(&mut memory, 0, 0, 3, 3, &letters)?;

    let mut cross = Element::new();
    cross.standard(0)?;
    cross.order(2)?;
    let mut draft = Draft::begin(1);
    draft.step('E', &cross)?;
    card.install(&memory, draft)?; // the draft is used up; every row is stale

    for _ in 0..card.left() {
        card.work(&mut memory, 1)?; // a row at a time, while the play goes on
    }
    assert_eq!(rt; card.row(&memory, 0, 1, 3)?, &[40, 40, 50][..]); // a part of the memory itself

    card.patch(&mut memory, 0, 0, 1, 1, &[7])?; // a corner is lettered again
    assert_eq!(rt; card.left(), 2);
    assert_eq!(rt; card.due(), Some((1, 0))); // stage 1, row 0
    assert_eq!(rt; card.row(&memory, 0, 0, 1), Err(Refusal::Stale(0))); // not yet
    assert_eq!(rt; card.row(&memory, 2, 0, 1)?, &[30][..]); // that pixel does not depend on the corner

    assert_eq!(rt; card.work(&mut memory, 9)?, 2);
    assert_eq!(rt; card.row(&memory, 0, 0, 3)?, &[7, 20, 30][..]);

    let mut file = [0; 22]; // `cards::LONGEST_FILE` bytes are enough for any card
    assert_eq!(rt; card.write(&memory, &mut file)?, 20); // a raw PGM file; the bytes after it stay
    assert_eq!(rt; &file[..11], &b"P5\n3 3\n255\n"[..]);
    assert_eq!(rt; &file[11..], &[7, 20, 30, 40, 40, 50, 70, 70, 80, 0, 0][..]);
    Ok(())
}
