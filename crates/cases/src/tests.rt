//! Examples.

use cards::{AnyRefusal, Card, Refusal};
use recipes::{Draft, Element, Part};
use selectors::{Gate, Histogram, Selector};
use std::test::Fail;
use tones::{Colour, ColourRow, Grey, Tone};

#[test]
fn the_widest_card(rt: HostRuntime) {
    let mut card: Card<Grey, Gate> = Card::new(Gate::new());
    let memory = [0; 2048];
    assert_eq!(rt; card.open(&memory, 1025, 1, 1), Err(Refusal::Size));
    assert_eq!(rt; card.open(&memory, 1024, 257, 1), Err(Refusal::Size));
    assert_eq!(rt; card.open(&memory, 1024, 1, 9), Err(Refusal::Size));
    assert_eq!(rt; card.open(&memory, 1024, 1, 2), Err(Refusal::Memory));
    assert_eq!(rt; card.left(), 0);
    assert!(rt; card.open(&memory, 1024, 1, 1).is_ok());
}

#[test]
fn no_histogram_of_colours(rt: HostRuntime) {
    let mut card: Card<Colour, Histogram> = Card::new(Histogram::new());
    let memory = [ColourRow::default(); 2];
    assert_eq!(rt; card.open(&memory, 1, 1, 1), Err(Refusal::Range));
}

/// The picture round the pixel in row 1 and column 2, as far as the figures name it; 4 elsewhere.
const PICTURE: [u8; 12] = [
    4, 4, 7, 5, //
    4, 6, 3, 2, //
    4, 5, 8, 4,
];

/// A step with the element of the figures: by rows and columns (0, 0), (0, 1), (-1, 0), (-1, 1), so
/// by columns and rows (0, 0), (1, 0), (0, -1), (1, -1), with these amounts in this order.
fn step_of(letter: char, amounts: [i32; 4]) -> Result<Draft, Fail> {
    let [origin, right, above, corner] = amounts;
    let mut element = Element::new();
    element.amount(0, 0, origin)?;
    element.place(1, 0, Part::Soft, right)?;
    element.place(0, -1, Part::Soft, above)?;
    element.place(1, -1, Part::Soft, corner)?;
    let mut draft = Draft::begin(1);
    draft.step(letter, &element)?;
    Ok(draft)
}

/// Four figures from the literature on soft morphology (M. I. Vardavoulia, A. Gasteratos and
/// I. Andreadis, "Binary, Gray-Scale, and Vector Soft Mathematical Morphology: Extensions,
/// Algorithms, and Implementations"): flat erosion and dilation of grey tones, and the same with
/// amounts, of one pixel.
#[test]
fn figures_of_the_literature(rt: HostRuntime) -> Result<(), Fail> {
    for (letter, amounts, tone) in [
        ('E', [0, 0, 0, 0], 2),
        ('D', [0, 0, 0, 0], 8),
        ('E', [2, 1, 4, 3], 1),
        ('D', [2, 1, 4, 3], 12),
    ] {
        let mut card: Card<Grey, Histogram> = Card::new(Histogram::new());
        let mut memory = [0; 24];
        memory[..12].copy_from_slice(&PICTURE);
        assert_eq!(rt; card.open(&memory, 4, 3, 1), Ok(()));
        assert_eq!(rt; card.install(&memory, step_of(letter, amounts)?), Ok(()));
        assert_eq!(rt; card.work(&mut memory, 3), Ok(3));
        assert_eq!(rt; card.row(&memory, 2, 1, 1), Ok(&[tone][..]));
    }
    Ok(())
}

/// The code that a gate ranks first, with calls of four crates and one type of refusal.
fn ranked(hue: u16, order: u32) -> Result<u32, AnyRefusal> {
    let colour = Colour::new(hue, 255, 0)?;
    let mut cross = Element::new();
    cross.standard(0)?;
    cross.order(order)?;
    let mut gate = Gate::new();
    gate.put(colour.code(), 1)?;
    Ok(gate.select(1)?)
}

#[test]
fn any_refusal_by_its_number(rt: HostRuntime) {
    assert_eq!(rt; ranked(120, 2), Ok(120));
    assert_eq!(rt; ranked(360, 2).map_err(|refusal| refusal.number()), Err(1));
    assert_eq!(rt; ranked(120, 3).map_err(|refusal| refusal.number()), Err(10));
}
