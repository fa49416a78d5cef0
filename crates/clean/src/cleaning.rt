//! Cleaning a picture: eroded by the cross of order 2.

ghost use Rattle.std.specs.Prelude.{◌≡◌, ◌*◌, [], ◌∷◌, length, IfOk, Ok};
ghost use Rattle.calls.specs.Promise.{Promise};
ghost use Rattle.clean.specs.Cleaning.{CrossOfOrder2, Eroded, HandsOut, Ready, Shades, size, state};
ghost use Rattle.filters.specs.Restaging.{lines};
ghost use Rattle.pgm.specs.Reading.{Reads, reading};
ghost use Rattle.planes.specs.Sizes.{Limits};
ghost use Rattle.recipes.specs.Drafts.{steps_of, declared_by};
ghost use Rattle.recipes.specs.declared.draft.Letter.TheVariants.{Erosion};
ghost use Rattle.tones.specs.Greys.{greys};

use cards::card::Card;
use pgm::Picture;
use planes::size::Size;
use recipes::draft::Draft;
use recipes::element::Element;
use selectors::Histogram;
use std::alloc::Global;
use std::io;
use tones::{Grey, Tone};

/// The tones of a file's picture, eroded by the cross of order 2, row by row: over memory for a card
/// of one stage the file is loaded, the erosion installed, and every row made.
pub fn cleaned(heap: Global, file: &[u8], picture: Picture<'_>) -> io::Result<Vec<u8>>
    requires { Reads file.now (reading (Ok picture)) }
    ensures { let s = size picture.entry.width picture.entry.height in
        IfOk result (λ v. Eroded s picture.entry.samples.now v.items) }
{
    let size = Size {
        width: picture.width,
        height: picture.height,
    };
    let mut bytes = vec![in heap; 0; 2 * size.width * size.height]?;
    let memory = bytes.as_mut_slice();
    let mut card = opened(memory, size);
    card.load(memory, 0, 0, file).unwrap();
    card.install(memory, erosion(&cross())).unwrap();
    let left = card.left();
    card.work(memory, left).unwrap();
    rows(heap, &card, memory, size)
}

/// An open card over memory for one stage.
fn opened(memory: &[u8], size: Size) -> Card<Grey, Histogram>
    requires limits { Limits size }
    requires long { length memory.now ≡ 2 * (size.width * size.height) }
    ensures promise { Promise greys size 1 (state result memory.now) }
    ensures in_order { Ready result }
{
    let mut card = Card::<Grey, Histogram>::new(Histogram::new());
    card.open(memory, size.width, size.height, 1).unwrap();
    card
}

/// The cross with order 2.
fn cross() -> Element
    ensures { CrossOfOrder2 result }
{
    let mut element = Element::new();
    element.standard(0).unwrap();
    element.order(2).unwrap();
    element
}

/// The draft of an erosion.
fn erosion(element: &Element) -> Draft
    ensures steps { steps_of result ≡ record { letter = Erosion; element = element.now } ∷ [] }
    ensures declared { declared_by result ≡ 1 }
{
    let mut draft = Draft::begin(1);
    draft.step('E', element).unwrap();
    draft
}

/// The finished rows one after another.
fn rows(
    heap: Global,
    card: &Card<Grey, Histogram>,
    memory: &[u8],
    size: Size,
) -> io::Result<Vec<u8>>
    requires { (f : Shades) × HandsOut (state card.now memory.now) size f }
    ensures { IfOk result (λ v. ((f : Shades) → HandsOut (state card.now memory.now) size f
        → v.items ≡ lines greys size f size.height)) }
{
    let mut tones = Vec::new(heap);
    for y in 0..size.height {
        tones.extend_from_slice(card.row(memory, 0, y, size.width).unwrap())?;
    }
    Ok(tones)
}
