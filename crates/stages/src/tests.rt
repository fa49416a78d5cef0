//! Examples, the same with every selector.

ghost use Rattle.std.specs.Prelude.{◌≤◌};

use crate::pass::Pass;
use crate::window::Window;
use planes::frame::Frame;
use planes::size::Size;
use recipes::element::Element;
use recipes::places::Part;
use recipes::recipe::{Operation, Stage};
use selectors::{Gate, Histogram, Ladder, Selector};
use std::process::Abort;
use tones::Grey;

/// The card 10 20 30 / 40 50 60 / 70 80 90, and what a stage makes of it.
fn made<S: Selector>(selector: &mut S, stage: &Stage) -> [u8; 18]
    requires order { S.ordered selector.old }
    requires codes { 256 ≤ S.range selector.old }
{
    let frame = Frame::new(Size {
        width: 3,
        height: 3,
    });
    let window = Window::of(stage);
    let mut memory = [
        10, 20, 30, 40, 50, 60, 70, 80, 90, 0, 0, 0, 0, 0, 0, 0, 0, 0,
    ];
    let pass = Pass::new(&window, frame, 0, 9);
    pass.stage_row::<Grey, S>(selector, &mut memory, 0, 0, 3);
    pass.stage_row::<Grey, S>(selector, &mut memory, 1, 0, 3);
    pass.stage_row::<Grey, S>(selector, &mut memory, 2, 0, 3);
    memory
}

/// Compares what a stage makes of the card with what is expected, with every selector.
fn compare(rt: &impl Abort, stage: &Stage, expected: [u8; 9]) {
    let gate = made(&mut Gate::new(), stage);
    let histogram = made(&mut Histogram::new(), stage);
    let ladder = made(&mut Ladder::new(), stage);
    assert_eq!(rt; &gate[9..18], &expected[..]);
    assert_eq!(rt; &histogram[9..18], &expected[..]);
    assert_eq!(rt; &ladder[9..18], &expected[..]);
}

#[test]
fn the_cross_of_order_2(rt: HostRuntime) {
    let mut element = Element::new();
    assert!(rt; element.standard(0).is_ok());
    assert!(rt; element.order(2).is_ok());
    compare(
        &rt,
        &Stage {
            operation: Operation::Erosion,
            element,
        },
        [10, 20, 30, 40, 40, 50, 70, 70, 80],
    );
    compare(
        &rt,
        &Stage {
            operation: Operation::Dilation,
            element,
        },
        [20, 30, 30, 50, 60, 60, 70, 80, 90],
    );
}

#[test]
fn an_element_to_one_side(rt: HostRuntime) {
    let mut element = Element::new();
    assert!(rt; element.place(1, 0, Part::Soft, 5).is_ok());
    assert!(rt; element.place(0, -1, Part::Soft, -20).is_ok());
    compare(
        &rt,
        &Stage {
            operation: Operation::Erosion,
            element,
        },
        [10, 20, 30, 30, 40, 50, 60, 70, 80],
    );
    compare(
        &rt,
        &Stage {
            operation: Operation::Dilation,
            element,
        },
        [20, 30, 40, 50, 60, 70, 70, 80, 90],
    );
}

/// A lone light pixel in the middle of a card, far enough from every edge that its window is read
/// without tests.
fn speck_made(element: Element) -> [u8; 162] {
    let frame = Frame::new(Size {
        width: 9,
        height: 9,
    });
    let window = Window::of(&Stage {
        operation: Operation::Erosion,
        element,
    });
    let mut memory = [10; 162];
    memory[40] = 200;
    let pass = Pass::new(&window, frame, 0, 81);
    pass.stage_row::<Grey, Histogram>(&mut Histogram::new(), &mut memory, 4, 0, 9);
    memory
}

#[test]
fn far_from_the_edges(rt: HostRuntime) {
    let mut cross = Element::new();
    assert!(rt; cross.standard(0).is_ok());
    assert!(rt; cross.order(2).is_ok());
    assert_eq!(rt; &speck_made(cross)[117..126], &[10; 9][..]);
    let mut lowered = Element::new();
    assert!(rt; lowered.amount(0, 0, 3).is_ok());
    assert_eq!(rt;
        &speck_made(lowered)[117..126],
        &[7, 7, 7, 7, 197, 7, 7, 7, 7][..]
    );
}
