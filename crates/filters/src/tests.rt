//! An opening: two stages with one element.

use crate::whole::stage_plane;
use planes::frame::Frame;
use planes::size::Size;
use recipes::element::Element;
use recipes::recipe::{Operation, Stage};
use selectors::Histogram;
use tones::Grey;

#[test]
fn an_opening_by_the_cross_of_order_2(rt: HostRuntime) {
    let mut element = Element::new();
    assert!(rt; element.standard(0).is_ok());
    assert!(rt; element.order(2).is_ok());
    let frame = Frame::new(Size {
        width: 3,
        height: 3,
    });
    let mut selector = Histogram::new();
    let mut memory = [
        10, 20, 30, 40, 50, 60, 70, 80, 90, 0, 0, 0, 0, 0, 0, 0, 0, 0, 0, 0, 0, 0, 0, 0, 0, 0, 0,
    ];
    stage_plane::<Grey, Histogram>(
        &mut selector,
        &Stage {
            operation: Operation::Erosion,
            element,
        },
        frame,
        &mut memory,
        0,
    );
    stage_plane::<Grey, Histogram>(
        &mut selector,
        &Stage {
            operation: Operation::Dilation,
            element,
        },
        frame,
        &mut memory,
        1,
    );
    assert_eq!(rt; &memory[9..18], &[10, 20, 30, 40, 40, 50, 70, 70, 80][..]);
    assert_eq!(rt; &memory[18..27], &[20, 30, 30, 40, 50, 50, 70, 70, 80][..]);
}
