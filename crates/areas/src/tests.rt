//! Examples.

ghost use Rattle.std.specs.Prelude.{◌≤◌, length};

use crate::areas::Areas;
use crate::rect::Rect;
use planes::frame::Frame;
use planes::size::Size;
use recipes::element::Element;
use recipes::recipe::{Operation, Stage};
use std::test::Fail;

/// A stage that erodes by the cross.
fn erosion() -> Stage {
    let mut element = Element::new();
    let _ = element.standard(0);
    Stage {
        operation: Operation::Erosion,
        element,
    }
}

/// The areas of some stages with nothing stale.
fn clean(frame: Frame, stages: &[Stage]) -> Areas
    requires { length stages.now ≤ 8 }
{
    let mut areas = Areas::all_stale(frame, stages);
    for _ in 0..areas.rows_left() {
        areas.drop_row();
    }
    areas
}

/// Writes the pixel in column x and row y.
fn write(areas: &mut Areas, stages: &[Stage], x: usize, y: usize) -> Result<(), Fail> {
    let rect = Rect::on(areas.size(), x, y, 1, 1).ok_or_else(|| Fail::new("off the card"))?;
    areas.spread(stages, rect);
    Ok(())
}

#[test]
fn a_corner_makes_two_rows_stale(rt: HostRuntime) -> Result<(), Fail> {
    let frame = Frame::new(Size {
        width: 3,
        height: 3,
    });
    let stages = [erosion(), erosion()];
    let mut one = clean(frame, &stages[..1]);
    assert_eq!(rt; one.rows_left(), 0);
    write(&mut one, &stages[..1], 0, 0)?;
    assert_eq!(rt; one.rows_left(), 2);
    assert_eq!(rt; one.next(), Some((1, 0)));
    let mut both = clean(frame, &stages);
    write(&mut both, &stages, 0, 0)?;
    assert_eq!(rt; both.rows_left(), 5);
    assert_eq!(rt; one.first_met(1, 1, usize::MAX), Some(1));
    assert_eq!(rt; one.first_met(2, 1, usize::MAX), None);
    Ok(())
}

#[test]
fn the_smallest_rectangle_brings_rows_back(rt: HostRuntime) -> Result<(), Fail> {
    let stages = [erosion()];
    let mut areas = clean(
        Frame::new(Size {
            width: 1,
            height: 6,
        }),
        &stages,
    );
    write(&mut areas, &stages, 0, 5)?;
    assert_eq!(rt; areas.rows_left(), 2);
    write(&mut areas, &stages, 0, 0)?;
    assert_eq!(rt; areas.rows_left(), 6);
    for left in [5, 4, 3] {
        areas.drop_row();
        assert_eq!(rt; areas.rows_left(), left);
    }
    assert_eq!(rt; areas.next(), Some((1, 3)));
    write(&mut areas, &stages, 0, 0)?;
    assert_eq!(rt; areas.rows_left(), 6);
    Ok(())
}
