//! Examples.

use crate::draft::Draft;
use crate::element::Element;
use crate::places::Part;
use crate::reach::Reach;
use crate::recipe::Operation;
use std::test::Fail;

#[test]
fn the_cross_takes_order_2(rt: HostRuntime) {
    let mut e = Element::new();
    assert_eq!(rt; e.order(1).map_err(|r| r.number()), Ok(()));
    assert_eq!(rt; e.order(2).map_err(|r| r.number()), Err(10));
    assert_eq!(rt; e.standard(0).map_err(|r| r.number()), Ok(()));
    for (k, answer) in [
        (2, Ok(())),
        (0, Err(10)),
        (3, Err(10)),
        (1 << 31, Err(10)),
        (u32::MAX, Err(10)),
    ] {
        assert_eq!(rt; e.order(k).map_err(|r| r.number()), answer);
    }
    assert_eq!(rt; e.order_index(), 2);
}

#[test]
fn shapes_have_their_sizes(rt: HostRuntime) {
    let mut e = Element::new();
    for (i, size, reach) in [(0, 5, 1), (1, 9, 1), (2, 21, 2), (3, 49, 3)] {
        assert_eq!(rt; e.standard(i).map_err(|r| r.number()), Ok(()));
        assert_eq!(rt; e.places().len(), size);
        assert_eq!(rt; e.reach(), Reach { x: reach, y: reach });
        assert_eq!(rt; e.order_index(), 1);
    }
    assert_eq!(rt; e.standard(4).map_err(|r| r.number()), Err(9));
    assert_eq!(rt; e.places().len(), 49);
    assert_eq!(rt;
        e.place(-3, 3, Part::Soft, 0).map_err(|r| r.number()),
        Err(7)
    );
}

#[test]
fn places_and_amounts_are_refused_in_order(rt: HostRuntime) -> Result<(), Fail> {
    let mut e = Element::new();
    for (dx, dy, amount, answer) in [
        (4, 0, 0, Err(6)),
        (0, -4, 0, Err(6)),
        (0, 0, 1025, Err(6)),
        (0, 0, -1025, Err(6)),
        (0, 0, 0, Err(7)),
        (-3, 3, 1024, Ok(())),
        (-3, 3, 0, Err(7)),
    ] {
        assert_eq!(rt;
            e.place(dx, dy, Part::Soft, amount).map_err(|r| r.number()),
            answer
        );
    }
    for (dx, dy, amount, answer) in [
        (4, 0, 0, Err(6)),
        (1, 0, 1025, Err(6)),
        (1, 0, 0, Err(8)),
        (-3, 3, -1025, Err(6)),
        (-3, 3, -1024, Ok(())),
    ] {
        assert_eq!(rt; e.amount(dx, dy, amount).map_err(|r| r.number()), answer);
    }
    let [_, last] = e.places() else {
        return Err(Fail::new("two places"));
    };
    assert_eq!(rt; last.amount, -1024);
    Ok(())
}

#[test]
fn a_draft_takes_4_steps_at_most(rt: HostRuntime) -> Result<(), Fail> {
    let e = Element::new();
    let mut none = Draft::begin(0);
    assert_eq!(rt; none.step('E', &e).map_err(|r| r.number()), Err(12));
    assert_eq!(rt; none.step('x', &e).map_err(|r| r.number()), Err(11));
    let mut five = Draft::begin(5);
    for (letter, answer) in [
        ('E', Ok(())),
        ('o', Err(11)),
        ('D', Ok(())),
        ('O', Ok(())),
        ('e', Err(11)),
        ('C', Ok(())),
        ('C', Err(12)),
        ('c', Err(11)),
    ] {
        assert_eq!(rt; five.step(letter, &e).map_err(|r| r.number()), answer);
    }
    let unfinished = five.finish().map(|recipe| recipe.len());
    assert_eq!(rt; unfinished.map_err(|r| r.number()), Err(19));
    assert_eq!(rt; none.finish()?.len(), 0);
    Ok(())
}

#[test]
fn an_example(rt: HostRuntime) -> Result<(), Fail> {
    let mut cross = Element::new();
    cross.standard(0)?;
    cross.order(2)?;
    let mut line = Element::new();
    line.place(1, 0, Part::Soft, 8)?;
    let mut draft = Draft::begin(2);
    draft.step('O', &cross)?;
    draft.step('D', &line)?;
    let recipe = draft.finish()?;
    assert_eq!(rt; recipe.len(), 3);
    assert!(rt; recipe.amounts_within(8));
    assert!(rt; !recipe.amounts_within(7));
    let [a, b, c] = recipe.stages() else {
        return Err(Fail::new("three stages"));
    };
    assert_eq!(rt; a.operation, Operation::Erosion);
    assert_eq!(rt; b.operation, Operation::Dilation);
    assert_eq!(rt; c.operation, Operation::Dilation);
    Ok(())
}
