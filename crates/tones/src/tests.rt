//! What the kinds do on examples.
use crate::{Colour, ColourRow, Grey, Mark, Relief, Tone, count_at_least, higher_of, lower_of};
use std::process::Abort;
use std::test::Fail;

#[test]
fn colour_codes(rt: HostRuntime) -> Result<(), Fail> {
    let table = [
        (0, 255, 0, 0),
        (120, 200, 10, 941_520),
        (359, 0, 255, 23_592_959),
    ];
    for (hue, saturation, brightness, code) in table {
        assert_eq!(rt; Colour::new(hue, saturation, brightness)?.code(), code);
    }
    assert_eq!(rt;
        Colour::new(360, 0, 0).map_err(|refusal| refusal.number()),
        Err(1)
    );
    Ok(())
}

#[test]
fn held_lowering(rt: HostRuntime) -> Result<(), Fail> {
    let greys = [(3, 5, 0), (250, -10, 255), (200, 255, 0), (200, 256, 200)];
    for (level, amount, lowered) in greys {
        assert_eq!(rt; Grey::new(level).lowered(amount).row(), lowered);
    }
    let reliefs = [(-250, 10, -255), (255, 255, 0), (255, 256, 255)];
    for (height, amount, lowered) in reliefs {
        assert_eq!(rt; Relief::new(height)?.lowered(amount).row(), lowered);
    }
    assert_eq!(rt; Grey::new(250).raised(10).row(), 255);
    assert_eq!(rt; Grey::new(9).raised(i32::MIN).row(), 9);
    assert!(rt; Mark::Yes.lowered(1).row());
    assert_eq!(rt; Colour::TOP.lowered(1).code(), 23_592_959);
    Ok(())
}

#[test]
fn rows_outside_the_limits(rt: HostRuntime) -> Result<(), Fail> {
    let top = ColourRow {
        hue: 359,
        saturation: 0,
        brightness: 255,
    };
    let outside = ColourRow {
        hue: 360,
        saturation: 7,
        brightness: 7,
    };
    assert_eq!(rt; <Colour as Tone>::of_row(outside).row(), top);
    assert_eq!(rt; <Relief as Tone>::of_row(-256).row(), 255);
    assert_eq!(rt;
        Relief::new(-256).map_err(|refusal| refusal.number()),
        Err(1)
    );
    Ok(())
}

// From a code to its tone, to the tone's row, and back.
fn round_trip<T: Tone>(rt: &impl Abort, code: u32) {
    let tone = T::of_code(code);
    assert_eq!(rt; tone.code(), code);
    assert_eq!(rt; T::of_row(tone.row()).code(), code);
}

#[test]
fn round_trips(rt: HostRuntime) {
    for code in 0..2 {
        round_trip::<Mark>(&rt, code);
    }
    for code in 0..256 {
        round_trip::<Grey>(&rt, code);
    }
    for code in 0..511 {
        round_trip::<Relief>(&rt, code);
    }
    for step in 0..4_681 {
        round_trip::<Colour>(&rt, step * 5_040 + step % 360);
    }
    round_trip::<Colour>(&rt, 23_592_959);
    assert_eq!(rt; <Grey as Tone>::of_code(256).code(), 255);
    assert_eq!(rt; <Colour as Tone>::of_code(u32::MAX).code(), 23_592_959);
}

#[test]
fn ranking_any_kind(rt: HostRuntime) -> Result<(), Fail> {
    assert_eq!(rt; count_at_least(&[true, false, true], Mark::Yes), 2);
    assert_eq!(rt; count_at_least(&[9, 10, 11], Grey::new(10)), 2);
    assert_eq!(rt; count_at_least(&[-256, -9, 9], Relief::new(9)?), 2);
    assert_eq!(rt; count_at_least(&[Colour::TOP.row()], Colour::TOP), 1);
    assert!(rt; !lower_of(Mark::Yes, Mark::No).row());
    assert_eq!(rt; higher_of(Grey::new(3), Grey::new(4)).row(), 4);
    assert_eq!(rt; lower_of(Relief::new(-3)?, Relief::new(4)?).row(), -3);
    let dark = Colour::new(0, 255, 0)?;
    assert_eq!(rt; lower_of(dark, Colour::TOP).code(), 0);
    assert!(rt; dark.is_below(Colour::TOP));
    Ok(())
}
