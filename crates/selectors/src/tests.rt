//! Examples, the same for every selector.
use crate::entries::Entry;
use crate::gate::Gate;
use crate::histogram::Histogram;
use crate::ladder::Ladder;
use crate::median::{MedianRefusal, weighted_median};
use crate::refusals::PutRefusal;
use crate::selector::Selector;
use std::process::Abort;
use std::test::Fail;

/// Puts each code with its weight, and compares the refusal's number, or 0 where it is taken.
fn puts<S: Selector>(
    rt: &impl Abort,
    selector: &mut S,
    table: &[(u32, u32, u32)],
) -> Result<(), Fail>
    requires { S.ordered selector.old }
    ensures in_order { S.ordered selector.new }
{
    for (code, weight, expected) in table {
        let number = selector
            .put(*code, *weight)
            .map_or_else(|refusal| refusal.number(), |()| 0);
        assert_eq!(rt; number, *expected);
    }
    Ok(())
}

/// Compares the code at each rank, or the refusal's number.
fn selects<S: Selector>(
    rt: &impl Abort,
    selector: &S,
    table: &[(u32, Result<u32, u32>)],
) -> Result<(), Fail>
    requires { S.ordered selector.now }
{
    for (rank, expected) in table {
        let answer = selector.select(*rank).map_err(|refusal| refusal.number());
        assert_eq!(rt; answer, *expected);
    }
    Ok(())
}

fn ranks<S: Selector>(rt: &impl Abort, selector: &mut S) -> Result<(), Fail>
    requires { S.ordered selector.old }
{
    puts(rt, selector, &[(7, 3, 0), (5, 2, 0), (9, 1, 0)])?;
    selects(
        rt,
        selector,
        &[
            (2, Ok(5)),
            (3, Ok(7)),
            (5, Ok(7)),
            (6, Ok(9)),
            (0, Err(5)),
            (7, Err(5)),
        ],
    )?;
    selector.empty();
    selects(rt, selector, &[(1, Err(5))])
}

fn limits<S: Selector>(rt: &impl Abort, selector: &mut S, range: u32, top: u32) -> Result<(), Fail>
    requires { S.ordered selector.old }
{
    assert_eq!(rt; selector.range(), range);
    puts(rt, selector, &[(range, 1, 2), (5, 0, 2), (top, 1, 0)])?;
    for code in 0..63 {
        puts(rt, selector, &[(code, 2, 0)])?;
    }
    puts(
        rt,
        selector,
        &[
            (63, u32::MAX, 3),
            (63, 0, 2),
            (62, 65_408, 0),
            (62, 1, 4),
            (62, u32::MAX, 4),
        ],
    )?;
    assert_eq!(rt; selector.total(), 65_535);
    selects(
        rt,
        selector,
        &[(65_534, Ok(62)), (65_535, Ok(top)), (65_536, Err(5))],
    )
}

fn medians<S: Selector>(rt: &impl Abort, selector: &mut S)
    requires { S.ordered selector.old }
{
    let entries = [
        Entry {
            code: 30,
            weight: 4,
        },
        Entry {
            code: 10,
            weight: 3,
        },
        Entry {
            code: 20,
            weight: 3,
        },
        Entry { code: 9, weight: 0 },
    ];
    assert_eq!(rt; weighted_median(selector, &entries[0..3]), Ok(20));
    assert_eq!(rt;
        weighted_median(selector, &entries[0..0]),
        Err(MedianRefusal::NoEntries)
    );
    let refusal = MedianRefusal::Refused(3, PutRefusal::Unfit);
    assert_eq!(rt; weighted_median(selector, &entries), Err(refusal));
    assert_eq!(rt; selector.total(), 10);
    assert_eq!(rt; refusal.number(), 2);
}

#[test]
fn ranked_codes(rt: HostRuntime) -> Result<(), Fail> {
    ranks(&rt, &mut Gate::new())?;
    ranks(&rt, &mut Histogram::new())?;
    ranks(&rt, &mut Ladder::new())
}

#[test]
fn limits_of_a_put(rt: HostRuntime) -> Result<(), Fail> {
    limits(&rt, &mut Gate::new(), 33_554_432, 33_554_431)?;
    limits(&rt, &mut Histogram::new(), 512, 511)?;
    limits(&rt, &mut Ladder::new(), 33_554_432, 33_554_431)
}

#[test]
fn weighted_medians(rt: HostRuntime) {
    medians(&rt, &mut Gate::new());
    medians(&rt, &mut Histogram::new());
    medians(&rt, &mut Ladder::new());
}
