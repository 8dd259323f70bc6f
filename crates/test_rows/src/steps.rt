//! Steps that hold and steps that do not.
use cv_farkas::{Step, direct, prove, step_holds};
use cv_list::List;
use cv_num::{Row, Wide, row, widen};
use std::alloc::{AllocError, Global};
use std::test::Fail;

fn wide(alloc: Global, pairs: &[(u32, i64)], constant: i64) -> Result<Wide, Fail> {
    let narrow = row(alloc, pairs, constant)?;
    Ok(widen(alloc, &narrow)?)
}

fn step(alloc: Global, d: u32, parts: &[(u32, u32)]) -> Result<Step, AllocError> {
    Ok(Step {
        d,
        parts: List::from_slice(alloc, parts)?,
    })
}

/// The hypotheses `2 * x0 - 1`, `x0 - x1` and `x1 - 3`.
fn hypotheses(alloc: Global) -> Result<Vec<Row>, Fail> {
    let mut hyps = Vec::new(alloc);
    hyps.push(row(alloc, &[(0, 2)], -1)?)?;
    hyps.push(row(alloc, &[(0, 1), (1, -1)], 0)?)?;
    hyps.push(row(alloc, &[(1, 1)], -3)?)?;
    Ok(hyps)
}

/// Whether a step proves `x0 + constant` from the hypotheses.
fn holds(alloc: Global, constant: i64, d: u32, parts: &[(u32, u32)]) -> Result<bool, Fail> {
    let hyps = hypotheses(alloc)?;
    let goal = wide(alloc, &[(0, 1)], constant)?;
    Ok(step_holds(&hyps, &goal, &step(alloc, d, parts)?))
}

/// The constant of the goal `x0 + constant`, a step's divisor and its parts, and whether it holds.
const STEPS: [(i64, u32, &[(u32, u32)], bool); 12] = [
    // 2 * x0 - 1 gives x0 - 1 by the divisor 2 alone; x0 - x1 and x1 - 3 give x0 - 3.
    (-1, 2, &[(0, 1)], true),
    (-2, 2, &[(0, 1)], false),
    (-1, 1, &[(0, 1)], false),
    (-3, 1, &[(1, 1), (2, 1)], true),
    // 65535 * x0 - 65534 * 3 - 3 + 65534 of the largest divisor.
    (-3, 65535, &[(1, 65535), (2, 65535)], true),
    // divisors, hypotheses and multipliers out of range, and hypotheses that do not ascend
    (-3, 0, &[(1, 1), (2, 1)], false),
    (-3, 65536, &[(1, 65536), (2, 65536)], false),
    (-3, 1, &[(2, 1), (1, 1)], false),
    (-3, 1, &[(1, 1), (1, 1)], false),
    (-3, 1, &[(1, 1), (3, 1)], false),
    (-3, 1, &[(1, 1), (2, 0)], false),
    (-3, 1, &[(1, 1), (2, 2147483648)], false),
];

#[test]
fn steps_hold_by_their_sums_and_ranges(rt: HostRuntime) -> Result<(), Fail> {
    for (constant, d, parts, expected) in &STEPS {
        let found = holds(rt.alloc(), *constant, *d, parts)?;
        assert_eq!(rt; found, *expected, "{constant} {d} {parts:?}");
    }
    Ok(())
}

/// Whether the hypotheses prove `x0 + constant` by a short step, and by one of the largest divisor.
fn holds_wide(alloc: Global, constant: i128) -> Result<(bool, bool), Fail> {
    let hyps = hypotheses(alloc)?;
    let mut goal = wide(alloc, &[(0, 1)], 0)?;
    goal.constant = constant;
    let largest = step(alloc, 65535, &[(1, 65535), (2, 65535)])?;
    let short = prove(alloc, &hyps, &goal)?;
    Ok((short.is_some(), step_holds(&hyps, &goal, &largest)))
}

#[test]
fn goals_have_any_size(rt: HostRuntime) -> Result<(), Fail> {
    for (constant, expected) in [
        (i128::MAX, true),
        (-3, true),
        (-4, false),
        (i128::MIN, false),
    ] {
        let found = holds_wide(rt.alloc(), constant)?;
        assert_eq!(rt; found, (expected, expected), "{constant}");
    }
    Ok(())
}

/// Whether `x0 + constant` has a short step, and whether it holds.
fn proves(alloc: Global, hyps: &[Row], constant: i64) -> Result<bool, Fail> {
    let goal = wide(alloc, &[(0, 1)], constant)?;
    match prove(alloc, hyps, &goal)? {
        Some(s) => Ok(step_holds(hyps, &goal, &s)),
        None => Ok(false),
    }
}

#[test]
fn short_steps_are_found(rt: HostRuntime) -> Result<(), Fail> {
    let hyps = hypotheses(rt.alloc())?;
    for (constant, expected) in [(-3, true), (-2, true), (-4, false)] {
        assert_eq!(rt;
            proves(rt.alloc(), &hyps, constant)?,
            expected,
            "{constant}"
        );
    }
    assert!(rt; !proves(rt.alloc(), &[], 0)?);
    Ok(())
}

/// Whether `x0 - 9` follows from `x3 - 5` and `2 - x3`, which contradict each other, and so directly.
fn contradicts(alloc: Global) -> Result<(bool, bool), Fail> {
    let hyps = [row(alloc, &[(3, 1)], -5)?, row(alloc, &[(3, -1)], 2)?];
    let goal = wide(alloc, &[(0, 1)], -9)?;
    Ok((proves(alloc, &hyps, -9)?, direct(&hyps, &goal)))
}

/// Whether `x3 - 4` and `0` are direct from `x3 - 5`.
fn is_direct(alloc: Global) -> Result<(bool, bool), Fail> {
    let hyps = [row(alloc, &[(3, 1)], -5)?];
    let shown = wide(alloc, &[(3, 1)], -4)?;
    let number = wide(alloc, &[], 0)?;
    Ok((direct(&hyps, &shown), direct(&[], &number)))
}

#[test]
fn contradictions_prove_anything(rt: HostRuntime) -> Result<(), Fail> {
    assert_eq!(rt; contradicts(rt.alloc())?, (true, false));
    assert_eq!(rt; is_direct(rt.alloc())?, (true, true));
    Ok(())
}

/// So many hypotheses `x1 + k`, and `x0 - x1 - 7` in the last place.
fn many(alloc: Global, count: u32) -> Result<Vec<Row>, Fail> {
    let mut hyps = Vec::new(alloc);
    for k in 1..count {
        hyps.push(row(alloc, &[(1, 1)], i64::from(k))?)?;
    }
    hyps.push(row(alloc, &[(0, 1), (1, -1)], -7)?)?;
    Ok(hyps)
}

#[test]
fn at_most_4096_hypotheses(rt: HostRuntime) -> Result<(), Fail> {
    // The least of the constants, 1, is the one that completes the last row.
    for (count, constant, expected) in [(4096, -6, true), (4096, -7, false), (4097, -6, false)] {
        let found = proves(rt.alloc(), &many(rt.alloc(), count)?, constant)?;
        assert_eq!(rt; found, expected, "{count} {constant}");
    }
    Ok(())
}
