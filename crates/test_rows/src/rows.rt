//! Rows as a caller makes and changes them.
ghost use Rattle.std.specs.Prelude.{◌≤◌, IfOk, length};

use cv_num::{Assign, Row, RowError, Wide, add_scaled, gcd_reduce, row, subst, value, widen};
use std::alloc::{AllocError, Global};
use std::test::Fail;

/// A coefficient of x0 and a constant.
type One = (i64, i64);

/// The row `coefficient * x0 + constant`.
fn one(alloc: Global, parts: One) -> Result<Row, RowError>
    ensures { IfOk result (λ r. length r.pairs ≤ 1) }
{
    let (coefficient, constant) = parts;
    if coefficient == 0 {
        row(alloc, &[], constant)
    } else {
        row(alloc, &[(0, coefficient)], constant)
    }
}

/// The coefficient of x0, where no other variable has one, and the constant.
fn parts_of(r: &Row) -> Option<One> {
    match r.pairs.as_slice() {
        [] => Some((0, r.constant)),
        [(variable, coefficient)] => {
            if *variable == 0 {
                Some((*coefficient, r.constant))
            } else {
                None
            }
        }
        _ => None,
    }
}

fn is_made(alloc: Global, pairs: &[(u32, i64)]) -> bool {
    match row(alloc, pairs, 2) {
        Ok(made) => made.pairs.as_slice() == pairs && made.constant == 2,
        Err(_) => false,
    }
}

/// Pairs, and whether they are a row's.
const PAIRS: [([(u32, i64); 2], bool); 5] = [
    ([(0, 1), (1, 1)], true),
    ([(0, i64::MIN), (4294967295, i64::MAX)], true),
    ([(1, 1), (0, 1)], false),
    ([(0, 1), (0, 1)], false),
    ([(0, 1), (1, 0)], false),
];

#[test]
fn rows_have_ascending_pairs(rt: HostRuntime) {
    for (pairs, made) in &PAIRS {
        assert_eq!(rt; is_made(rt.alloc(), pairs), *made, "{pairs:?}");
    }
}

/// `a + k * b` of rows of x0 alone; None where it leaves 64 bits.
fn sum(alloc: Global, a: One, k: i64, b: One) -> Result<Option<One>, Fail> {
    let left = one(alloc, a)?;
    let right = one(alloc, b)?;
    match add_scaled(alloc, &left, k, &right)? {
        Some(both) => Ok(parts_of(&both)),
        None => Ok(None),
    }
}

/// a, k and b, and `a + k * b`.
const SUMS: [(One, i64, One, Option<One>); 7] = [
    ((i64::MAX, 5), 1, (1, 0), None),
    ((i64::MAX, 5), -1, (i64::MAX, 5), Some((0, 0))),
    ((0, 0), -1, (i64::MIN, 0), None),
    ((0, 0), -1, (0, i64::MIN), None),
    ((0, 0), i64::MIN, (1, 0), Some((i64::MIN, 0))),
    ((1, 2), -9, (3, -1), Some((-26, 11))),
    ((3, 2), 0, (7, 7), Some((3, 2))),
];

#[test]
fn sums_are_exact(rt: HostRuntime) -> Result<(), Fail> {
    for (a, k, b, expected) in &SUMS {
        assert_eq!(rt; sum(rt.alloc(), *a, *k, *b)?, *expected, "{a:?} {k} {b:?}");
    }
    Ok(())
}

/// A row of 200 variables.
fn long_row(alloc: Global) -> Result<Row, Fail> {
    let mut pairs = Vec::new(alloc);
    for variable in 0..200u32 {
        pairs.push((variable, i64::from(variable) - 1000))?;
    }
    Ok(row(alloc, &pairs, 3)?)
}

#[test]
fn long_rows_cancel(rt: HostRuntime) -> Result<(), Fail> {
    let alloc = rt.alloc();
    let long = long_row(alloc)?;
    assert_eq!(rt; widen(alloc, &long)?.pairs.as_slice().len(), 200);
    let none = add_scaled(alloc, &long, -1, &long)?;
    assert!(rt; none.is_some_and(|r| parts_of(&r) == Some((0, 0))));
    Ok(())
}

/// `x0 - 1` with `x1 + 3` in place of x0.
fn replaced(alloc: Global) -> Result<Wide, Fail> {
    let r = one(alloc, (1, -1))?;
    let image = row(alloc, &[(1, 1)], 3)?;
    match Assign::from_vec(vec![in alloc; (0, image)]?) {
        Some(by) => Ok(subst(alloc, &r, &by)?),
        None => Ok(widen(alloc, &r)?),
    }
}

/// Whether one variable may be assigned twice.
fn may_repeat(alloc: Global) -> Result<bool, Fail> {
    let first = one(alloc, (0, 0))?;
    let second = one(alloc, (0, 0))?;
    Ok(Assign::from_vec(vec![in alloc; (3, first), (3, second)]?).is_some())
}

#[test]
fn rows_stand_in_place_of_variables(rt: HostRuntime) -> Result<(), Fail> {
    let wide = replaced(rt.alloc())?;
    assert_eq!(rt; wide.pairs.as_slice(), [(1, 1)].as_slice());
    assert_eq!(rt; wide.constant, 2);
    assert!(rt; !may_repeat(rt.alloc())?);
    Ok(())
}

/// The value of a row of x0 alone; None too where x0 has none, since it is too large.
fn value_at(alloc: Global, r: One, x: i64) -> Result<Option<i128>, Fail> {
    let made = one(alloc, r)?;
    if -1099511627776 <= x && x <= 1099511627776 {
        Ok(value(&made, &[x]))
    } else {
        Ok(value(&made, &[]))
    }
}

/// A row of x0, what x0 is, and what the row is worth.
const VALUES: [(One, i64, Option<i128>); 4] = [
    ((2, 3), 5, Some(13)),
    (
        (i64::MIN, 3),
        1099511627776,
        Some(-10141204801825835211973625643005),
    ),
    ((2, 3), i64::MAX, None),
    ((0, 3), i64::MAX, Some(3)),
];

#[test]
fn rows_have_values(rt: HostRuntime) -> Result<(), Fail> {
    for (r, x, expected) in &VALUES {
        assert_eq!(rt; value_at(rt.alloc(), *r, *x)?, *expected, "{r:?} {x}");
    }
    Ok(())
}

/// A row of x0 alone after its reduction.
fn reduced(alloc: Global, r: One) -> Result<Option<One>, Fail> {
    let mut made = one(alloc, r)?;
    gcd_reduce(&mut made);
    Ok(parts_of(&made))
}

/// A row of x0, and what it is reduced to.
const REDUCED: [(One, One); 4] = [
    ((4, -5), (1, -2)),
    ((i64::MIN, i64::MIN), (-1, -1)),
    ((-6, 5), (-1, 0)),
    ((0, -5), (0, -5)),
];

#[test]
fn constants_are_floors(rt: HostRuntime) -> Result<(), Fail> {
    for (r, expected) in &REDUCED {
        assert_eq!(rt; reduced(rt.alloc(), *r)?, Some(*expected), "{r:?}");
    }
    Ok(())
}
