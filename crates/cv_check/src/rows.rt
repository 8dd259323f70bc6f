//! The rows of the integer program, and copies of rows.
ghost use Rattle.std.specs.Prelude.{◌≡◌, ◌++◌, ◌∷◌, [], ◌<◌, IfOk, OnOk, pos};
ghost use Rattle.cv_num.specs.Pairs.{IsCanonical};
ghost use Rattle.cv_num.specs.Algebra.{number as number_of};
ghost use Rattle.cv_check.specs.Integer as spec;

use cv_num::{Row, RowError, row};
use std::alloc::{AllocError, Global};

/// The row of these pairs and this constant.
fn row_of(alloc: Global, pairs: &[(u32, i64)], constant: i64) -> Result<Row, AllocError>
    requires { IsCanonical pairs.now }
    ensures { IfOk result (λ r. (r.pairs ≡ pairs.now) × (r.constant ≡ constant)) }
{
    match row(alloc, pairs, constant) {
        Ok(r) => Ok(r),
        Err(RowError::Pairs) => Err(AllocError),
        Err(RowError::Memory) => Err(AllocError),
    }
}

/// A copy of a row.
pub(crate) fn copy_of(alloc: Global, r: &Row) -> Result<Row, AllocError>
    ensures { IfOk result (λ copy. copy ≡ r.now) }
{
    row_of(alloc, r.pairs.as_slice(), r.constant)
}

/// The number `z`.
pub(crate) fn number(alloc: Global, z: i64) -> Result<Row, AllocError>
    ensures { IfOk result (λ r. r ≡ number_of z) }
{
    row_of(alloc, &[], z)
}

/// `v + z`.
pub(crate) fn plus(alloc: Global, v: u32, z: i64) -> Result<Row, AllocError>
    ensures { IfOk result (λ r. r ≡ spec.plus v z) }
{
    row_of(alloc, &[(v, 1)], z)
}

/// `z - v`.
pub(crate) fn less(alloc: Global, z: i64, v: u32) -> Result<Row, AllocError>
    ensures { IfOk result (λ r. r ≡ spec.less z v) }
{
    row_of(alloc, &[(v, -1)], z)
}

/// `v - u + z`.
pub(crate) fn over(alloc: Global, u: u32, v: u32, z: i64) -> Result<Row, AllocError>
    requires { u < v }
    ensures { IfOk result (λ r. r ≡ spec.over u v z) }
{
    row_of(alloc, &[(u, -1), (v, 1)], z)
}

/// `u - v + z`.
pub(crate) fn under(alloc: Global, u: u32, v: u32, z: i64) -> Result<Row, AllocError>
    requires { u < v }
    ensures { IfOk result (λ r. r ≡ spec.under u v z) }
{
    row_of(alloc, &[(u, 1), (v, -1)], z)
}

/// Puts copies of the rows at the end.
pub(crate) fn append_copies(
    alloc: Global,
    into: &mut Vec<Row>,
    rows: &[Row],
) -> Result<(), AllocError>
    ensures { OnOk result (into.new.items ≡ into.old.items ++ rows.now) }
{
    for r in rows {
        into.push(copy_of(alloc, r)?)?;
    }
    Ok(())
}

/// The rows of a statement, of a guard, and of the facts.
pub(crate) fn hypotheses(
    alloc: Global,
    rows: &[Row],
    guard: &[Row],
    facts: &[Row],
) -> Result<Vec<Row>, AllocError>
    ensures { IfOk result (λ hyps. hyps.items ≡ rows.now ++ guard.now ++ facts.now) }
{
    let mut hyps = Vec::new(alloc);
    append_copies(alloc, &mut hyps, rows)?;
    append_copies(alloc, &mut hyps, guard)?;
    append_copies(alloc, &mut hyps, facts)?;
    Ok(hyps)
}
