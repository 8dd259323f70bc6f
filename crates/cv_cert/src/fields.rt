//! The lists of numbers that end a line.
ghost use Rattle.std.specs.Prelude.{◌≡◌, IfOk, option_map, List as Items, ℕ};
ghost use Rattle.cv_cert.specs.Tokens.{fields, number_of, integer_of, numbers_of, ascending_from, pairs_by};

use crate::tokens::{integer, next_token, number};
use cv_core::List;
use smallvec::SmallVec;
use std::alloc::{AllocError, Global};

/// The numbers that are the rest of a line; None where it has anything else.
pub(crate) fn numbers(alloc: Global, line: &[u8]) -> Result<Option<List<u32>>, AllocError>
    ensures { IfOk result (λ found. found ≡ numbers_of (fields line.now)) }
{
    let mut found = List::new(alloc);
    let mut rest = line;
    while let Some((token, after)) = next_token(rest) {
        let Some(n) = number(token) else {
            return Ok(None);
        };
        found.push(n)?;
        rest = after;
    }
    Ok(Some(found))
}

/// The numbers that are the rest of a line; None where they do not strictly ascend, or it has anything else.
pub(crate) fn ascending(alloc: Global, line: &[u8]) -> Result<Option<List<u32>>, AllocError>
    ensures { IfOk result (λ found. found ≡ ascending_from 0 (fields line.now)) }
{
    let mut found = List::new(alloc);
    let mut rest = line;
    let mut from = 0;
    while let Some((token, after)) = next_token(rest) {
        let Some(n) = number(token) else {
            return Ok(None);
        };
        if u64::from(n) < from {
            return Ok(None);
        }
        found.push(n)?;
        from = u64::from(n) + 1;
        rest = after;
    }
    Ok(Some(found))
}

/// The variables and coefficients that are the rest of a line; None where it has anything else.
pub(crate) fn pairs(
    alloc: Global,
    line: &[u8],
) -> Result<Option<SmallVec<(u32, i64), 4>>, AllocError>
    ensures { IfOk result (λ found. option_map (λ v. v.items) found ≡ pairs_by integer_of (fields line.now)) }
{
    let mut found = SmallVec::new(alloc);
    let mut rest = line;
    while let Some((token, after)) = next_token(rest) {
        let Some((second, after)) = next_token(after) else {
            return Ok(None);
        };
        let Some(variable) = number(token) else {
            return Ok(None);
        };
        let Some(coefficient) = integer(second) else {
            return Ok(None);
        };
        found.push((variable, coefficient))?;
        rest = after;
    }
    Ok(Some(found))
}

/// The hypotheses and multipliers that are the rest of a line; None where it has anything else.
pub(crate) fn parts(alloc: Global, line: &[u8]) -> Result<Option<List<(u32, u32)>>, AllocError>
    ensures { IfOk result (λ found. found ≡ pairs_by number_of (fields line.now)) }
{
    let mut found = List::new(alloc);
    let mut rest = line;
    while let Some((token, after)) = next_token(rest) {
        let Some((second, after)) = next_token(after) else {
            return Ok(None);
        };
        let Some(hypothesis) = number(token) else {
            return Ok(None);
        };
        let Some(multiplier) = number(second) else {
            return Ok(None);
        };
        found.push((hypothesis, multiplier))?;
        rest = after;
    }
    Ok(Some(found))
}
