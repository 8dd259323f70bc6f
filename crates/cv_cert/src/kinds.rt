//! The kinds of lines.
ghost use Rattle.std.specs.Prelude.{◌≡◌, IfOk, option_map, Some};
ghost use Rattle.cv_cert.specs.Reading.{tokens_of};
ghost use Rattle.cv_cert.specs.Lines as spec;
ghost use Rattle.cv_cert.specs.Views.{statement_line as statement_line_view, heading as heading_view, last_row};

use crate::fields::{ascending, numbers, pairs, parts};
use crate::names::is_name;
use crate::order::{has_room, is_after};
use crate::tokens::{after_word, integer, next_token, number};
use cv_core::{Bytes, List};
use cv_farkas::Step;
use cv_num::{Row, RowError, row};
use std::alloc::{AllocError, Global};

/// Whether a line is `cssv-cert 1`.
#[tactic(auto, unfolding(crate::specs::Lines::is_header))]
pub(crate) fn is_header(line: &[u8]) -> bool
    ensures { result ≡ spec.is_header (tokens_of line.now) }
{
    let Some(rest) = after_word(line, b"cssv-cert") else {
        return false;
    };
    let Some((version, rest)) = next_token(rest) else {
        return false;
    };
    version == b"1".as_slice() && next_token(rest).is_none()
}

/// Whether a line is `end`.
#[tactic(auto, unfolding(crate::specs::Lines::is_end))]
fn is_end(line: &[u8]) -> bool
    ensures { result ≡ spec.is_end (tokens_of line.now) }
{
    let Some(rest) = after_word(line, b"end") else {
        return false;
    };
    next_token(rest).is_none()
}

/// The number of a line that has this word and a number.
#[tactic(auto, unfolding(crate::specs::Lines::count_of))]
pub(crate) fn count(line: &[u8], word: &[u8]) -> Option<u32>
    ensures { result ≡ spec.count_of word.now (tokens_of line.now) }
{
    let Some(rest) = after_word(line, word) else {
        return None;
    };
    let Some((token, rest)) = next_token(rest) else {
        return None;
    };
    if next_token(rest).is_some() {
        return None;
    }
    number(token)
}

/// Whether a line is `case n`.
#[tactic(auto, unfolding(crate::specs::Lines::is_case))]
pub(crate) fn is_case(line: &[u8], n: u64) -> bool
    ensures { result ≡ spec.is_case n (tokens_of line.now) }
{
    match count(line, b"case") {
        None => false,
        Some(m) => u64::from(m) == n,
    }
}

/// The set of a line `set ..`.
#[tactic(auto, unfolding(crate::specs::Lines::set_of))]
pub(crate) fn set(alloc: Global, line: &[u8]) -> Result<Option<List<u32>>, AllocError>
    ensures { IfOk result (λ found. found ≡ spec.set_of (tokens_of line.now)) }
{
    let Some(rest) = after_word(line, b"set") else {
        return Ok(None);
    };
    ascending(alloc, rest)
}

/// How many rows a line `at n ..` announces.
#[tactic(auto, unfolding(crate::specs::Lines::at_of))]
fn at(line: &[u8], n: u64) -> Option<u32>
    ensures { result ≡ spec.at_of n (tokens_of line.now) }
{
    let Some(rest) = after_word(line, b"at") else {
        return None;
    };
    let Some((token, rest)) = next_token(rest) else {
        return None;
    };
    let Some((second, rest)) = next_token(rest) else {
        return None;
    };
    if next_token(rest).is_some() {
        return None;
    }
    let Some(place) = number(token) else {
        return None;
    };
    if u64::from(place) == n {
        number(second)
    } else {
        None
    }
}

/// The picks of a line `picks ..`, where they are as many as it says.
#[tactic(auto, unfolding(crate::specs::Lines::picks_of))]
fn picks(alloc: Global, line: &[u8]) -> Result<Option<List<u32>>, AllocError>
    ensures { IfOk result (λ found. found ≡ spec.picks_of (tokens_of line.now)) }
{
    let Some(rest) = after_word(line, b"picks") else {
        return Ok(None);
    };
    let Some((token, rest)) = next_token(rest) else {
        return Ok(None);
    };
    let Some(n) = number(token) else {
        return Ok(None);
    };
    let Some(found) = numbers(alloc, rest)? else {
        return Ok(None);
    };
    if n as usize == found.len() {
        Ok(Some(found))
    } else {
        Ok(None)
    }
}

/// A line that stands where a statement may begin.
#[derive(Drop)]
pub(crate) enum StatementStart {
    /// How many rows the statement has.
    At(u32),
    /// There are no more statements.
    Picks(List<u32>),
}

/// A line that announces the rows of statement n, or the picks.
#[tactic(auto, unfolding(crate::specs::Lines::statement_of))]
pub(crate) fn statement_line(
    alloc: Global,
    line: &[u8],
    n: u64,
) -> Result<Option<StatementStart>, AllocError>
    ensures { IfOk result (λ found. option_map statement_line_view found ≡ spec.statement_of n (tokens_of line.now)) }
{
    if let Some(rows) = at(line, n) {
        return Ok(Some(StatementStart::At(rows)));
    }
    match picks(alloc, line)? {
        None => Ok(None),
        Some(found) => Ok(Some(StatementStart::Picks(found))),
    }
}

/// The row of these pairs and this constant, where the pairs are canonical.
fn canonical_row(
    alloc: Global,
    pairs: &[(u32, i64)],
    constant: i64,
) -> Result<Option<Row>, AllocError>
    ensures { IfOk result (λ found. found ≡ spec.if_canonical (Some (spec.made_row constant pairs.now))) }
{
    match row(alloc, pairs, constant) {
        Ok(made) => Ok(Some(made)),
        Err(RowError::Pairs) => Ok(None),
        Err(RowError::Memory) => Err(AllocError),
    }
}

/// The row of a line `row ..`.
#[tactic(auto, unfolding(crate::specs::Lines::row_of))]
fn row_line(alloc: Global, line: &[u8]) -> Result<Option<Row>, AllocError>
    ensures { IfOk result (λ found. found ≡ spec.row_of (tokens_of line.now)) }
{
    let Some(rest) = after_word(line, b"row") else {
        return Ok(None);
    };
    let Some((token, rest)) = next_token(rest) else {
        return Ok(None);
    };
    let Some(constant) = integer(token) else {
        return Ok(None);
    };
    let Some(found) = pairs(alloc, rest)? else {
        return Ok(None);
    };
    canonical_row(alloc, found.as_slice(), constant)
}

/// The step of a line `step ..`.
#[tactic(auto, unfolding(crate::specs::Lines::step_of))]
pub(crate) fn step(alloc: Global, line: &[u8]) -> Result<Option<Step>, AllocError>
    ensures { IfOk result (λ found. found ≡ spec.step_of (tokens_of line.now)) }
{
    let Some(rest) = after_word(line, b"step") else {
        return Ok(None);
    };
    let Some((token, rest)) = next_token(rest) else {
        return Ok(None);
    };
    let Some(d) = number(token) else {
        return Ok(None);
    };
    let Some(parts) = parts(alloc, rest)? else {
        return Ok(None);
    };
    Ok(Some(Step { d, parts }))
}

/// A line that stands where a block may begin.
#[derive(Drop)]
pub(crate) enum Heading {
    /// A procedure's name, and how many cases it has.
    Proc(Bytes, u32),
    /// There are no more blocks.
    End,
}

/// The name and the number of cases of a line `proc ..`.
#[tactic(auto, unfolding(crate::specs::Lines::block_of))]
fn proc_line(alloc: Global, line: &[u8]) -> Result<Option<(Bytes, u32)>, AllocError>
    ensures { IfOk result (λ found. found ≡ spec.block_of (tokens_of line.now)) }
{
    let Some(rest) = after_word(line, b"proc") else {
        return Ok(None);
    };
    let Some((name, rest)) = next_token(rest) else {
        return Ok(None);
    };
    let Some((token, rest)) = next_token(rest) else {
        return Ok(None);
    };
    if next_token(rest).is_some() {
        return Ok(None);
    }
    if !is_name(name) {
        return Ok(None);
    }
    let Some(cases) = number(token) else {
        return Ok(None);
    };
    Ok(Some((List::from_slice(alloc, name)?, cases)))
}

/// A line that is a block's heading or the end.
#[tactic(auto, unfolding(crate::specs::Lines::heading_of))]
pub(crate) fn heading_line(alloc: Global, line: &[u8]) -> Result<Option<Heading>, AllocError>
    ensures { IfOk result (λ found. option_map heading_view found ≡ spec.heading_of (tokens_of line.now)) }
{
    if let Some((name, cases)) = proc_line(alloc, line)? {
        return Ok(Some(Heading::Proc(name, cases)));
    }
    if is_end(line) {
        Ok(Some(Heading::End))
    } else {
        Ok(None)
    }
}

/// The row of a line `row ..` that may stand behind the last of `before`, with `left` rows more to come.
#[tactic(auto, unfolding(crate::specs::Lines::next_row_of))]
pub(crate) fn next_row(
    alloc: Global,
    line: &[u8],
    before: &[Row],
    left: u32,
) -> Result<Option<Row>, AllocError>
    ensures { IfOk result (λ found. found ≡ spec.next_row_of left (last_row before.now) (tokens_of line.now)) }
{
    let Some(found) = row_line(alloc, line)? else {
        return Ok(None);
    };
    if is_after(before, &found) && has_room(left, found.pairs.as_slice()) {
        Ok(Some(found))
    } else {
        Ok(None)
    }
}
