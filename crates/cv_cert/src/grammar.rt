//! The reading of all lines.
ghost use Rattle.std.specs.Prelude.{◌≡◌};
ghost use Rattle.cv_cert.specs.Reading.{Gives, GivesAll, all_by, one_line, lines_in};
ghost use Rattle.cv_cert.specs.Lines as spec;
ghost use Rattle.cv_cert.specs.Views.{last_row, rows_or_picks as statement_view, next_block as block_view, statement_line as start_view, heading as heading_view};

use crate::certificate::{Block, CertCase};
use crate::fault::ReadError;
use crate::kinds::{self, Heading, StatementStart};
use crate::lines::{fault, next_line};
use cv_core::List;
use cv_farkas::Step;
use cv_num::Row;
use std::alloc::Global;

/// A line `WORD N`.
fn count<'a>(text: &'a [u8], word: &[u8]) -> Result<(u32, &'a [u8]), ReadError>
    ensures { Gives (λ x. (x.0, lines_in x.1.now)) result (one_line (spec.count_of word.now) (lines_in text.now)) }
{
    let Some((line, rest)) = next_line(text) else {
        return Err(fault(text));
    };
    let Some(n) = kinds::count(line, word) else {
        return Err(fault(text));
    };
    Ok((n, rest))
}

/// A line `row ..` behind the rows `before`, with `left` more to come.
fn row<'a>(
    alloc: Global,
    text: &'a [u8],
    before: &[Row],
    left: u32,
) -> Result<(Row, &'a [u8]), ReadError>
    ensures { Gives (λ x. (x.0, lines_in x.1.now)) result (one_line (spec.next_row_of left (last_row before.now)) (lines_in text.now)) }
{
    let Some((line, rest)) = next_line(text) else {
        return Err(fault(text));
    };
    let Some(found) = kinds::next_row(alloc, line, before, left)? else {
        return Err(fault(text));
    };
    Ok((found, rest))
}

/// The rows of a statement, as many as its `at` line says.
#[tactic(auto, unfolding(crate::specs::Lines::rows))]
fn rows(alloc: Global, count: u32, text: &[u8]) -> Result<(List<Row>, &[u8]), ReadError>
    ensures { Gives (λ x. (x.0, lines_in x.1.now)) result (spec.rows count (lines_in text.now)) }
{
    let mut found = List::new(alloc);
    let mut rest = text;
    for done in 0..count {
        let (next, after) = row(alloc, rest, found.as_slice(), count - done - 1)?;
        found.push(next)?;
        rest = after;
    }
    Ok((found, rest))
}

/// What stands where a statement may begin.
#[derive(Drop)]
pub(crate) enum Statement {
    Rows(List<Row>),
    /// There are no more statements.
    Picks(List<u32>),
}

/// A line `at n ..` or `picks ..`.
fn start(alloc: Global, text: &[u8], n: u64) -> Result<(StatementStart, &[u8]), ReadError>
    ensures { Gives (λ x. (start_view x.0, lines_in x.1.now)) result (one_line (spec.statement_of n) (lines_in text.now)) }
{
    let Some((line, rest)) = next_line(text) else {
        return Err(fault(text));
    };
    let Some(found) = kinds::statement_line(alloc, line, n)? else {
        return Err(fault(text));
    };
    Ok((found, rest))
}

/// The rows of statement n, or the picks where there is none.
#[tactic(auto, unfolding(crate::specs::Lines::statement))]
fn next_statement(alloc: Global, n: u64, text: &[u8]) -> Result<(Statement, &[u8]), ReadError>
    ensures { Gives (λ x. (statement_view x.0, lines_in x.1.now)) result (spec.statement n (lines_in text.now)) }
{
    let (first, rest) = start(alloc, text, n)?;
    match first {
        StatementStart::At(count) => {
            let (found, rest) = rows(alloc, count, rest)?;
            Ok((Statement::Rows(found), rest))
        }
        StatementStart::Picks(picks) => Ok((Statement::Picks(picks), rest)),
    }
}

/// The rows of all statements, and the picks behind them.
fn statements(alloc: Global, text: &[u8]) -> Result<(List<List<Row>>, List<u32>, &[u8]), ReadError>
    ensures { Gives (λ x. ((x.0, x.1), lines_in x.2.now)) result (spec.statements (lines_in text.now)) }
{
    let mut found = List::new(alloc);
    let mut rest = text;
    loop {
        let (next, after) = next_statement(alloc, found.len() as u64, rest)?;
        match next {
            Statement::Rows(rows) => found.push(rows)?,
            Statement::Picks(picks) => return Ok((found, picks, after)),
        }
        rest = after;
    }
}

/// A line `step ..`.
fn step(alloc: Global, text: &[u8]) -> Result<(Step, &[u8]), ReadError>
    ensures { Gives (λ x. (x.0, lines_in x.1.now)) result (one_line spec.step_of (lines_in text.now)) }
{
    let Some((line, rest)) = next_line(text) else {
        return Err(fault(text));
    };
    let Some(found) = kinds::step(alloc, line)? else {
        return Err(fault(text));
    };
    Ok((found, rest))
}

/// `count` lines `step ..`.
#[tactic(auto, unfolding(crate::specs::Lines::step_lines))]
fn step_lines(alloc: Global, count: u32, text: &[u8]) -> Result<(List<Step>, &[u8]), ReadError>
    ensures { Gives (λ x. (x.0, lines_in x.1.now)) result (spec.step_lines count (lines_in text.now)) }
{
    let mut found = List::new(alloc);
    let mut rest = text;
    for _done in 0..count {
        let (next, after) = step(alloc, rest)?;
        found.push(next)?;
        rest = after;
    }
    Ok((found, rest))
}

/// The steps of a case.
#[tactic(auto, unfolding(crate::specs::Lines::steps))]
fn steps(alloc: Global, text: &[u8]) -> Result<(List<Step>, &[u8]), ReadError>
    ensures { Gives (λ x. (x.0, lines_in x.1.now)) result (spec.steps (lines_in text.now)) }
{
    let (n, rest) = count(text, b"steps")?;
    step_lines(alloc, n, rest)
}

/// The line `case n`.
fn case_line(text: &[u8], n: u64) -> Result<&[u8], ReadError>
    ensures { Gives (λ x. (tt, lines_in x.now)) result (one_line (λ line. spec.if_true (spec.is_case n line)) (lines_in text.now)) }
{
    let Some((line, rest)) = next_line(text) else {
        return Err(fault(text));
    };
    if kinds::is_case(line, n) {
        Ok(rest)
    } else {
        Err(fault(text))
    }
}

/// Case n of a block.
#[tactic(auto, unfolding(crate::specs::Lines::a_case))]
fn case(alloc: Global, n: u64, text: &[u8]) -> Result<(CertCase, &[u8]), ReadError>
    ensures { Gives (λ x. (x.0, lines_in x.1.now)) result (spec.a_case n (lines_in text.now)) }
{
    let rest = case_line(text, n)?;
    let (rows, picks, rest) = statements(alloc, rest)?;
    let (steps, rest) = steps(alloc, rest)?;
    Ok((CertCase { rows, picks, steps }, rest))
}

/// The cases of a block, as many as its heading says.
#[tactic(auto, unfolding(crate::specs::Lines::cases))]
fn cases(alloc: Global, count: u32, text: &[u8]) -> Result<(List<CertCase>, &[u8]), ReadError>
    ensures { Gives (λ x. (x.0, lines_in x.1.now)) result (spec.cases count (lines_in text.now)) }
{
    let mut found = List::new(alloc);
    let mut rest = text;
    for done in 0..count {
        let (next, after) = case(alloc, u64::from(done) + 1, rest)?;
        found.push(next)?;
        rest = after;
    }
    Ok((found, rest))
}

/// What stands where a block may begin.
#[derive(Drop)]
pub(crate) enum NextBlock {
    Block(Block),
    /// There are no more blocks.
    End,
}

/// A line `proc ..` or `end`.
fn heading(alloc: Global, text: &[u8]) -> Result<(Heading, &[u8]), ReadError>
    ensures { Gives (λ x. (heading_view x.0, lines_in x.1.now)) result (one_line spec.heading_of (lines_in text.now)) }
{
    let Some((line, rest)) = next_line(text) else {
        return Err(fault(text));
    };
    let Some(found) = kinds::heading_line(alloc, line)? else {
        return Err(fault(text));
    };
    Ok((found, rest))
}

/// A block, or the end.
#[tactic(auto, unfolding(crate::specs::Lines::block))]
fn block(alloc: Global, text: &[u8]) -> Result<(NextBlock, &[u8]), ReadError>
    ensures { Gives (λ x. (block_view x.0, lines_in x.1.now)) result (spec.block (lines_in text.now)) }
{
    let (first, rest) = heading(alloc, text)?;
    match first {
        Heading::Proc(name, count) => {
            let (cases, rest) = cases(alloc, count, rest)?;
            Ok((NextBlock::Block(Block { name, cases }), rest))
        }
        Heading::End => Ok((NextBlock::End, rest)),
    }
}

/// All blocks, up to the end.
fn blocks(alloc: Global, text: &[u8]) -> Result<(List<Block>, &[u8]), ReadError>
    ensures { Gives (λ x. ((x.0, tt), lines_in x.1.now)) result (spec.blocks (lines_in text.now)) }
{
    let mut found = List::new(alloc);
    let mut rest = text;
    loop {
        let (next, after) = block(alloc, rest)?;
        match next {
            NextBlock::Block(block) => found.push(block)?,
            NextBlock::End => return Ok((found, after)),
        }
        rest = after;
    }
}

/// A line `set ..`.
fn set(alloc: Global, text: &[u8]) -> Result<(List<u32>, &[u8]), ReadError>
    ensures { Gives (λ x. (x.0, lines_in x.1.now)) result (one_line spec.set_of (lines_in text.now)) }
{
    let Some((line, rest)) = next_line(text) else {
        return Err(fault(text));
    };
    let Some(found) = kinds::set(alloc, line)? else {
        return Err(fault(text));
    };
    Ok((found, rest))
}

/// `count` lines `set ..`.
#[tactic(auto, unfolding(crate::specs::Lines::set_lines))]
fn set_lines(alloc: Global, count: u32, text: &[u8]) -> Result<(List<List<u32>>, &[u8]), ReadError>
    ensures { Gives (λ x. (x.0, lines_in x.1.now)) result (spec.set_lines count (lines_in text.now)) }
{
    let mut found = List::new(alloc);
    let mut rest = text;
    for _done in 0..count {
        let (next, after) = set(alloc, rest)?;
        found.push(next)?;
        rest = after;
    }
    Ok((found, rest))
}

/// The points-to family.
#[tactic(auto, unfolding(crate::specs::Lines::sets))]
fn sets(alloc: Global, text: &[u8]) -> Result<(List<List<u32>>, &[u8]), ReadError>
    ensures { Gives (λ x. (x.0, lines_in x.1.now)) result (spec.sets (lines_in text.now)) }
{
    let (n, rest) = count(text, b"points")?;
    set_lines(alloc, n, rest)
}

/// The line `cssv-cert 1`.
fn header(text: &[u8]) -> Result<&[u8], ReadError>
    ensures { Gives (λ x. (tt, lines_in x.now)) result (one_line (λ line. spec.if_true (spec.is_header line)) (lines_in text.now)) }
{
    let Some((line, rest)) = next_line(text) else {
        return Err(fault(text));
    };
    if kinds::is_header(line) {
        Ok(rest)
    } else {
        Err(fault(text))
    }
}

/// A certificate's sets and blocks, and what stands behind its last line.
#[tactic(auto, unfolding(crate::specs::Lines::certificate))]
pub(crate) fn certificate(
    alloc: Global,
    text: &[u8],
) -> Result<(List<List<u32>>, List<Block>, &[u8]), ReadError>
    ensures { Gives (λ x. (record { sets = x.0; blocks = x.1 }, lines_in x.2.now)) result (spec.certificate (lines_in text.now)) }
{
    let rest = header(text)?;
    let (sets, rest) = sets(alloc, rest)?;
    let (blocks, rest) = blocks(alloc, rest)?;
    Ok((sets, blocks, rest))
}
