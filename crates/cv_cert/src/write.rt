//! The text of a certificate.
ghost use Rattle.std.specs.Prelude.{◌≡◌, ◌<◌, ◌≤◌, ◌^◌, ◌++◌, ◌∷◌, [], List as Items, codes, decimal, flat_map, length, OnOk, IfOk};
ghost use Rattle.cv_cert.specs.Certificate.{IsCertificate};
ghost use Rattle.cv_cert.specs.Text.{line_text, text_of, picks_line};
ghost use Rattle.cv_cert.specs.Writing.{number_text, integer_text, numbers_text, pairs_text, parts_text, set_text, row_text, step_text, statement_text, case_text, block_text, numbered_text};

use crate::certificate::{Block, Cert, CertCase};
use cv_core::List;
use cv_farkas::Step;
use cv_num::Row;
use itoa::Buffer;
use std::alloc::{AllocError, Global};

/// Appends a space and a number.
fn push_number(out: &mut Vec<u8>, n: u64) -> Result<(), AllocError>
    ensures { OnOk result (out.new.items ≡ out.old.items ++ number_text n) }
{
    let mut buffer = Buffer::new();
    out.push(b' ')?;
    out.extend_from_slice(buffer.format(n).as_bytes())?;
    Ok(())
}

/// Appends a space and a number with a minus before it where it is below 0.
fn push_integer(out: &mut Vec<u8>, z: i64) -> Result<(), AllocError>
    ensures { OnOk result (out.new.items ≡ out.old.items ++ integer_text z) }
{
    let mut buffer = Buffer::new();
    out.push(b' ')?;
    out.extend_from_slice(buffer.format(z).as_bytes())?;
    Ok(())
}

/// Appends the line `WORD N`.
fn push_count(out: &mut Vec<u8>, word: &[u8], n: u64) -> Result<(), AllocError>
    ensures { OnOk result (out.new.items ≡ out.old.items ++ line_text (word.now ∷ decimal n ∷ [])) }
{
    out.extend_from_slice(word)?;
    push_number(out, n)?;
    out.push(b'\n')?;
    Ok(())
}

/// Appends numbers, each behind a space.
fn push_numbers(out: &mut Vec<u8>, numbers: &[u32]) -> Result<(), AllocError>
    ensures { OnOk result (out.new.items ≡ out.old.items ++ numbers_text numbers.now) }
{
    for n in numbers {
        push_number(out, u64::from(*n))?;
    }
    Ok(())
}

/// Appends variables and coefficients, each behind a space.
fn push_pairs(out: &mut Vec<u8>, pairs: &[(u32, i64)]) -> Result<(), AllocError>
    ensures { OnOk result (out.new.items ≡ out.old.items ++ pairs_text pairs.now) }
{
    for (variable, coefficient) in pairs {
        push_number(out, u64::from(*variable))?;
        push_integer(out, *coefficient)?;
    }
    Ok(())
}

/// Appends hypotheses and multipliers, each behind a space.
fn push_parts(out: &mut Vec<u8>, parts: &[(u32, u32)]) -> Result<(), AllocError>
    ensures { OnOk result (out.new.items ≡ out.old.items ++ parts_text parts.now) }
{
    for (hypothesis, multiplier) in parts {
        push_number(out, u64::from(*hypothesis))?;
        push_number(out, u64::from(*multiplier))?;
    }
    Ok(())
}

/// Appends the line of a set.
fn push_set(out: &mut Vec<u8>, set: &[u32]) -> Result<(), AllocError>
    ensures { OnOk result (out.new.items ≡ out.old.items ++ set_text set.now) }
{
    out.extend_from_slice(b"set")?;
    push_numbers(out, set)?;
    out.push(b'\n')?;
    Ok(())
}

/// Appends the lines of sets.
fn push_sets(out: &mut Vec<u8>, sets: &[List<u32>]) -> Result<(), AllocError>
    ensures { OnOk result (out.new.items ≡ out.old.items ++ flat_map set_text sets.now) }
{
    for set in sets {
        push_set(out, set.as_slice())?;
    }
    Ok(())
}

/// Appends the line of a row.
fn push_row(out: &mut Vec<u8>, row: &Row) -> Result<(), AllocError>
    ensures { OnOk result (out.new.items ≡ out.old.items ++ row_text row.now) }
{
    out.extend_from_slice(b"row")?;
    push_integer(out, row.constant)?;
    push_pairs(out, row.pairs.as_slice())?;
    out.push(b'\n')?;
    Ok(())
}

/// Appends the lines of rows.
fn push_rows(out: &mut Vec<u8>, rows: &[Row]) -> Result<(), AllocError>
    ensures { OnOk result (out.new.items ≡ out.old.items ++ flat_map row_text rows.now) }
{
    for row in rows {
        push_row(out, row)?;
    }
    Ok(())
}

/// Appends the lines of statement n.
fn push_statement(out: &mut Vec<u8>, n: u64, rows: &[Row]) -> Result<(), AllocError>
    ensures { OnOk result (out.new.items ≡ out.old.items ++ statement_text n rows.now) }
{
    out.extend_from_slice(b"at")?;
    push_number(out, n)?;
    push_number(out, rows.len() as u64)?;
    out.push(b'\n')?;
    push_rows(out, rows)?;
    Ok(())
}

/// Appends the lines of all statements.
fn push_statements(out: &mut Vec<u8>, statements: &[List<Row>]) -> Result<(), AllocError>
    ensures { OnOk result (out.new.items ≡ out.old.items ++ numbered_text statement_text 0 statements.now) }
{
    for (n, rows) in statements.iter().enumerate() {
        push_statement(out, n as u64, rows.as_slice())?;
    }
    Ok(())
}

/// Appends the line of picks.
fn push_picks(out: &mut Vec<u8>, picks: &[u32]) -> Result<(), AllocError>
    ensures { OnOk result (out.new.items ≡ out.old.items ++ line_text (picks_line picks.now)) }
{
    out.extend_from_slice(b"picks")?;
    push_number(out, picks.len() as u64)?;
    push_numbers(out, picks)?;
    out.push(b'\n')?;
    Ok(())
}

/// Appends the line of a step.
fn push_step(out: &mut Vec<u8>, step: &Step) -> Result<(), AllocError>
    ensures { OnOk result (out.new.items ≡ out.old.items ++ step_text step.now) }
{
    out.extend_from_slice(b"step")?;
    push_number(out, u64::from(step.d))?;
    push_parts(out, step.parts.as_slice())?;
    out.push(b'\n')?;
    Ok(())
}

/// Appends the lines of steps.
fn push_steps(out: &mut Vec<u8>, steps: &[Step]) -> Result<(), AllocError>
    ensures { OnOk result (out.new.items ≡ out.old.items ++ flat_map step_text steps.now) }
{
    for step in steps {
        push_step(out, step)?;
    }
    Ok(())
}

/// Appends the lines of case n.
fn push_case(out: &mut Vec<u8>, n: u64, case: &CertCase) -> Result<(), AllocError>
    ensures { OnOk result (out.new.items ≡ out.old.items ++ case_text n case.now) }
{
    push_count(out, b"case", n)?;
    push_statements(out, case.rows.as_slice())?;
    push_picks(out, case.picks.as_slice())?;
    push_count(out, b"steps", case.steps.len() as u64)?;
    push_steps(out, case.steps.as_slice())?;
    Ok(())
}

/// Appends the lines of all cases.
fn push_cases(out: &mut Vec<u8>, cases: &[CertCase]) -> Result<(), AllocError>
    ensures { OnOk result (out.new.items ≡ out.old.items ++ numbered_text case_text 1 cases.now) }
{
    for (n, case) in cases.iter().enumerate() {
        push_case(out, n as u64 + 1, case)?;
    }
    Ok(())
}

/// Appends the lines of a block.
fn push_block(out: &mut Vec<u8>, block: &Block) -> Result<(), AllocError>
    ensures { OnOk result (out.new.items ≡ out.old.items ++ block_text block.now) }
{
    out.extend_from_slice(b"proc ")?;
    out.extend_from_slice(block.name.as_slice())?;
    push_number(out, block.cases.len() as u64)?;
    out.push(b'\n')?;
    push_cases(out, block.cases.as_slice())?;
    Ok(())
}

/// Appends the lines of all blocks.
fn push_blocks(out: &mut Vec<u8>, blocks: &[Block]) -> Result<(), AllocError>
    ensures { OnOk result (out.new.items ≡ out.old.items ++ flat_map block_text blocks.now) }
{
    for block in blocks {
        push_block(out, block)?;
    }
    Ok(())
}

/// The text of a certificate with these sets and blocks.
fn text_with(alloc: Global, sets: &[List<u32>], blocks: &[Block]) -> Result<Vec<u8>, AllocError>
    ensures { IfOk result (λ bytes. bytes.items ≡ text_of (record { sets = sets.now; blocks = blocks.now })) }
{
    let mut out = Vec::new(alloc);
    out.extend_from_slice(b"cssv-cert 1\n")?;
    push_count(&mut out, b"points", sets.len() as u64)?;
    push_sets(&mut out, sets)?;
    push_blocks(&mut out, blocks)?;
    out.extend_from_slice(b"end\n")?;
    Ok(out)
}

/// The one text of a certificate, which `read_cert` reads again; an error is want of memory.
pub fn write_cert(alloc: Global, cert: &Cert) -> Result<Vec<u8>, AllocError>
    ensures text { IfOk result (λ bytes. bytes.items ≡ text_of cert.now) }
    ensures certificate { IsCertificate cert.now }
{
    text_with(alloc, cert.sets.sets.as_slice(), cert.blocks.as_slice())
}
