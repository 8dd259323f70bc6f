//! The rules of a valid certificate.
ghost use Rattle.std.specs.Prelude.{◌≡◌, ◌==◌, ◌↔◌, ◌≤◌, nat_lt, codes, ◌<◌, [], ◌∷◌, length, All, IfOk, IsTrue, MatchOption, Some, None};
ghost use Rattle.std.specs.List.{list_all, list_any};
ghost use Rattle.cv_check.specs.Accepted as spec;
ghost use Rattle.cv_meaning.specs.Clean.{Clean};
ghost use Rattle.cv_text.specs.Narrow.{IsNarrow};
ghost use Rattle.cv_check.specs.Integer.{has_address as has_address_of};
ghost use Rattle.cv_check.specs.Shown.{all_shown, entry_owed};

use crate::place::{entry, facts};
use crate::program::{buffer_size, has_address, statements};
use crate::rows::hypotheses;
use crate::shown::goals_shown;
use crate::walk::{first_rows, statements_shown, statements_sized};
use cv_cert::{Block, Cert, CertCase, CertError, read_cert};
use cv_core::{List, Program, Stmt};
use cv_farkas::Step;
use cv_num::Row;
use std::alloc::{AllocError, Global};

/// Whether the variables are the code and the offset of the pointer.
fn are_of_pointer(pairs: &[(u32, i64)]) -> bool
    ensures { result ≡ list_all (λ q. nat_lt q.0 2) pairs.now }
{
    pairs.iter().all(|pair| pair.0 < 2)
}

/// Whether the row names at most the code and the offset of the pointer.
fn names_pointer(r: &Row) -> bool
    ensures { result ≡ spec.names_pointer r.now }
{
    let pairs = r.pairs.as_slice();
    let named = are_of_pointer(pairs);
    let few = pairs.len() <= 2;
    named && few
}

fn rows_name_pointer(rows: &[Row]) -> bool
    ensures { result ≡ list_all spec.names_pointer rows.now }
{
    rows.iter().all(|r| names_pointer(r))
}

/// Whether the rows of all statements name at most the code and the offset of the pointer.
fn all_name_pointer(rows: &[List<Row>]) -> bool
    ensures { result ≡ list_all (list_all spec.names_pointer) rows.now }
{
    rows.iter()
        .all(|of_statement| rows_name_pointer(of_statement.as_slice()))
}

/// Whether the set has the site of the buffer.
fn has_buffer(set: &[u32]) -> bool
    ensures { result ≡ list_any (λ n. n == 1) set.now }
{
    set.iter().any(|site| *site == 1)
}

/// Whether the family has one set, and it has the buffer's site where a statement points to the buffer.
fn points_to(stmts: &[Stmt], sets: &[List<u32>]) -> bool
    ensures { result ≡ spec.points_to stmts.now sets.now }
{
    match sets {
        [only] => {
            let has = has_buffer(only.as_slice());
            !has_address(stmts) || has
        },
        _ => false,
    }
}

/// The steps that are left where the entry and all statements are shown.
fn all_steps<'a>(
    alloc: Global,
    size: u32,
    stmts: &[Stmt],
    rows: &[List<Row>],
    steps: &'a [Step],
) -> Result<Option<&'a [Step]>, AllocError>
    requires { All (λ rs. All (λ r. length r.pairs ≤ 200) rs) rows.now }
    ensures { IfOk result (λ found. MatchOption found (all_shown (spec.all_owed size stmts.now rows.now) steps.now ≡ None) (λ left. all_shown (spec.all_owed size stmts.now rows.now) steps.now ≡ Some left.now)) }
{
    let target = has_address(stmts);
    let facts = facts(alloc, size, target)?;
    let hyps = hypotheses(alloc, &entry(alloc)?, &[], &facts)?;
    let Some(left) = goals_shown(alloc, &hyps, first_rows(rows), steps)? else {
        return Ok(None);
    };
    match statements_shown(alloc, size, target, stmts, rows, &facts, left)? {
        None => Ok(None),
        Some(last) => Ok(Some(last)),
    }
}

/// Whether a case is valid for the statements over a buffer of this size.
fn is_case_valid(
    alloc: Global,
    size: u32,
    stmts: &[Stmt],
    case: &CertCase,
) -> Result<bool, AllocError>
    ensures { IfOk result (λ valid. IsTrue valid ↔ spec.IsCaseValid size stmts.now case.now) }
{
    let rows = case.rows.as_slice();
    let formed = is_formed(stmts, case);
    if !formed {
        return Ok(false);
    }
    let target = has_address(stmts);
    let facts = facts(alloc, size, target)?;
    let sized = statements_sized(alloc, size, target, stmts, rows, &facts)?;
    if !sized {
        return Ok(false);
    }
    match all_steps(alloc, size, stmts, rows, case.steps.as_slice())? {
        None => Ok(false),
        Some(left) => Ok(left.is_empty()),
    }
}

/// Whether the case has rows for each statement, of the pointer alone, and no picks.
fn is_formed(stmts: &[Stmt], case: &CertCase) -> bool
    ensures { IsTrue result ↔ ((length case.now.rows ≡ length stmts.now) × IsTrue (list_all (list_all spec.names_pointer) case.now.rows) × (case.now.picks ≡ [])) }
{
    let rows = case.rows.as_slice();
    let named = all_name_pointer(rows);
    rows.len() == stmts.len() && named && case.picks.is_empty()
}

/// Whether the block is of `main`.
fn is_main(name: &[u8]) -> bool
    ensures { IsTrue result ↔ (name.now ≡ codes "main") }
{
    name == b"main".as_slice()
}

/// Whether the block is of `main` and has one case, which is valid.
fn is_block_valid(
    alloc: Global,
    size: u32,
    stmts: &[Stmt],
    block: &Block,
) -> Result<bool, AllocError>
    ensures { IfOk result (λ valid. IsTrue valid ↔ spec.IsBlockValid size stmts.now block.now) }
{
    let named = is_main(block.name.as_slice());
    if !named {
        return Ok(false);
    }
    match block.cases.as_slice() {
        [case] => {
            let valid = is_case_valid(alloc, size, stmts, case)?;
            Ok(valid)
        },
        _ => Ok(false),
    }
}

/// Whether the certificate is valid for the statements over a buffer of this size.
fn is_certificate_valid(
    alloc: Global,
    size: u32,
    stmts: &[Stmt],
    cert: &Cert,
) -> Result<bool, AllocError>
    ensures { IfOk result (λ valid. IsTrue valid ↔ spec.IsCertificateValid size stmts.now cert.now) }
{
    let points = points_to(stmts, cert.sets.sets.as_slice());
    if !points {
        return Ok(false);
    }
    match cert.blocks.as_slice() {
        [block] => {
            let valid = is_block_valid(alloc, size, stmts, block)?;
            Ok(valid)
        },
        _ => Ok(false),
    }
}

/// Whether the bytes are the text of a certificate that is valid for a straight-line program; at most
/// 4294967294 bytes. A straight-line program with such a certificate is clean. An error is want of
/// memory.
pub fn check_narrow(alloc: Global, p: &Program, text: &[u8]) -> Result<bool, AllocError>
    requires { length text.now ≤ 4294967294 }
    // True exactly for the texts of valid certificates.
    ensures exact { IfOk result (λ accepted. IsTrue accepted ↔ spec.IsAccepted p.now text.now) }
    // An accepted straight-line program is clean.
    ensures clean { IfOk result (λ accepted. IsTrue accepted → IsNarrow p.now → Clean p.now) }
{
    let size = buffer_size(p);
    let stmts = statements(p);
    match read_cert(alloc, text) {
        Ok(cert) => {
            let valid = is_certificate_valid(alloc, size, stmts, &cert)?;
            Ok(valid)
        },
        Err(CertError::Line(_)) => Ok(false),
        Err(CertError::Memory) => Err(AllocError),
    }
}
