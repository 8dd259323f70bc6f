//! The certificate of a text.
ghost use Rattle.std.specs.Prelude.{◌≡◌, ◌≢◌, ◌+◌, ◌-◌, ◌≤◌, length, IfOk, IfErr, MatchResult};
ghost use Rattle.cv_cert.specs.declared.fault.CertError.TheVariants.{Memory};
ghost use Rattle.cv_cert.specs.Certificate.{Certificate, IsCertificate};
ghost use Rattle.cv_cert.specs.Text.{text_of};
ghost use Rattle.cv_cert.specs.Wrong.{IfLine, IsFirstWrong};
ghost use Rattle.cv_cert.specs.Reading.{GivesAll, all_by, lines_in};
ghost use Rattle.cv_cert.specs.Lines as spec;

use crate::certificate::{Block, Cert};
use crate::fault::{CertError, ReadError};
use crate::grammar::certificate;
use crate::lines::{fault, lines_left};
use cv_core::{List, PtsTable};
use std::alloc::Global;

/// The sets and the blocks of a text that has nothing else.
fn whole(alloc: Global, text: &[u8]) -> Result<(List<List<u32>>, List<Block>), ReadError>
    ensures { GivesAll (λ x. record { sets = x.0; blocks = x.1 }) result (all_by (spec.certificate (lines_in text.now))) }
{
    let (sets, blocks, rest) = certificate(alloc, text)?;
    if rest.is_empty() {
        Ok((sets, blocks))
    } else {
        Err(fault(rest))
    }
}

/// The number of the line, from 1, from which on so many lines are left.
fn line_number(text: &[u8], left: usize) -> u32
    requires left { left ≤ length (lines_in text.now) }
    requires short { length text.now ≤ 4294967294 }
    ensures { result + left ≡ length (lines_in text.now) + 1 }
{
    (lines_left(text) - left + 1) as u32
}

/// Reads a certificate's text of at most 4294967294 bytes. `Line` comes exactly where the text has no reading.
pub fn read_cert(alloc: Global, text: &[u8]) -> Result<Cert, CertError>
    requires { length text.now ≤ 4294967294 }
    // What is read is what the text stands for.
    ensures value { IfOk result (λ c. IsCertificate c × (text.now ≡ text_of c)) }
    // The text of a certificate is read as that one, unless memory runs out.
    ensures again { (c : Certificate) → IsCertificate c → text.now ≡ text_of c → MatchResult result (λ found. found ≡ c) (λ e. e ≡ Memory) }
    // Where a line is named, the text is that of no certificate.
    ensures none { IfErr result (λ e. IfLine e (λ n. (c : Certificate) → IsCertificate c → text.now ≢ text_of c)) }
    // The line is the first that is wrong.
    ensures line { IfErr result (λ e. IfLine e (λ n. IsFirstWrong text.now n)) }
{
    match whole(alloc, text) {
        Ok((sets, blocks)) => Ok(Cert {
            sets: PtsTable { sets },
            blocks,
        }),
        Err(ReadError::Fault(left)) => Err(CertError::Line(line_number(text, left))),
        Err(ReadError::Memory) => Err(CertError::Memory),
    }
}

/// No two certificates have the same text.
pub fn one_text_law()
    ensures { (a b : Certificate) → IsCertificate a → IsCertificate b → text_of a ≡ text_of b → a ≡ b }
{}
