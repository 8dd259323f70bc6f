//! What a certificate holds.
use cv_core::{Bytes, List, PtsTable};
use cv_farkas::Step;
use cv_num::Row;
use std::marker::Model;

/// A points-to family, and for each procedure with a body, in order, what shows it.
#[derive(Drop)]
pub struct Cert {
    pub sets: PtsTable,
    pub blocks: List<Block>,
}

impl Model for Cert {
    ghost use Rattle.cv_cert.specs.Certificate.{Certificate, IsCertificate};

    ghost Value = { Certificate };

    ghost view = { λ c. record { sets = c.sets; blocks = c.blocks } };

    ghost invariant = { λ c. IsCertificate (record { sets = c.sets; blocks = c.blocks }) };
}

/// What shows one procedure: its name, and its alias cases in order.
#[derive(Drop)]
pub struct Block {
    pub name: Bytes,
    pub cases: List<CertCase>,
}

/// What shows one alias case.
#[derive(Drop)]
pub struct CertCase {
    /// The rows that hold at each statement, in order; those of one statement ascend by their pairs.
    pub rows: List<List<Row>>,
    /// The alternatives that are shown where there are several, counted from 1.
    pub picks: List<u32>,
    /// The steps, in the order in which they are used.
    pub steps: List<Step>,
}
