//! How texts are read, and what becomes of them, in a form that rows compare.

use cv_core::{Contract, Program};
use cv_text::{TextError, TextFault, read_contract, read_core};
use std::alloc::Global;

/// What becomes of a text.
#[derive(Clone, Copy, Debug, PartialEq, Eq)]
pub enum Answer {
    Read,
    Fault(TextFault),
    Nesting,
    Memory,
}

/// `read_core`, of whose clauses no test needs one.
pub fn read_program(alloc: Global, text: &[u8]) -> Result<Program, TextError> {
    if text.len() < 4294967295 {
        read_core(alloc, text)
    } else {
        Err(TextError::Memory)
    }
}

/// `read_contract`, of whose clauses no test needs one.
pub fn read_clauses(alloc: Global, text: &[u8]) -> Result<Contract, TextError> {
    if text.len() < 4294967295 {
        read_contract(alloc, text)
    } else {
        Err(TextError::Memory)
    }
}

fn answer_of(error: Option<TextError>) -> Answer {
    match error {
        None => Answer::Read,
        Some(TextError::Fault(fault)) => Answer::Fault(fault),
        Some(TextError::Nesting) => Answer::Nesting,
        Some(TextError::Memory) => Answer::Memory,
    }
}

/// What becomes of the text of a program.
pub fn program_answer(alloc: Global, text: &[u8]) -> Answer {
    answer_of(read_program(alloc, text).err())
}

/// What becomes of the text of a contract.
pub fn contract_answer(alloc: Global, text: &[u8]) -> Answer {
    answer_of(read_clauses(alloc, text).err())
}
