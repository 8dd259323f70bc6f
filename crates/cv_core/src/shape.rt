//! Whether a program is well formed.
ghost use Rattle.std.specs.Prelude.{◌≡◌, OnOk, IfErr};
ghost use Rattle.cv_core.specs.Shape.{IsFirstFault, IsWellFormed};
ghost use Rattle.cv_core.specs.WellFormed.{IsSoundProgram};

mod contracts;
mod doubles;
mod headings;
mod kinds;
mod named;
mod names;
mod rules;
mod tables;
mod walk;

use crate::faults::ShapeFault;
use crate::program::Program;
use crate::shape::walk::first_fault;
use std::alloc::{AllocError, Global};

/// Why a program isn't known to be well formed.
#[derive(Clone, Copy, Debug, PartialEq, Eq)]
pub enum ShapeError {
    /// The first fault of the program.
    Fault(ShapeFault),
    Memory,
}

impl From<AllocError> for ShapeError {
    ghost use Rattle.cv_core.specs.declared.shape.ShapeError.TheVariants.{Memory};

    ghost from_gives = { λ _ e. e ≡ Memory };

    fn from(_error: AllocError) -> ShapeError {
        ShapeError::Memory
    }
}

/// Tests the eleven rules of shape at each place of a program: the globals, the literals, then each procedure's
/// heading, contract, locals and statements, and last that there is a main. The error is the first fault, in the
/// order of the places and at each place of the rules, or want of memory.
pub fn check_shape(alloc: Global, p: &Program) -> Result<(), ShapeError>
    ensures well_formed { OnOk result (IsWellFormed p.now) }
    ensures sound { OnOk result (IsSoundProgram p.now) }
    ensures first { IfErr result (IsFirstFault p.now) }
{
    let first = first_fault(alloc, p)?;
    match first {
        None => Ok(()),
        Some(fault) => Err(ShapeError::Fault(fault)),
    }
}
