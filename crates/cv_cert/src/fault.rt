//! Why a text has no reading.
ghost use Rattle.std.specs.Prelude.{◌≡◌};
ghost use Rattle.cv_cert.specs.declared.fault.ReadError.TheVariants.{Memory};

use std::alloc::{AllocError, AllocFailed};
use thiserror::Error;

/// Why there is no certificate.
#[derive(Debug, Drop, Error)]
pub enum CertError {
    /// The text has no reading, and this line, from 1, is the first that is wrong.
    #[error("text line {0}")]
    Line(u32),
    #[error("out of memory")]
    Memory,
}

/// Where reading stopped.
#[derive(Debug, Drop)]
pub(crate) enum ReadError {
    /// How many lines are left, from the wrong one on.
    Fault(usize),
    Memory,
}

impl From<AllocError> for ReadError {
    ghost from_gives = { λ _ e. e ≡ Memory };

    fn from(_error: AllocError) -> ReadError {
        ReadError::Memory
    }
}

impl<T: Drop> From<AllocFailed<T>> for ReadError {
    ghost from_gives = { λ _ e. e ≡ Memory };

    fn from(_error: AllocFailed<T>) -> ReadError {
        ReadError::Memory
    }
}
