//! What a call of the program gives.
use cv_list::Bytes;

/// A status of the program, 0..8, and what was written to standard output and to standard error.
#[derive(Debug, Drop)]
pub struct Served {
    pub status: u8,
    pub out: Bytes,
    pub errs: Bytes,
}
