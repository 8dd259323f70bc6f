//! The text of certificates, version 1: read with the first wrong line, and written as the one text.
#![tactic(auto)]

mod certificate;
mod fault;
mod fields;
mod grammar;
mod kinds;
mod lines;
mod names;
mod order;
mod read;
mod tokens;
mod write;

pub use certificate::{Block, Cert, CertCase};
pub use fault::CertError;
pub use read::{one_text_law, read_cert};
pub use write::write_cert;
