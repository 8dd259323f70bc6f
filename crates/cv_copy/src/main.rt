//! Copies standard input to standard output through the adapters of `cv_io`. The gate runs it with an input and compares
//! what it prints: no clause can say that the adapters read and write the real streams, so that this is tested.
#![tactic(auto)]

use cv_io::{HostIn, HostOut, Sink, Source};
use std::process::ExitCode;

/// The most pieces that are copied.
const PIECES: u32 = 1000;

/// Copies pieces of at most 16 bytes up to the end of the input. Status 1: a device failed, or there were too many.
fn main(rt: HostRuntime) -> ExitCode {
    let mut input = HostIn::new(rt.stdin());
    let mut out = HostOut::new(rt.stdout());
    let mut piece = [0u8; 16];
    for _ in 0..PIECES {
        match input.read(&mut piece) {
            Ok(0) => return ExitCode::from(0),
            Ok(count) => {
                if out.write(&piece[..count]).is_err() {
                    return ExitCode::from(1);
                }
            }
            Err(_) => return ExitCode::from(1),
        }
    }
    ExitCode::from(1)
}
