//! The program `cssv`: the commands over the host's streams and files.
#![tactic(auto)]

use cv_app::cssv;
use cv_io::{HostErr, HostIn, HostOut, HostStore, Sink};
use std::io::ErrorKind;
use std::process::ExitCode;
use std::{env, io};

/// The words after the program's name. An error is want of memory, or a word that is no text.
fn words_of(rt: &HostRuntime) -> io::Result<Vec<Vec<u8>>> {
    let mut words = Vec::new(rt.alloc());
    let mut args = env::args(rt)?;
    let _ = args.next();
    for word in args {
        words.push(word.into_bytes())?;
    }
    Ok(words)
}

/// Does what the words ask for, and answers the status.
fn serve(rt: HostRuntime) -> u8 {
    let mut errs = HostErr::new(rt.stderr());
    match words_of(&rt) {
        Ok(words) => {
            let mut store = HostStore::new(rt);
            let mut input = HostIn::new(rt.stdin());
            let mut out = HostOut::new(rt.stdout());
            cssv(
                rt.alloc(),
                &words,
                &mut store,
                &mut input,
                &mut out,
                &mut errs,
            )
        }
        Err(error) if error.kind() == ErrorKind::OutOfMemory => {
            let _ = errs.write(b"no memory\n");
            7
        }
        Err(_) => {
            let _ = errs.write(b"read fault\n");
            5
        }
    }
}

fn main(rt: HostRuntime) -> ExitCode {
    ExitCode::from(serve(rt))
}
