//! The host's standard streams and files as devices. They tell no content: no contract can say what the system gives
//! or takes. Each counts its faults.
ghost use Rattle.std.specs.Prelude.{◌≡◌, ◌≤◌, ◌<◌, List, ℕ, None, length, IfOk, OnOk, IfSome};
ghost use Rattle.std.specs.Io.KnownBytes.{Appends};
ghost use Rattle.cv_io.specs.Counts.{capped, capped-counted};

use crate::devices::{Failed, Sink, SinkError, Source, Store, StoreError};
use std::alloc::Global;
use std::fs::File;
use std::io::{Read, Stderr, Stdin, Stdout, Write};

/// Bytes that are read from a file at once.
const PIECE: usize = 16384;

/// Standard input.
#[derive(Drop)]
pub struct HostIn {
    stdin: Stdin,
    faults: u64,
}

/// Standard output.
#[derive(Drop)]
pub struct HostOut {
    stdout: Stdout,
    faults: u64,
}

/// Standard error.
#[derive(Drop)]
pub struct HostErr {
    stderr: Stderr,
    faults: u64,
}

/// The files of the host. One count is for the loads and one for the saves of all names together.
#[derive(Drop)]
pub struct HostStore {
    files: HostRuntime,
    reading_faults: u64,
    writing_faults: u64,
}

/// Writes all of the bytes, piece by piece. A write that takes nothing of a piece is a failure.
fn write_whole<W: Write>(to: &mut W, bytes: &[u8]) -> Result<(), Failed>
    ensures { OnOk result (Appends (W.contents to.old) (W.contents to.new) bytes.now) }
{
    let mut rest = bytes;
    while !rest.is_empty() {
        match to.write(rest) {
            Err(_) | Ok(0) => return Err(Failed),
            Ok(count) => rest = &rest[count..],
        }
    }
    Ok(())
}

/// Reads a reader to its end, but at most one byte more than `limit`: `TooLong` where there is one.
fn read_whole<R: Read>(alloc: Global, from: &mut R, limit: u64) -> Result<Vec<u8>, StoreError>
    ensures whole { IfOk result (λ bytes. IfSome (R.remaining from.old) (λ left. bytes.items ≡ left)) }
    ensures within { IfOk result (λ bytes. length bytes.items ≤ limit) }
    ensures too_long { result ≡ Err StoreError.TooLong → IfSome (R.remaining from.old) (λ left. limit < length left) }
{
    let mut whole = Vec::new(alloc);
    let mut piece = [0u8; PIECE];
    while whole.len() as u64 <= limit {
        let room = limit - whole.len() as u64;
        let most = if room < PIECE as u64 {
            room as usize + 1
        } else {
            PIECE
        };
        let part = &mut piece[..most];
        match from.read(part) {
            Err(_) => return Err(StoreError::Failed),
            Ok(0) => return Ok(whole),
            Ok(count) => whole.extend_from_slice(&part[..count])?,
        }
    }
    Err(StoreError::TooLong)
}

impl HostIn {
    /// Standard input, with no fault counted.
    pub fn new(stdin: Stdin) -> HostIn
        ensures { ⟦<HostIn as Source>⟧.faults result ≡ 0 }
    {
        HostIn { stdin, faults: 0 }
    }
}

impl Source for HostIn {
    ghost content = { λ _. None };

    ghost faults = { λ host. capped host.faults };

    ghost counted = { λ host. capped-counted host.faults };

    fn read(&mut self, into: &mut [u8]) -> Result<usize, Failed> {
        match self.stdin.read(into) {
            Ok(count) => Ok(count),
            Err(_) => {
                self.faults = self.faults.saturating_add(1);
                Err(Failed)
            }
        }
    }
}

impl HostOut {
    /// Standard output, with no fault counted.
    pub fn new(stdout: Stdout) -> HostOut
        ensures { ⟦<HostOut as Sink>⟧.faults result ≡ 0 }
    {
        HostOut { stdout, faults: 0 }
    }
}

impl Sink for HostOut {
    ghost content = { λ _. None };

    ghost faults = { λ host. capped host.faults };

    ghost counted = { λ host. capped-counted host.faults };

    fn write(&mut self, bytes: &[u8]) -> Result<(), SinkError> {
        if write_whole(&mut self.stdout, bytes).is_err() {
            self.faults = self.faults.saturating_add(1);
            return Err(SinkError::Failed);
        }
        Ok(())
    }
}

impl HostErr {
    /// Standard error, with no fault counted.
    pub fn new(stderr: Stderr) -> HostErr
        ensures { ⟦<HostErr as Sink>⟧.faults result ≡ 0 }
    {
        HostErr { stderr, faults: 0 }
    }
}

impl Sink for HostErr {
    ghost content = { λ _. None };

    ghost faults = { λ host. capped host.faults };

    ghost counted = { λ host. capped-counted host.faults };

    fn write(&mut self, bytes: &[u8]) -> Result<(), SinkError> {
        if write_whole(&mut self.stderr, bytes).is_err() {
            self.faults = self.faults.saturating_add(1);
            return Err(SinkError::Failed);
        }
        Ok(())
    }
}

/// Opens the file of a name and reads it whole. A name that isn't UTF-8 is a failure.
fn load_file(
    files: &HostRuntime,
    alloc: Global,
    name: &[u8],
    limit: u64,
) -> Result<Vec<u8>, StoreError>
    ensures { IfOk result (λ bytes. length bytes.items ≤ limit) }
{
    let Ok(path) = str::from_utf8(name) else {
        return Err(StoreError::Failed);
    };
    match File::open(files, path) {
        Ok(mut file) => read_whole(alloc, &mut file, limit),
        Err(_) => Err(StoreError::Failed),
    }
}

/// Makes or empties the file of a name and writes the bytes into it. A name that isn't UTF-8 is a failure.
fn save_file(files: &HostRuntime, name: &[u8], bytes: &[u8]) -> Result<(), Failed> {
    let Ok(path) = str::from_utf8(name) else {
        return Err(Failed);
    };
    match File::create(files, path) {
        Ok(mut file) => write_whole(&mut file, bytes),
        Err(_) => Err(Failed),
    }
}

impl HostStore {
    /// The files of the host, with no fault counted.
    pub fn new(files: HostRuntime) -> HostStore
        ensures reading { (name : List ℕ) → ⟦<HostStore as Store>⟧.reading_faults result name ≡ 0 }
        ensures writing { (name : List ℕ) → ⟦<HostStore as Store>⟧.writing_faults result name ≡ 0 }
    {
        HostStore {
            files,
            reading_faults: 0,
            writing_faults: 0,
        }
    }
}

impl Store for HostStore {
    ghost content = { λ _. None };

    ghost reading_faults = { λ host _. capped host.reading_faults };

    ghost writing_faults = { λ host _. capped host.writing_faults };

    ghost loads_counted = { λ host _. capped-counted host.reading_faults };

    ghost saves_counted = { λ host _. capped-counted host.writing_faults };

    fn load(&mut self, alloc: Global, name: &[u8], limit: u64) -> Result<Vec<u8>, StoreError> {
        let loaded = load_file(&self.files, alloc, name, limit);
        if let Err(StoreError::Failed) = loaded {
            self.reading_faults = self.reading_faults.saturating_add(1);
        }
        loaded
    }

    fn save(&mut self, name: &[u8], bytes: &[u8]) -> Result<(), StoreError> {
        if save_file(&self.files, name, bytes).is_err() {
            self.writing_faults = self.writing_faults.saturating_add(1);
            return Err(StoreError::Failed);
        }
        Ok(())
    }
}
