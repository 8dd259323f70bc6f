//! Devices in memory, those that never fail and those of which some calls fail.

use crate::loads::load_all;
use cv_io::{
    MemSink, MemSource, MemStore, Sink, SinkError, Source, SteadySink, SteadySource, SteadyStore,
    Store, StoreError,
};
use std::alloc::{AllocError, Global};
use std::process::Abort;
use std::test::Fail;

const NEVER: u64 = 99;

fn bytes_of(alloc: Global, text: &str) -> Result<Vec<u8>, AllocError> {
    Vec::from_slice(alloc, text.as_bytes())
}

/// The files `a` of three bytes and `b` of none.
fn files(alloc: Global) -> Result<Vec<(Vec<u8>, Vec<u8>)>, AllocError> {
    let mut all = Vec::new(alloc);
    all.push((bytes_of(alloc, "a")?, bytes_of(alloc, "one")?))?;
    all.push((bytes_of(alloc, "b")?, bytes_of(alloc, "")?))?;
    Ok(all)
}

/// Reads three bytes at a time, and says how many came each time, 9 for a failure.
fn counts_of<S: Source>(source: &mut S) -> [usize; 4] {
    let mut counts = [0; 4];
    for count in counts.iter_mut() {
        let mut into = [0u8; 3];
        *count = source.read(&mut into).unwrap_or(9);
    }
    counts
}

#[test]
fn sources_give_their_bytes_between_failing_calls(rt: HostRuntime) -> Result<(), Fail> {
    let alloc = rt.alloc();
    let mut steady = SteadySource::new(bytes_of(alloc, "hello")?);
    assert_eq!(rt; counts_of(&mut steady), [3, 2, 0, 0]);
    assert!(rt; steady.bytes().is_empty());
    let mut source = MemSource::new(bytes_of(alloc, "hello")?, vec![in alloc; 1, NEVER]?);
    assert_eq!(rt; counts_of(&mut source), [3, 9, 2, 0]);
    Ok(())
}

/// Writes each row's bytes in turn and compares the answer.
fn write_all<S: Sink>(rt: &impl Abort, sink: &mut S, table: &[(&str, Result<(), SinkError>)]) {
    for (bytes, want) in table {
        assert_eq!(rt; sink.write(bytes.as_bytes()), *want, "{bytes}");
    }
}

#[test]
fn sinks_keep_what_is_written_between_failing_calls(rt: HostRuntime) -> Result<(), Fail> {
    let alloc = rt.alloc();
    let mut steady = SteadySink::new(alloc);
    write_all(&rt, &mut steady, &[("ab", Ok(())), ("c", Ok(()))]);
    assert_eq!(rt; steady.bytes(), b"abc".as_slice());
    let mut sink = MemSink::new(alloc, vec![in alloc; 1]?);
    let table = [("ab", Ok(())), ("c", Err(SinkError::Failed)), ("d", Ok(()))];
    write_all(&rt, &mut sink, &table);
    assert_eq!(rt; sink.bytes(), b"abd".as_slice());
    Ok(())
}

/// Saves bytes under `a` twice, and says what each save answered.
fn saves<S: Store>(store: &mut S) -> [Result<(), StoreError>; 2] {
    [store.save(b"a", b"new"), store.save(b"a", b"newer")]
}

#[test]
fn a_steady_store_loads_and_saves(rt: HostRuntime) -> Result<(), Fail> {
    let alloc = rt.alloc();
    let mut store = SteadyStore::new(alloc, files(alloc)?);
    let table = [
        ("a", 3, Ok(3)),
        ("a", 2, Err(StoreError::TooLong)),
        ("b", 0, Ok(0)),
        ("c", 9, Err(StoreError::Failed)),
    ];
    load_all(&rt, alloc, &mut store, &table);
    assert_eq!(rt; saves(&mut store), [Ok(()), Ok(())]);
    assert_eq!(rt; store.bytes(b"a"), Some(b"newer".as_slice()));
    assert_eq!(rt; store.bytes(b"d"), None);
    Ok(())
}

#[test]
fn a_store_fails_where_it_is_to(rt: HostRuntime) -> Result<(), Fail> {
    let alloc = rt.alloc();
    let mut store = MemStore::new(alloc, files(alloc)?, vec![in alloc; 0, 3]?);
    let table = [
        ("a", 3, Err(StoreError::Failed)),
        ("a", 3, Ok(3)),
        ("c", 3, Err(StoreError::Failed)),
    ];
    load_all(&rt, alloc, &mut store, &table);
    assert_eq!(rt; saves(&mut store), [Err(StoreError::Failed), Ok(())]);
    assert_eq!(rt; store.bytes(b"a"), Some(b"newer".as_slice()));
    Ok(())
}
