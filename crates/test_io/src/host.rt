//! The host's files and streams. No contract tells what the system gives or takes, so only these
//! tests refuse an adapter that does nothing.

use crate::loads::load_all;
use cv_io::{HostErr, HostIn, HostOut, HostStore, Sink, Source, Store, StoreError};
use std::test::Fail;

#[test]
fn host_files_load_what_was_saved(rt: HostRuntime) -> Result<(), Fail> {
    let alloc = rt.alloc();
    let mut store = HostStore::new(rt);
    let text = vec![in alloc; b'x'; 40000]?;
    assert_eq!(rt; store.save(b"host-store.txt", text.as_slice()), Ok(()));
    let loaded = store.load(alloc, b"host-store.txt", 40000)?;
    assert_eq!(rt; loaded.as_slice(), text.as_slice());
    Ok(())
}

#[test]
fn host_files_fail_at_limits_and_names(rt: HostRuntime) -> Result<(), Fail> {
    let alloc = rt.alloc();
    let mut store = HostStore::new(rt);
    let text = vec![in alloc; b'x'; 40000]?;
    assert_eq!(rt; store.save(b"host-store.txt", text.as_slice()), Ok(()));
    let table = [
        ("host-store.txt", 39999, Err(StoreError::TooLong)),
        ("no-such-file", 9, Err(StoreError::Failed)),
        (".", 9, Err(StoreError::Failed)),
    ];
    load_all(&rt, alloc, &mut store, &table);
    let unnamed = store.load(alloc, b"\xff", 9).map(|bytes| bytes.len());
    assert_eq!(rt; unnamed, Err(StoreError::Failed));
    for name in [b"\xff".as_slice(), b"no-such-folder/a"] {
        assert_eq!(rt; store.save(name, b""), Err(StoreError::Failed));
    }
    Ok(())
}

#[test]
fn host_streams_move_bytes(rt: HostRuntime) {
    let mut input = HostIn::new(rt.stdin());
    let mut into = [0u8; 4];
    assert!(rt; input.read(&mut into).is_ok());
    let mut out = HostOut::new(rt.stdout());
    assert_eq!(rt; out.write(b"to standard output\n"), Ok(()));
    let mut errs = HostErr::new(rt.stderr());
    assert_eq!(rt; errs.write(b"to standard error\n"), Ok(()));
}
