//! How the rows of a store are compared.

use cv_io::{Store, StoreError};
use std::alloc::Global;
use std::process::Abort;

/// A name, the limit of its load, and how many bytes come or why none do.
pub type Load<'a> = (&'a str, u64, Result<usize, StoreError>);

/// Loads each row's name in turn and compares the answer.
pub fn load_all<S: Store>(rt: &impl Abort, alloc: Global, store: &mut S, table: &[Load<'_>]) {
    for (name, limit, want) in table {
        let got = store
            .load(alloc, name.as_bytes(), *limit)
            .map(|bytes| bytes.len());
        assert_eq!(rt; got, *want, "{name} with limit {limit}");
    }
}
