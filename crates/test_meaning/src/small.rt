//! The memory of the tables.

use cv_core::Bytes;
use cv_meaning::{Body, Mem, Ptr, Value};
use std::alloc::Global;
use std::test::Fail;

/// A buffer of the bytes 1, 0, 2 as object 0, and a cell as object 1.
pub(crate) fn small(alloc: Global) -> Result<Mem, Fail> {
    let mut m = Mem::new(alloc);
    let bytes = Bytes::from_slice(alloc, &[1, 0, 2])?;
    let _buffer = m.make(4, &Body::Buffer(bytes))?;
    let _cell = m.make(5, &Body::Cell(Value::Int(-7)))?;
    Ok(m)
}

// ---- pointers to the bytes of the buffer, and to one past the last

pub(crate) const FIRST: Ptr = Ptr::At {
    object: 0,
    offset: 0,
};

pub(crate) const SECOND: Ptr = Ptr::At {
    object: 0,
    offset: 1,
};

pub(crate) const THIRD: Ptr = Ptr::At {
    object: 0,
    offset: 2,
};

pub(crate) const PAST: Ptr = Ptr::At {
    object: 0,
    offset: 3,
};
