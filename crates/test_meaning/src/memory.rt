//! What the calls of a small memory answer.

use crate::small::{FIRST, PAST, SECOND, THIRD, small};
use cv_core::{ErrKind, List};
use cv_meaning::{Mem, Permit, Ptr, Value, first_zero, load, shift, store};
use std::alloc::Global;
use std::test::Fail;

const NO_OBJECT: Ptr = Ptr::At {
    object: 9,
    offset: 0,
};

/// A pointer, and the byte to which it points.
const LOADS: [(Ptr, Result<u8, ErrKind>); 7] = [
    (FIRST, Ok(1)),
    (SECOND, Ok(0)),
    (THIRD, Err(ErrKind::Terminator)),
    (PAST, Err(ErrKind::Bounds)),
    (Ptr::Null, Err(ErrKind::Null)),
    (Ptr::Wild, Err(ErrKind::Wild)),
    (NO_OBJECT, Err(ErrKind::Dead)),
];

#[test]
fn loads_stop_behind_the_first_zero(rt: HostRuntime) -> Result<(), Fail> {
    let m = small(rt.alloc())?.copy()?;
    for (p, expected) in &LOADS {
        assert_eq!(rt; load(&m, *p), *expected, "{p:?}");
    }
    Ok(())
}

/// By how much the pointer to the second byte is moved, and where it points then.
const SHIFTS: [(i64, Result<Ptr, ErrKind>); 4] = [
    (2, Ok(PAST)),
    (3, Err(ErrKind::Bounds)),
    (-2, Err(ErrKind::Bounds)),
    (i64::MAX, Err(ErrKind::Bounds)),
];

#[test]
fn pointers_move_to_one_past_the_end(rt: HostRuntime) -> Result<(), Fail> {
    let m = small(rt.alloc())?;
    for (by, expected) in &SHIFTS {
        assert_eq!(rt; shift(&m, SECOND, *by), *expected, "{by}");
    }
    Ok(())
}

/// An object, its site, its first zero and what it holds.
const OBJECTS: [(u64, Option<u32>, Option<u32>, Option<Value>); 3] = [
    (0, Some(4), Some(1), None),
    (1, Some(5), None, Some(Value::Int(-7))),
    (2, None, None, None),
];

#[test]
fn objects_are_buffers_and_cells(rt: HostRuntime) -> Result<(), Fail> {
    let m = small(rt.alloc())?;
    for (object, site, zero, held) in &OBJECTS {
        assert_eq!(rt; m.site(*object), *site);
        assert_eq!(rt; first_zero(&m, *object), *zero);
        assert_eq!(rt; m.get(*object), *held);
        assert_eq!(rt; m.live(*object), site.is_some());
    }
    Ok(())
}

#[test]
fn cells_hold_what_is_put(rt: HostRuntime) -> Result<(), Fail> {
    let mut m = small(rt.alloc())?;
    if m.get(1).is_some() {
        m.put(1, Value::Int(8));
    }
    assert_eq!(rt; m.get(1), Some(Value::Int(8)));
    Ok(())
}

/// A byte that is stored, the first object made since entry and the number of literals; then the answer, the
/// first zero of the buffer and what the third byte is loaded as.
struct Store {
    to: Ptr,
    byte: u8,
    first: u64,
    literals: u64,
    answer: Result<(), ErrKind>,
    zero: u32,
    third: Result<u8, ErrKind>,
}

const STORES: [Store; 4] = [
    Store {
        to: FIRST,
        byte: 0,
        first: 0,
        literals: 1,
        answer: Err(ErrKind::Literal),
        zero: 1,
        third: Err(ErrKind::Terminator),
    },
    Store {
        to: FIRST,
        byte: 0,
        first: 1,
        literals: 0,
        answer: Err(ErrKind::Modifies),
        zero: 1,
        third: Err(ErrKind::Terminator),
    },
    Store {
        to: PAST,
        byte: 0,
        first: 0,
        literals: 0,
        answer: Err(ErrKind::Bounds),
        zero: 1,
        third: Err(ErrKind::Terminator),
    },
    // in place of the only zero
    Store {
        to: SECOND,
        byte: 9,
        first: 0,
        literals: 0,
        answer: Ok(()),
        zero: 3,
        third: Ok(2),
    },
];

fn stored(alloc: Global, m: &mut Mem, row: &Store) -> Result<(), ErrKind> {
    let permit = Permit {
        first: row.first,
        allowed: List::new(alloc),
        literals: (0, row.literals),
    };
    store(m, row.to, row.byte, &permit)
}

#[test]
fn stores_change_what_they_may(rt: HostRuntime) -> Result<(), Fail> {
    for row in &STORES {
        let mut m = small(rt.alloc())?;
        assert_eq!(rt; stored(rt.alloc(), &mut m, row), row.answer);
        assert_eq!(rt; first_zero(&m, 0), Some(row.zero));
        assert_eq!(rt; load(&m, THIRD), row.third);
    }
    Ok(())
}
