//! Limits and faults of shape of programs that texts spell.

use crate::reading::read_program;
use cv_core::{
    LimitFault, LimitName, ShapeError, ShapeFault, ShapeRule, check_limits, check_shape,
};
use std::alloc::{AllocError, Global};
use std::test::Fail;

/// The first fault of each program: its rule, the number of its procedure, which is 4294967295
/// for none, and its line.
const SHAPES: &[(&str, Option<(ShapeRule, u32, u32)>)] = &[
    ("", Some((ShapeRule::NoMain, 4294967295, 1))),
    ("1: proc int main() { 2: return 0; }", None),
    (
        "1: proc int main() { 2: return; }",
        Some((ShapeRule::KindMismatch, 0, 2)),
    ),
    (
        "1: proc int main() { 2: goto 1; }",
        Some((ShapeRule::JumpOutOfRange, 0, 2)),
    ),
];

#[test]
fn first_faults_of_shape_are_named(rt: HostRuntime) -> Result<(), Fail> {
    let alloc = rt.alloc();
    for (text, fault) in SHAPES {
        let program = read_program(alloc, text.as_bytes())?;
        let wanted = match *fault {
            None => Ok(()),
            Some((rule, proc, line)) => Err(ShapeError::Fault(ShapeFault { rule, proc, line })),
        };
        assert_eq!(rt; check_shape(alloc, &program), wanted, "{text}");
        assert_eq!(rt; check_limits(&program), Ok(()), "{text}");
    }
    Ok(())
}

/// A program with one literal of so many bytes alone.
fn one_literal(alloc: Global, count: usize) -> Result<Vec<u8>, AllocError> {
    let mut text = Vec::from_slice(alloc, b"literal s { 104")?;
    for _ in 1..count {
        text.extend_from_slice(b", 104")?;
    }
    text.extend_from_slice(b" };")?;
    Ok(text)
}

#[test]
fn a_literal_has_at_most_4096_bytes(rt: HostRuntime) -> Result<(), Fail> {
    let past = LimitFault {
        which: LimitName::Literal,
        count: 4097,
    };
    for (count, wanted) in [(4096, Ok(())), (4097, Err(past))] {
        let text = one_literal(rt.alloc(), count)?;
        let program = read_program(rt.alloc(), &text)?;
        assert_eq!(rt; check_limits(&program), wanted, "{count}");
    }
    Ok(())
}
