//! What codes alone say of an atom.
ghost use Rattle.std.specs.Prelude.{◌≡◌, Bool, Some, false};
ghost use Rattle.cv_ppts.specs.Named.{seen_path, seen_reading};
ghost use Rattle.cv_ppts.specs.Status as spec;
ghost use Rattle.cv_ppts.specs.Status.{Codes, ◌&◌};

use crate::code::Code;
use crate::path::{Path, Reading, is_before, is_term_before, path_of, reading_of};
use cv_core::{Atom, LinPart, PtrTerm, Term};

/// What codes say of an atom.
#[derive(Clone, Copy, PartialEq, Eq, Debug)]
pub enum Status {
    /// It is false.
    False,
    /// A code that it needs is unknown.
    Unknown,
    /// It isn't false by the codes, and all that it needs are known.
    Known,
}

/// The codes under which a contract is read.
pub trait ReadCodes {
    /// All of them.
    ghost codes: { Self → Codes };

    /// The code of a pointer, at entry or now; None where it is undefined.
    fn code(&self, before: bool, path: Path) -> Option<Code>
        ensures { result ≡ (codes self.now).code before (seen_path path.entry) };

    /// Whether a number is defined.
    fn number(&self, path: Path) -> Status
        ensures { result ≡ (codes self.now).number (seen_path path.entry) };

    /// Whether a code is that of a local object, at a return.
    fn dies(&self, code: Code) -> bool
        ensures { result ≡ (codes self.now).dies code };

    /// Whether a code is that of an object that was made since entry, at a return.
    fn is_made(&self, code: Code) -> bool
        ensures { result ≡ (codes self.now).is_made code };
}

/// That two things hold.
pub fn both(one: Status, other: Status) -> Status
    ensures { result ≡ (one & other) }
{
    match one {
        Status::False => Status::False,
        Status::Known => other,
        Status::Unknown => match other {
            Status::False => Status::False,
            Status::Unknown => Status::Unknown,
            Status::Known => Status::Unknown,
        },
    }
}

fn known_if(holds: bool) -> Status
    ensures { result ≡ spec.known_if holds }
{
    if holds { Status::Known } else { Status::False }
}

/// The code of a pointer.
pub fn code_of<C: ReadCodes>(codes: &C, before: bool, p: &PtrTerm) -> Option<Code>
    ensures { result ≡ spec.code_of (C.codes codes.now) before p.now }
{
    codes.code(before || is_before(p), path_of(p))
}

fn needed<C: ReadCodes>(codes: &C, code: Option<Code>) -> Status
    ensures { result ≡ spec.needed (C.codes codes.now) code }
{
    match code {
        None => Status::False,
        Some(Code::Unknown) => Status::Unknown,
        Some(Code::Null) => Status::False,
        Some(code) => known_if(!codes.dies(code)),
    }
}

/// Whether a pointer has an object, which doesn't die.
pub fn has_object<C: ReadCodes>(codes: &C, before: bool, p: &PtrTerm) -> Status
    ensures { result ≡ spec.has_object (C.codes codes.now) before p.now }
{
    needed(codes, code_of(codes, before, p))
}

fn null_status(equal: bool, code: Option<Code>) -> Status
    ensures { result ≡ spec.null_status equal code }
{
    match code {
        None => Status::False,
        Some(Code::Unknown) => Status::Unknown,
        Some(Code::Null) => known_if(equal),
        Some(_) => known_if(!equal),
    }
}

fn fresh_status<C: ReadCodes>(codes: &C, goal: bool, code: Option<Code>) -> Status
    ensures { result ≡ spec.fresh_status (C.codes codes.now) goal code }
{
    match code {
        None => Status::False,
        Some(code) => {
            if !goal {
                Status::Known
            } else if code == Code::Unknown {
                Status::Unknown
            } else {
                known_if(codes.is_made(code))
            }
        }
    }
}

fn is_one_object(one: Code, other: Code) -> bool
    ensures { result ≡ spec.is_one_object one other }
{
    match (one, other) {
        (Code::Target(m), Code::Target(n)) => m == n,
        (Code::New, Code::New) => true,
        _ => false,
    }
}

/// What two codes that are there say of "apart".
fn apart_codes(one: Code, other: Code) -> Status
    ensures { result ≡ spec.apart_status (Some one) (Some other) }
{
    if one == Code::Unknown || other == Code::Unknown {
        return Status::Unknown;
    }
    known_if(!is_one_object(one, other))
}

fn apart_status(one: Option<Code>, other: Option<Code>) -> Status
    ensures { result ≡ spec.apart_status one other }
{
    match (one, other) {
        (Some(one), Some(other)) => apart_codes(one, other),
        _ => Status::False,
    }
}

/// What two codes that are there say of "one base".
fn base_codes(one: Code, other: Code) -> Status
    ensures { result ≡ spec.base_status (Some one) (Some other) }
{
    if one == Code::Unknown || other == Code::Unknown {
        return Status::Unknown;
    }
    known_if(is_one_object(one, other))
}

fn base_status(one: Option<Code>, other: Option<Code>) -> Status
    ensures { result ≡ spec.base_status one other }
{
    match (one, other) {
        (Some(one), Some(other)) => base_codes(one, other),
        _ => Status::False,
    }
}

fn reading_status<C: ReadCodes>(codes: &C, before: bool, reading: Reading) -> Status
    ensures { result ≡ spec.reading_status (C.codes codes.now) before (seen_reading reading.entry) }
{
    match reading {
        Reading::NumberOf(path) => codes.number(path),
        Reading::AllocOf(p) => has_object(codes, before, p),
        Reading::OffsetOf(p) => has_object(codes, before, p),
        Reading::StrlenOf(p) => has_object(codes, before, p),
    }
}

fn term_status<C: ReadCodes>(codes: &C, part: &LinPart) -> Status
    ensures { result ≡ spec.term_status (C.codes codes.now) part.now.term }
{
    match &part.term {
        None => Status::Known,
        Some(term) => reading_status(codes, is_term_before(term), reading_of(term)),
    }
}

/// Whether all terms of a sum are defined.
pub fn sum_status<C: ReadCodes>(codes: &C, parts: &[LinPart]) -> Status
    ensures { result ≡ spec.sum_status (C.codes codes.now) parts.now }
{
    match parts {
        [] => Status::Known,
        [part, rest @ ..] => both(term_status(codes, part), sum_status(codes, rest)),
    }
}

fn same_base<C: ReadCodes>(codes: &C, p: &PtrTerm, q: &PtrTerm) -> Status
    ensures { result ≡ (spec.has_object (C.codes codes.now) false p.now & spec.has_object (C.codes codes.now) false q.now & spec.base_status (spec.code_of (C.codes codes.now) false p.now) (spec.code_of (C.codes codes.now) false q.now)) }
{
    let objects = both(has_object(codes, false, p), has_object(codes, false, q));
    both(
        objects,
        base_status(code_of(codes, false, p), code_of(codes, false, q)),
    )
}

/// What codes say of an atom, as a goal or as a hypothesis.
pub fn status_of<C: ReadCodes>(codes: &C, goal: bool, atom: &Atom) -> Status
    ensures { result ≡ spec.status_of (C.codes codes.now) goal atom.now }
{
    match atom {
        Atom::Null { ptr, equal } => null_status(*equal, code_of(codes, false, ptr)),
        Atom::Nullt(p) => has_object(codes, false, p),
        Atom::Clear(p) => has_object(codes, false, p),
        Atom::Fresh(p) => fresh_status(codes, goal, code_of(codes, false, p)),
        Atom::Apart(p, q) => { apart_status(code_of(codes, false, p), code_of(codes, false, q)) }
        Atom::SameBase(p, q) => same_base(codes, p, q),
        Atom::Compare { left, right, .. } => {
            let first = sum_status(codes, left.as_slice());
            let second = sum_status(codes, right.as_slice());
            both(first, second)
        }
    }
}
