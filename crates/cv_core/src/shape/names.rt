//! What the names of a program stand for.
ghost use Rattle.std.specs.Prelude.{◌≡◌, bytes_eq};
ghost use Rattle.std.specs.List.{find};
ghost use Rattle.cv_core.specs.Meant as spec;

use crate::program::{Formal, GlobalBody, LocalBody, VarKind};

/// What a name stands for.
#[derive(Clone, Copy, Debug, PartialEq, Eq)]
pub(crate) enum Meant {
    Variable(VarKind),
    Buffer,
    PointerCell,
    IntCell,
}

pub(crate) fn meant_by_local(body: LocalBody) -> Meant
    ensures { result ≡ spec.meant_by_local body }
{
    match body {
        LocalBody::Var(kind) => Meant::Variable(kind),
        LocalBody::Buffer(_) => Meant::Buffer,
        LocalBody::PointerCell => Meant::PointerCell,
        LocalBody::IntCell => Meant::IntCell,
    }
}

pub(crate) fn meant_by_global(body: GlobalBody) -> Meant
    ensures { result ≡ spec.meant_by_global body }
{
    match body {
        GlobalBody::Buffer(_) => Meant::Buffer,
        GlobalBody::Pointer => Meant::PointerCell,
        GlobalBody::Int => Meant::IntCell,
    }
}

/// What the name of a formal stands for.
pub(crate) fn formal_meant(formals: &[Formal], name: &[u8]) -> Option<Meant>
    ensures { result ≡ spec.formal_meant formals.now name.now }
{
    match formals.iter().find(|f| f.name.as_slice() == name) {
        None => None,
        Some(f) => Some(Meant::Variable(f.kind)),
    }
}
