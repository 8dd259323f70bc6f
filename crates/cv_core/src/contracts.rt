//! The built-in procedures as contracts, so that a call of one is read like any other.
ghost use Rattle.std.specs.Prelude.{◌≡◌, IfOk, [], ◌∷◌};
ghost use Rattle.std.specs.Option.{option_copied};
ghost use Rattle.cv_core.specs.BuiltIns as spec;

use crate::names::{BuiltIn, built_in, called};
use crate::program::{
    Atom, Contract, Formal, LinPart, Proc, Program, Rel, ResultKind, Term, VarKind,
};
use cv_list::{Bytes, List};
use std::alloc::{AllocError, Global};

/// The contracts of the built-in procedures but `malloc`, whose answer is an object or none.
#[derive(Debug, Drop)]
pub struct BuiltIns {
    /// `int getchar()`: a byte, or -1 at the end of the input.
    pub getchar: Proc,
    /// `int putchar(int c)`: the byte written.
    pub putchar: Proc,
}

fn number(negative: bool, number: u32) -> LinPart
    ensures { result ≡ spec.number negative number }
{
    LinPart {
        negative,
        number: Some(number),
        term: None,
    }
}

fn the_result() -> LinPart
    ensures { result ≡ spec.the_result }
{
    LinPart {
        negative: false,
        number: None,
        term: Some(Term::Answer),
    }
}

fn one_part(alloc: Global, part: LinPart) -> Result<List<LinPart>, AllocError>
    ensures { IfOk result (λ parts. parts ≡ part ∷ []) }
{
    let mut parts = List::new(alloc);
    parts.push(part)?;
    Ok(parts)
}

fn result_is(alloc: Global, rel: Rel, part: LinPart) -> Result<Atom, AllocError>
    ensures { IfOk result (λ a. a ≡ spec.result_is rel part) }
{
    let left = one_part(alloc, the_result())?;
    let right = one_part(alloc, part)?;
    Ok(Atom::Compare { left, rel, right })
}

fn within(alloc: Global, least: LinPart, most: LinPart) -> Result<List<Atom>, AllocError>
    ensures { IfOk result (λ atoms. atoms ≡ spec.within least most) }
{
    let mut atoms = List::new(alloc);
    atoms.push(result_is(alloc, Rel::Ge, least)?)?;
    atoms.push(result_is(alloc, Rel::Le, most)?)?;
    Ok(atoms)
}

fn contract_of(alloc: Global, atoms: List<Atom>) -> Result<Contract, AllocError>
    ensures { IfOk result (λ c. c ≡ record { listed = []; needs = []; changes = []; gives = atoms ∷ [] }) }
{
    let mut gives = List::new(alloc);
    gives.push(atoms)?;
    Ok(Contract {
        listed: List::new(alloc),
        needs: List::new(alloc),
        changes: List::new(alloc),
        gives,
    })
}

fn gives_int(
    alloc: Global,
    name: &[u8],
    formals: List<Formal>,
    atoms: List<Atom>,
) -> Result<Proc, AllocError>
    ensures { IfOk result (λ g. g ≡ spec.gives_int name.now formals atoms) }
{
    Ok(Proc {
        line: 0,
        answer: ResultKind::Int,
        name: Bytes::from_slice(alloc, name)?,
        formals,
        contract: contract_of(alloc, atoms)?,
        body: None,
    })
}

fn getchar(alloc: Global) -> Result<Proc, AllocError>
    ensures { IfOk result (λ g. g ≡ spec.getchar) }
{
    let atoms = within(alloc, number(true, 1), number(false, 255))?;
    gives_int(alloc, b"getchar", List::new(alloc), atoms)
}

fn putchar(alloc: Global) -> Result<Proc, AllocError>
    ensures { IfOk result (λ g. g ≡ spec.putchar) }
{
    let atoms = within(alloc, number(false, 0), number(false, 255))?;
    let mut formals = List::new(alloc);
    formals.push(Formal {
        kind: VarKind::Int,
        name: Bytes::from_slice(alloc, b"c")?,
    })?;
    gives_int(alloc, b"putchar", formals, atoms)
}

/// The contracts of `getchar` and `putchar`, or no memory.
pub fn built_ins(alloc: Global) -> Result<BuiltIns, AllocError>
    ensures { IfOk result (λ b. b ≡ spec.built_ins) }
{
    Ok(BuiltIns {
        getchar: getchar(alloc)?,
        putchar: putchar(alloc)?,
    })
}

/// The procedure by whose contract a call of the name is read; None for `malloc`, and where there is none.
pub fn callee<'a>(p: &'a Program, built_ins: &'a BuiltIns, name: &[u8]) -> Option<&'a Proc>
    requires { built_ins.now ≡ spec.built_ins }
    ensures { option_copied result ≡ spec.callee p.now name.now }
{
    match built_in(name) {
        None => called(p, name),
        Some(BuiltIn::Malloc) => None,
        Some(BuiltIn::Getchar) => Some(&built_ins.getchar),
        Some(BuiltIn::Putchar) => Some(&built_ins.putchar),
    }
}
