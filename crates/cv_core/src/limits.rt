//! The limits on the parts of a program.
ghost use Rattle.std.specs.Prelude.{◌≡◌, ◌+◌, length, None, OnOk, IfErr};
ghost use Rattle.std.specs.List.{list_any};
ghost use Rattle.cv_core.specs.Limits as spec;
ghost use Rattle.cv_core.specs.Names.{stmts_of as stmts_in};

use crate::faults::{LimitFault, LimitName};
use crate::names::{locals_of, stmts_of};
use crate::program::{Atom, Contract, Literal, Proc, Program};
use cv_list::List;

/// The limits of a program, in the order in which they are tested.
const TESTED: [LimitName; 10] = [
    LimitName::Procedures,
    LimitName::Globals,
    LimitName::Literals,
    LimitName::Literal,
    LimitName::Formals,
    LimitName::Locals,
    LimitName::Statements,
    LimitName::Atoms,
    LimitName::Parts,
    LimitName::Alternatives,
];

/// The greatest count that a limit of a program allows.
fn most(which: LimitName) -> usize
    ensures { result ≡ spec.most which }
{
    match which {
        LimitName::Procedures => 256,
        LimitName::Globals => 256,
        LimitName::Literals => 1024,
        LimitName::Literal => 4096,
        LimitName::Formals => 8,
        LimitName::Locals => 200,
        LimitName::Statements => 1000,
        LimitName::Atoms => 16,
        LimitName::Parts => 12,
        LimitName::Alternatives => 8,
        LimitName::File => 0,
        LimitName::Certificate => 0,
        LimitName::Input => 0,
        LimitName::Nesting => 0,
        LimitName::Cases => 0,
        LimitName::Variables => 0,
        LimitName::Transitions => 0,
        LimitName::Templates => 0,
    }
}

fn passes(which: LimitName, count: usize) -> bool
    ensures { result ≡ spec.passes which count }
{
    let limit = most(which);
    limit < count
}

/// Whether two counts are together past a limit.
fn passes_together(which: LimitName, first: usize, second: usize) -> bool
    ensures { result ≡ spec.passes which (first + second) }
{
    passes(which, first.saturating_add(second))
}

/// Whether some literal is too long.
fn has_long_literal(literals: &[Literal]) -> bool
    ensures { result ≡ list_any (λ l. spec.passes LimitName.Literal (length l.bytes)) literals.now }
{
    literals
        .iter()
        .any(|l| passes(LimitName::Literal, l.bytes.len()))
}

/// Whether the formals and locals of a procedure are together too many.
fn has_many_locals(f: &Proc) -> bool
    ensures { result ≡ spec.passes LimitName.Locals (spec.variable_count f.now) }
{
    passes_together(LimitName::Locals, f.formals.len(), locals_of(f).len())
}

/// Whether an atom has too many parts.
fn has_many_parts(a: &Atom) -> bool
    ensures { result ≡ spec.passes LimitName.Parts (spec.part_count a.now) }
{
    match a {
        Atom::Compare { left, right, .. } => {
            passes_together(LimitName::Parts, left.len(), right.len())
        }
        _ => false,
    }
}

/// Whether some atom has too many parts.
fn some_many_parts(atoms: &List<Atom>) -> bool
    ensures { result ≡ list_any (λ a. spec.passes LimitName.Parts (spec.part_count a)) atoms.now }
{
    atoms.as_slice().iter().any(|a| has_many_parts(a))
}

/// Whether some alternative has too many atoms.
fn some_alternative_is_long(alternatives: &List<List<Atom>>) -> bool
    ensures { result ≡ list_any (λ atoms. spec.passes LimitName.Atoms (length atoms)) alternatives.now }
{
    alternatives
        .as_slice()
        .iter()
        .any(|atoms| passes(LimitName::Atoms, atoms.len()))
}

/// Whether some alternative has an atom with too many parts.
fn some_alternative_has_many_parts(alternatives: &List<List<Atom>>) -> bool
    ensures { result ≡ list_any (list_any (λ a. spec.passes LimitName.Parts (spec.part_count a))) alternatives.now }
{
    alternatives
        .as_slice()
        .iter()
        .any(|atoms| some_many_parts(atoms))
}

/// Whether requires or some alternative of ensures has too many atoms.
fn contract_has_many_atoms(c: &Contract) -> bool
    ensures { result ≡ spec.has_many_atoms c.now }
{
    let needs = passes(LimitName::Atoms, c.needs.len());
    let gives = some_alternative_is_long(&c.gives);
    needs || gives
}

/// Whether some atom of requires or ensures has too many parts.
fn contract_has_many_parts(c: &Contract) -> bool
    ensures { result ≡ spec.has_many_parts c.now }
{
    let needs = some_many_parts(&c.needs);
    let gives = some_alternative_has_many_parts(&c.gives);
    needs || gives
}

fn some_proc_has_many_formals(procs: &[Proc]) -> bool
    ensures { result ≡ list_any (λ f. spec.passes LimitName.Formals (length f.formals)) procs.now }
{
    procs
        .iter()
        .any(|f| passes(LimitName::Formals, f.formals.len()))
}

fn some_proc_has_many_locals(procs: &[Proc]) -> bool
    ensures { result ≡ list_any (λ f. spec.passes LimitName.Locals (spec.variable_count f)) procs.now }
{
    procs.iter().any(|f| has_many_locals(f))
}

fn some_proc_has_many_statements(procs: &[Proc]) -> bool
    ensures { result ≡ list_any (λ f. spec.passes LimitName.Statements (length (stmts_in f.body))) procs.now }
{
    procs
        .iter()
        .any(|f| passes(LimitName::Statements, stmts_of(f).len()))
}

fn some_proc_has_many_atoms(procs: &[Proc]) -> bool
    ensures { result ≡ list_any (λ f. spec.has_many_atoms f.contract) procs.now }
{
    procs.iter().any(|f| contract_has_many_atoms(&f.contract))
}

fn some_proc_has_many_parts(procs: &[Proc]) -> bool
    ensures { result ≡ list_any (λ f. spec.has_many_parts f.contract) procs.now }
{
    procs.iter().any(|f| contract_has_many_parts(&f.contract))
}

fn some_proc_has_many_alternatives(procs: &[Proc]) -> bool
    ensures { result ≡ list_any (λ f. spec.passes LimitName.Alternatives (length f.contract.gives)) procs.now }
{
    procs.iter().any(|f| passes(LimitName::Alternatives, f.contract.gives.len()))
}

/// Whether a program passes a limit.
fn is_passed(p: &Program, which: LimitName) -> bool
    ensures { result ≡ spec.is_passed p.now which }
{
    let procs = p.procs.as_slice();
    match which {
        LimitName::Procedures => passes(which, p.procs.len()),
        LimitName::Globals => passes(which, p.globals.len()),
        LimitName::Literals => passes(which, p.literals.len()),
        LimitName::Literal => has_long_literal(p.literals.as_slice()),
        LimitName::Formals => some_proc_has_many_formals(procs),
        LimitName::Locals => some_proc_has_many_locals(procs),
        LimitName::Statements => some_proc_has_many_statements(procs),
        LimitName::Atoms => some_proc_has_many_atoms(procs),
        LimitName::Parts => some_proc_has_many_parts(procs),
        LimitName::Alternatives => some_proc_has_many_alternatives(procs),
        _ => false,
    }
}

/// The first limit, in the order of the tests, that a program passes.
fn first_limit(p: &Program) -> Option<LimitName>
    ensures { result ≡ spec.first_limit p.now }
{
    TESTED.iter().copied().find(|which| is_passed(p, *which))
}

/// Tests the limits on a program, in their order, from the number of its procedures to that of the alternatives
/// of an ensures. The error is the first limit that is passed, with the limit plus one as its count. It takes
/// no memory.
pub fn check_limits(p: &Program) -> Result<(), LimitFault>
    ensures within { OnOk result (spec.first_limit p.now ≡ None) }
    ensures passed { IfErr result (λ e. spec.IsFirstLimit p.now e) }
{
    match first_limit(p) {
        None => Ok(()),
        Some(which) => Err(LimitFault {
            which,
            count: most(which) as u64 + 1,
        }),
    }
}
