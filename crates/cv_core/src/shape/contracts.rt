//! The form of contracts.
ghost use Rattle.std.specs.Prelude.{◌≡◌, ◌&&◌, nat_le};
ghost use Rattle.std.specs.List.{count_by, list_all};
ghost use Rattle.cv_core.specs.ContractForm as spec;
ghost use Rattle.cv_core.specs.Meant.{mentioned_in as mentioned_in_of};

use crate::program::{Atom, Contract, Item, LinPart, Proc, PtrTerm, ResultKind, Term, VarKind};
use crate::shape::kinds::{means_iptr, means_pptr};
use crate::shape::names::{Meant, formal_meant};
use crate::shape::tables::{Scope, mentioned_in};
use cv_list::{Bytes, List};

/// Where a term of a contract stands.
#[derive(Clone, Copy, Debug, PartialEq, Eq)]
pub(crate) enum Side {
    Requires,
    Modifies,
    Ensures,
    /// Inside `pre`.
    Entry,
}

fn is_ensures(d: Side) -> bool
    ensures { result ≡ spec.is_ensures d }
{
    matches!(d, Side::Ensures)
}

fn allows_pre(d: Side) -> bool
    ensures { result ≡ spec.allows_pre d }
{
    matches!(d, Side::Modifies | Side::Ensures)
}

/// Whether a name stands for a pointer.
fn names_pointer(m: Option<Meant>) -> bool
    ensures { result ≡ spec.names_pointer m }
{
    match m {
        None => false,
        Some(Meant::Variable(kind)) => matches!(kind, VarKind::Ptr),
        Some(Meant::Buffer) => true,
        Some(Meant::PointerCell) => true,
        Some(Meant::IntCell) => false,
    }
}

/// Whether a name stands for a number.
fn names_number(m: Option<Meant>) -> bool
    ensures { result ≡ spec.names_number m }
{
    match m {
        None => false,
        Some(Meant::Variable(kind)) => matches!(kind, VarKind::Int | VarKind::Char),
        Some(Meant::Buffer) => false,
        Some(Meant::PointerCell) => false,
        Some(Meant::IntCell) => true,
    }
}

/// Whether a name stands for a cell that is a global.
fn names_cell(m: Option<Meant>) -> bool
    ensures { result ≡ spec.names_cell m }
{
    matches!(m, Some(Meant::PointerCell | Meant::IntCell))
}

/// Whether a name stands for a global.
fn names_global(m: Option<Meant>) -> bool
    ensures { result ≡ spec.names_global m }
{
    matches!(m, Some(Meant::Buffer | Meant::PointerCell | Meant::IntCell))
}

fn gives_pointer(answer: ResultKind) -> bool
    ensures { result ≡ spec.gives_pointer answer }
{
    matches!(answer, ResultKind::Ptr)
}

fn gives_number(answer: ResultKind) -> bool
    ensures { result ≡ spec.gives_number answer }
{
    matches!(answer, ResultKind::Int | ResultKind::Char)
}

/// Whether a pointer may stand where it does.
#[tactic(auto, using(crate::proofs::Formed::pointer_pre))]
fn pointer_formed(s: &Scope, d: Side, t: &PtrTerm) -> bool
    ensures { result ≡ spec.pointer_formed s.entry.now.program.now s.entry.now.proc.now d t.now }
{
    match t {
        PtrTerm::Name(x) => names_pointer(mentioned_in(s, x)),
        PtrTerm::Star(x) => means_pptr(mentioned_in(s, x)),
        PtrTerm::Answer => {
            let allowed = is_ensures(d);
            let pointer = gives_pointer(s.proc.answer);
            allowed && pointer
        }
        PtrTerm::Pre(inner) => {
            let allowed = allows_pre(d);
            let formed = pointer_formed(s, Side::Entry, inner.get());
            allowed && formed
        }
    }
}

/// Whether a term may stand where it does.
#[tactic(auto, using(crate::proofs::Formed::term_pre))]
fn term_formed(s: &Scope, d: Side, t: &Term) -> bool
    ensures { result ≡ spec.term_formed s.entry.now.program.now s.entry.now.proc.now d t.now }
{
    match t {
        Term::Name(x) => names_number(mentioned_in(s, x)),
        Term::Star(x) => means_iptr(mentioned_in(s, x)),
        Term::Answer => {
            let allowed = is_ensures(d);
            let number = gives_number(s.proc.answer);
            allowed && number
        }
        Term::Pre(inner) => {
            let allowed = allows_pre(d);
            let formed = term_formed(s, Side::Entry, inner.get());
            allowed && formed
        }
        Term::Alloc(p) => pointer_formed(s, d, p),
        Term::Offset(p) => pointer_formed(s, d, p),
        Term::Strlen(p) => pointer_formed(s, d, p),
    }
}

/// Whether a part of a sum may stand where it does.
fn part_formed(s: &Scope, d: Side, number: Option<u32>, term: &Option<Term>) -> bool
    ensures { result ≡ spec.part_formed s.entry.now.program.now s.entry.now.proc.now d number term.now }
{
    match term {
        None => true,
        Some(t) => {
            let formed = term_formed(s, d, t);
            match number {
                None => formed,
                Some(k) => k <= 65535 && formed,
            }
        }
    }
}

fn lin_formed(s: &Scope, d: Side, parts: &List<LinPart>) -> bool
    ensures { result ≡ spec.lin_formed s.entry.now.program.now s.entry.now.proc.now d parts.now }
{
    parts
        .as_slice()
        .iter()
        .all(|p| part_formed(s, d, p.number, &p.term))
}

/// Whether a pointer is a formal that isn't written with a star, also under `pre`.
#[tactic(auto, using(crate::proofs::Formed::plain_pre))]
fn is_plain_formal(f: &Proc, t: &PtrTerm) -> bool
    ensures { result ≡ spec.is_plain_formal f.now t.now }
{
    match t {
        PtrTerm::Name(x) => formal_meant(f.formals.as_slice(), x.as_slice()).is_some(),
        PtrTerm::Star(_) => false,
        PtrTerm::Answer => false,
        PtrTerm::Pre(inner) => is_plain_formal(f, inner.get()),
    }
}

fn fresh_formed(s: &Scope, d: Side, p: &PtrTerm) -> bool
    ensures { result ≡ spec.fresh_formed s.entry.now.program.now s.entry.now.proc.now d p.now }
{
    let allowed = is_ensures(d);
    let formed = pointer_formed(s, d, p);
    let plain = is_plain_formal(s.proc, p);
    allowed && formed && !plain
}

fn pointers_formed(s: &Scope, d: Side, p: &PtrTerm, q: &PtrTerm) -> bool
    ensures { result ≡ (spec.pointer_formed s.entry.now.program.now s.entry.now.proc.now d p.now && spec.pointer_formed s.entry.now.program.now s.entry.now.proc.now d q.now) }
{
    let first = pointer_formed(s, d, p);
    let second = pointer_formed(s, d, q);
    first && second
}

fn lins_formed(s: &Scope, d: Side, left: &List<LinPart>, right: &List<LinPart>) -> bool
    ensures { result ≡ (spec.lin_formed s.entry.now.program.now s.entry.now.proc.now d left.now && spec.lin_formed s.entry.now.program.now s.entry.now.proc.now d right.now) }
{
    let first = lin_formed(s, d, left);
    let second = lin_formed(s, d, right);
    first && second
}

/// Whether an atom may stand where it does.
fn atom_formed(s: &Scope, d: Side, a: &Atom) -> bool
    ensures { result ≡ spec.atom_formed s.entry.now.program.now s.entry.now.proc.now d a.now }
{
    match a {
        Atom::Null { ptr, .. } => pointer_formed(s, d, ptr),
        Atom::Nullt(p) => pointer_formed(s, d, p),
        Atom::Clear(p) => pointer_formed(s, d, p),
        Atom::Fresh(p) => fresh_formed(s, d, p),
        Atom::Apart(p, q) => pointers_formed(s, d, p, q),
        Atom::SameBase(p, q) => pointers_formed(s, d, p, q),
        Atom::Compare { left, right, .. } => lins_formed(s, d, left, right),
    }
}

fn atoms_formed(s: &Scope, d: Side, atoms: &List<Atom>) -> bool
    ensures { result ≡ list_all (spec.atom_formed s.entry.now.program.now s.entry.now.proc.now d) atoms.now }
{
    atoms.as_slice().iter().all(|a| atom_formed(s, d, a))
}

fn is_fresh(a: &Atom) -> bool
    ensures { result ≡ spec.is_fresh a.now }
{
    matches!(a, Atom::Fresh(_))
}

/// Whether there is at most one `fresh`.
fn has_few_fresh(atoms: &List<Atom>) -> bool
    ensures { result ≡ nat_le (count_by spec.is_fresh atoms.now) 1 }
{
    let count = atoms.as_slice().iter().filter(|a| is_fresh(a)).count();
    count <= 1
}

fn alternative_formed(s: &Scope, atoms: &List<Atom>) -> bool
    ensures { result ≡ spec.alternative_formed s.entry.now.program.now s.entry.now.proc.now atoms.now }
{
    let formed = atoms_formed(s, Side::Ensures, atoms);
    let few = has_few_fresh(atoms);
    formed && few
}

fn gives_formed(s: &Scope, gives: &List<List<Atom>>) -> bool
    ensures { result ≡ list_all (spec.alternative_formed s.entry.now.program.now s.entry.now.proc.now) gives.now }
{
    gives
        .as_slice()
        .iter()
        .all(|atoms| alternative_formed(s, atoms))
}

/// Whether an item is an object.
fn item_formed(s: &Scope, i: &Item) -> bool
    ensures { result ≡ spec.item_formed s.entry.now.program.now s.entry.now.proc.now i.now }
{
    match i {
        Item::Body(p) => pointer_formed(s, Side::Modifies, p),
        Item::Star(x) => {
            let to = mentioned_in(s, x);
            let pointer = means_pptr(to);
            let number = means_iptr(to);
            pointer || number
        }
        Item::Name(x) => names_cell(mentioned_in(s, x)),
    }
}

fn items_formed(s: &Scope, items: &List<Item>) -> bool
    ensures { result ≡ list_all (spec.item_formed s.entry.now.program.now s.entry.now.proc.now) items.now }
{
    items.as_slice().iter().all(|i| item_formed(s, i))
}

fn is_global_name(s: &Scope, x: &Bytes) -> bool
    ensures { result ≡ spec.names_global (mentioned_in_of s.entry.now.program.now s.entry.now.proc.now x.now) }
{
    names_global(mentioned_in(s, x))
}

fn listed_formed(s: &Scope, listed: &List<Bytes>) -> bool
    ensures { result ≡ list_all (λ x. spec.names_global (mentioned_in_of s.entry.now.program.now s.entry.now.proc.now x)) listed.now }
{
    listed.as_slice().iter().all(|x| is_global_name(s, x))
}

/// Whether a contract of the procedure has the form of one.
pub(crate) fn contract_formed(s: &Scope, c: &Contract) -> bool
    ensures { result ≡ spec.contract_formed s.entry.now.program.now s.entry.now.proc.now c.now }
{
    let listed = listed_formed(s, &c.listed);
    let needs = atoms_formed(s, Side::Requires, &c.needs);
    let changes = items_formed(s, &c.changes);
    let gives = gives_formed(s, &c.gives);
    listed && needs && changes && gives
}
