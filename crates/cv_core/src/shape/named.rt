//! The names in statements and contracts: which are unknown, and which globals aren't listed.
ghost use Rattle.std.specs.Prelude.{◌≡◌, ◌||◌, bytes_eq};
ghost use Rattle.std.specs.List.{list_any};
ghost use Rattle.std.specs.Option.{option_copied};
ghost use Rattle.cv_core.specs.Named as spec;

use crate::names::{BuiltIn, built_in};
use crate::program::{
    AnyOperand, Atom, Contract, Form, Item, LinPart, Operand, Proc, PtrTerm, Term,
};
use crate::shape::tables::{Scope, called, is_global, is_listed, meant_in, mentioned_in};
use cv_list::{Bytes, List};

/// What can be wrong with a name.
#[derive(Clone, Copy, Debug, PartialEq, Eq)]
pub(crate) enum NameFault {
    /// It stands for nothing in the body.
    Unknown,
    /// It stands for nothing in the contract.
    Unmentioned,
    /// It is a global that isn't listed.
    Unlisted,
}

fn fails(s: &Scope, fault: NameFault, name: &Bytes) -> bool
    ensures { result ≡ spec.fails s.entry.now.program.now s.entry.now.proc.now fault name.now }
{
    match fault {
        NameFault::Unknown => meant_in(s, name).is_none(),
        NameFault::Unmentioned => mentioned_in(s, name).is_none(),
        NameFault::Unlisted => {
            let global = is_global(s, name);
            global && !is_listed(s, name)
        }
    }
}

fn fails_in_maybe(s: &Scope, fault: NameFault, name: &Option<Bytes>) -> bool
    ensures { result ≡ spec.fails_in_maybe s.entry.now.program.now s.entry.now.proc.now fault name.now }
{
    match name {
        None => false,
        Some(x) => fails(s, fault, x),
    }
}

fn fails_in_operand(s: &Scope, fault: NameFault, e: &Operand) -> bool
    ensures { result ≡ spec.fails_in_operand s.entry.now.program.now s.entry.now.proc.now fault e.now }
{
    match e {
        Operand::Var(x) => fails(s, fault, x),
        Operand::Number(_) => false,
    }
}

fn fails_in_any(s: &Scope, fault: NameFault, e: &AnyOperand) -> bool
    ensures { result ≡ spec.fails_in_any s.entry.now.program.now s.entry.now.proc.now fault e.now }
{
    match e {
        AnyOperand::Operand(e) => fails_in_operand(s, fault, e),
        AnyOperand::Null => false,
    }
}

fn fails_in_value(s: &Scope, fault: NameFault, e: &Option<AnyOperand>) -> bool
    ensures { result ≡ spec.fails_in_value s.entry.now.program.now s.entry.now.proc.now fault e.now }
{
    match e {
        None => false,
        Some(e) => fails_in_any(s, fault, e),
    }
}

fn fails_in_args(s: &Scope, fault: NameFault, args: &[AnyOperand]) -> bool
    ensures { result ≡ list_any (spec.fails_in_any s.entry.now.program.now s.entry.now.proc.now fault) args.now }
{
    args.iter().any(|a| fails_in_any(s, fault, a))
}

fn either_fails(s: &Scope, fault: NameFault, x: &Bytes, y: &Bytes) -> bool
    ensures { result ≡ (spec.fails s.entry.now.program.now s.entry.now.proc.now fault x.now || spec.fails s.entry.now.program.now s.entry.now.proc.now fault y.now) }
{
    let first = fails(s, fault, x);
    let second = fails(s, fault, y);
    first || second
}

fn fails_with_operand(s: &Scope, fault: NameFault, x: &Bytes, e: &Operand) -> bool
    ensures { result ≡ (spec.fails s.entry.now.program.now s.entry.now.proc.now fault x.now || spec.fails_in_operand s.entry.now.program.now s.entry.now.proc.now fault e.now) }
{
    let first = fails(s, fault, x);
    let second = fails_in_operand(s, fault, e);
    first || second
}

fn fails_with_operands(s: &Scope, fault: NameFault, x: &Bytes, e: &Operand, f: &Operand) -> bool
    ensures { result ≡ (spec.fails s.entry.now.program.now s.entry.now.proc.now fault x.now || spec.fails_in_operand s.entry.now.program.now s.entry.now.proc.now fault e.now || spec.fails_in_operand s.entry.now.program.now s.entry.now.proc.now fault f.now) }
{
    let first = fails_with_operand(s, fault, x, e);
    let second = fails_in_operand(s, fault, f);
    first || second
}

fn fails_with_maybe(s: &Scope, fault: NameFault, x: &Bytes, y: &Option<Bytes>) -> bool
    ensures { result ≡ (spec.fails s.entry.now.program.now s.entry.now.proc.now fault x.now || spec.fails_in_maybe s.entry.now.program.now s.entry.now.proc.now fault y.now) }
{
    let first = fails(s, fault, x);
    let second = fails_in_maybe(s, fault, y);
    first || second
}

fn fails_with_any(s: &Scope, fault: NameFault, x: &Bytes, e: &AnyOperand) -> bool
    ensures { result ≡ (spec.fails s.entry.now.program.now s.entry.now.proc.now fault x.now || spec.fails_in_any s.entry.now.program.now s.entry.now.proc.now fault e.now) }
{
    let first = fails(s, fault, x);
    let second = fails_in_any(s, fault, e);
    first || second
}

fn fails_with_shift(s: &Scope, fault: NameFault, p: &Bytes, q: &Bytes, e: &Operand) -> bool
    ensures { result ≡ (spec.fails s.entry.now.program.now s.entry.now.proc.now fault p.now || spec.fails s.entry.now.program.now s.entry.now.proc.now fault q.now || spec.fails_in_operand s.entry.now.program.now s.entry.now.proc.now fault e.now) }
{
    let first = either_fails(s, fault, p, q);
    let second = fails_in_operand(s, fault, e);
    first || second
}

fn some_of_three_fails(s: &Scope, fault: NameFault, x: &Bytes, p: &Bytes, q: &Bytes) -> bool
    ensures { result ≡ (spec.fails s.entry.now.program.now s.entry.now.proc.now fault x.now || spec.fails s.entry.now.program.now s.entry.now.proc.now fault p.now || spec.fails s.entry.now.program.now s.entry.now.proc.now fault q.now) }
{
    let first = either_fails(s, fault, x, p);
    let second = fails(s, fault, q);
    first || second
}

fn fails_in_comparison(s: &Scope, fault: NameFault, e: &Operand, f: &AnyOperand) -> bool
    ensures { result ≡ (spec.fails_in_operand s.entry.now.program.now s.entry.now.proc.now fault e.now || spec.fails_in_any s.entry.now.program.now s.entry.now.proc.now fault f.now) }
{
    let first = fails_in_operand(s, fault, e);
    let second = fails_in_any(s, fault, f);
    first || second
}

fn fails_in_call(s: &Scope, fault: NameFault, into: &Option<Bytes>, args: &List<AnyOperand>) -> bool
    ensures { result ≡ (spec.fails_in_maybe s.entry.now.program.now s.entry.now.proc.now fault into.now || list_any (spec.fails_in_any s.entry.now.program.now s.entry.now.proc.now fault) args.now) }
{
    let first = fails_in_maybe(s, fault, into);
    let second = fails_in_args(s, fault, args.as_slice());
    first || second
}

/// Whether some variable or object that the statement names is wrong.
fn fails_in_form(s: &Scope, fault: NameFault, form: &Form) -> bool
    ensures { result ≡ spec.fails_in_form s.entry.now.program.now s.entry.now.proc.now fault form.now }
{
    match form {
        Form::Assign { x, e } => fails_with_operand(s, fault, x, e),
        Form::Sum { x, e, f } => fails_with_operands(s, fault, x, e, f),
        Form::Minus { x, e, f } => fails_with_operands(s, fault, x, e, f),
        Form::Product { x, e, .. } => fails_with_operand(s, fault, x, e),
        Form::Quotient { x, e, .. } => fails_with_operand(s, fault, x, e),
        Form::Remainder { x, e, .. } => fails_with_operand(s, fault, x, e),
        Form::CopyPtr { p, q } => fails_with_maybe(s, fault, p, q),
        Form::Address { p, object } => either_fails(s, fault, p, object),
        Form::Shift { p, q, e } => fails_with_shift(s, fault, p, q, e),
        Form::Load { x, p } => either_fails(s, fault, x, p),
        Form::Store { p, e } => fails_with_operand(s, fault, p, e),
        Form::Get { x, w } => either_fails(s, fault, x, w),
        Form::Put { w, value } => fails_with_any(s, fault, w, value),
        Form::Diff { x, p, q } => some_of_three_fails(s, fault, x, p, q),
        Form::Goto(_) => false,
        Form::If { left, right, .. } => fails_in_comparison(s, fault, left, right),
        Form::IfByte { p, .. } => fails(s, fault, p),
        Form::Call { into, args, .. } => fails_in_call(s, fault, into, args),
        Form::Return(value) => fails_in_value(s, fault, value),
    }
}

#[tactic(auto, using(crate::proofs::Fails::pointer_pre))]
fn fails_in_pointer(s: &Scope, fault: NameFault, t: &PtrTerm) -> bool
    ensures { result ≡ spec.fails_in_pointer s.entry.now.program.now s.entry.now.proc.now fault t.now }
{
    match t {
        PtrTerm::Name(x) => fails(s, fault, x),
        PtrTerm::Star(x) => fails(s, fault, x),
        PtrTerm::Answer => false,
        PtrTerm::Pre(inner) => fails_in_pointer(s, fault, inner.get()),
    }
}

#[tactic(auto, using(crate::proofs::Fails::term_pre))]
fn fails_in_term(s: &Scope, fault: NameFault, t: &Term) -> bool
    ensures { result ≡ spec.fails_in_term s.entry.now.program.now s.entry.now.proc.now fault t.now }
{
    match t {
        Term::Name(x) => fails(s, fault, x),
        Term::Star(x) => fails(s, fault, x),
        Term::Answer => false,
        Term::Pre(inner) => fails_in_term(s, fault, inner.get()),
        Term::Alloc(p) => fails_in_pointer(s, fault, p),
        Term::Offset(p) => fails_in_pointer(s, fault, p),
        Term::Strlen(p) => fails_in_pointer(s, fault, p),
    }
}

fn fails_in_maybe_term(s: &Scope, fault: NameFault, t: &Option<Term>) -> bool
    ensures { result ≡ spec.fails_in_maybe_term s.entry.now.program.now s.entry.now.proc.now fault t.now }
{
    match t {
        None => false,
        Some(t) => fails_in_term(s, fault, t),
    }
}

fn fails_in_lin(s: &Scope, fault: NameFault, parts: &List<LinPart>) -> bool
    ensures { result ≡ spec.fails_in_lin s.entry.now.program.now s.entry.now.proc.now fault parts.now }
{
    parts
        .as_slice()
        .iter()
        .any(|p| fails_in_maybe_term(s, fault, &p.term))
}

fn fails_in_pointers(s: &Scope, fault: NameFault, p: &PtrTerm, q: &PtrTerm) -> bool
    ensures { result ≡ (spec.fails_in_pointer s.entry.now.program.now s.entry.now.proc.now fault p.now || spec.fails_in_pointer s.entry.now.program.now s.entry.now.proc.now fault q.now) }
{
    let first = fails_in_pointer(s, fault, p);
    let second = fails_in_pointer(s, fault, q);
    first || second
}

fn fails_in_lins(s: &Scope, fault: NameFault, left: &List<LinPart>, right: &List<LinPart>) -> bool
    ensures { result ≡ (spec.fails_in_lin s.entry.now.program.now s.entry.now.proc.now fault left.now || spec.fails_in_lin s.entry.now.program.now s.entry.now.proc.now fault right.now) }
{
    let first = fails_in_lin(s, fault, left);
    let second = fails_in_lin(s, fault, right);
    first || second
}

fn fails_in_atom(s: &Scope, fault: NameFault, a: &Atom) -> bool
    ensures { result ≡ spec.fails_in_atom s.entry.now.program.now s.entry.now.proc.now fault a.now }
{
    match a {
        Atom::Null { ptr, .. } => fails_in_pointer(s, fault, ptr),
        Atom::Nullt(p) => fails_in_pointer(s, fault, p),
        Atom::Clear(p) => fails_in_pointer(s, fault, p),
        Atom::Fresh(p) => fails_in_pointer(s, fault, p),
        Atom::Apart(p, q) => fails_in_pointers(s, fault, p, q),
        Atom::SameBase(p, q) => fails_in_pointers(s, fault, p, q),
        Atom::Compare { left, right, .. } => fails_in_lins(s, fault, left, right),
    }
}

fn fails_in_atoms(s: &Scope, fault: NameFault, atoms: &List<Atom>) -> bool
    ensures { result ≡ list_any (spec.fails_in_atom s.entry.now.program.now s.entry.now.proc.now fault) atoms.now }
{
    atoms.as_slice().iter().any(|a| fails_in_atom(s, fault, a))
}

fn fails_in_gives(s: &Scope, fault: NameFault, gives: &List<List<Atom>>) -> bool
    ensures { result ≡ list_any (list_any (spec.fails_in_atom s.entry.now.program.now s.entry.now.proc.now fault)) gives.now }
{
    gives
        .as_slice()
        .iter()
        .any(|atoms| fails_in_atoms(s, fault, atoms))
}

fn fails_in_item(s: &Scope, fault: NameFault, i: &Item) -> bool
    ensures { result ≡ spec.fails_in_item s.entry.now.program.now s.entry.now.proc.now fault i.now }
{
    match i {
        Item::Body(p) => fails_in_pointer(s, fault, p),
        Item::Star(x) => fails(s, fault, x),
        Item::Name(x) => fails(s, fault, x),
    }
}

fn fails_in_items(s: &Scope, fault: NameFault, items: &List<Item>) -> bool
    ensures { result ≡ list_any (spec.fails_in_item s.entry.now.program.now s.entry.now.proc.now fault) items.now }
{
    items.as_slice().iter().any(|i| fails_in_item(s, fault, i))
}

fn fails_in_names(s: &Scope, fault: NameFault, names: &List<Bytes>) -> bool
    ensures { result ≡ list_any (spec.fails s.entry.now.program.now s.entry.now.proc.now fault) names.now }
{
    names.as_slice().iter().any(|x| fails(s, fault, x))
}

/// Whether some name in the contract is wrong.
fn fails_in_contract(s: &Scope, fault: NameFault, c: &Contract) -> bool
    ensures { result ≡ spec.fails_in_contract s.entry.now.program.now s.entry.now.proc.now fault c.now }
{
    let listed = fails_in_names(s, fault, &c.listed);
    let needs = fails_in_atoms(s, fault, &c.needs);
    let changes = fails_in_items(s, fault, &c.changes);
    let gives = fails_in_gives(s, fault, &c.gives);
    listed || needs || changes || gives
}

/// Whether the statement calls a procedure that isn't there.
fn calls_unknown(s: &Scope, form: &Form) -> bool
    ensures { result ≡ spec.calls_unknown s.entry.now.program.now form.now }
{
    match form {
        Form::Call { f, .. } => {
            let built = built_in(f.as_slice()).is_none();
            let other = called(s, f).is_none();
            built && other
        }
        _ => false,
    }
}

fn uses_unlisted(s: &Scope, built: Option<BuiltIn>, callee: Option<&Proc>) -> bool
    ensures { result ≡ spec.uses_unlisted s.entry.now.program.now s.entry.now.proc.now built (option_copied callee.entry) }
{
    match built {
        Some(_) => false,
        None => match callee {
            None => false,
            Some(h) => fails_in_names(s, NameFault::Unlisted, &h.contract.listed),
        },
    }
}

/// Whether the statement calls a procedure that uses a global which isn't listed.
fn calls_unlisted(s: &Scope, form: &Form) -> bool
    ensures { result ≡ spec.calls_unlisted s.entry.now.program.now s.entry.now.proc.now form.now }
{
    match form {
        Form::Call { f, .. } => uses_unlisted(s, built_in(f.as_slice()), called(s, f)),
        _ => false,
    }
}

/// Whether the statement names what isn't there.
pub(crate) fn names_unknown(s: &Scope, form: &Form) -> bool
    ensures { result ≡ spec.names_unknown s.entry.now.program.now s.entry.now.proc.now form.now }
{
    let names = fails_in_form(s, NameFault::Unknown, form);
    let calls = calls_unknown(s, form);
    names || calls
}

/// Whether the statement names a global that isn't listed, or calls what uses one.
pub(crate) fn names_unlisted(s: &Scope, form: &Form) -> bool
    ensures { result ≡ spec.names_unlisted s.entry.now.program.now s.entry.now.proc.now form.now }
{
    let names = fails_in_form(s, NameFault::Unlisted, form);
    let calls = calls_unlisted(s, form);
    names || calls
}

/// Whether the contract names what is neither a formal nor a global.
pub(crate) fn mentions_unknown(s: &Scope) -> bool
    ensures { result ≡ spec.mentions_unknown s.entry.now.program.now s.entry.now.proc.now }
{
    fails_in_contract(s, NameFault::Unmentioned, &s.proc.contract)
}

/// Whether the contract names a global that isn't listed.
pub(crate) fn mentions_unlisted(s: &Scope) -> bool
    ensures { result ≡ spec.mentions_unlisted s.entry.now.program.now s.entry.now.proc.now }
{
    fails_in_contract(s, NameFault::Unlisted, &s.proc.contract)
}
