//! Printing contracts.
ghost use Rattle.std.specs.Prelude.{◌≡◌, ◌++◌, ◌∷◌, [], codes, decimal, flat_map, OnOk};
ghost use Rattle.cv_text.specs.PrintedContract as spec;

use cv_core::{Atom, Bytes, Contract, Item, LinPart, List, PtrTerm, Rel, Term};
use itoa::Buffer;
use std::alloc::AllocError;

/// Appends a number from 0 on.
pub(crate) fn push_natural(out: &mut Vec<u8>, n: u32) -> Result<(), AllocError>
    ensures { OnOk result (out.new.items ≡ out.old.items ++ decimal n) }
{
    let mut buffer = Buffer::new();
    out.extend_from_slice(buffer.format(n).as_bytes())?;
    Ok(())
}

/// Appends a relation with a blank on both sides.
pub(crate) fn push_rel(out: &mut Vec<u8>, r: Rel) -> Result<(), AllocError>
    ensures { OnOk result (out.new.items ≡ out.old.items ++ spec.rel_text r) }
{
    let text: &[u8] = match r {
        Rel::Eq => b" == ",
        Rel::Ne => b" != ",
        Rel::Lt => b" < ",
        Rel::Le => b" <= ",
        Rel::Gt => b" > ",
        Rel::Ge => b" >= ",
    };
    out.extend_from_slice(text)?;
    Ok(())
}

fn push_star(out: &mut Vec<u8>, x: &[u8]) -> Result<(), AllocError>
    ensures { OnOk result (out.new.items ≡ out.old.items ++ codes "*" ++ x.now) }
{
    out.push(b'*')?;
    out.extend_from_slice(x)?;
    Ok(())
}

/// Appends a pointer.
fn push_pointer(out: &mut Vec<u8>, p: &PtrTerm) -> Result<(), AllocError>
    ensures { OnOk result (out.new.items ≡ out.old.items ++ spec.pointer_text p.now) }
{
    match p {
        PtrTerm::Name(x) => {
            out.extend_from_slice(x.as_slice())?;
            Ok(())
        }
        PtrTerm::Star(x) => push_star(out, x.as_slice()),
        PtrTerm::Answer => {
            out.extend_from_slice(b"result")?;
            Ok(())
        }
        PtrTerm::Pre(inner) => {
            out.extend_from_slice(b"pre(")?;
            push_pointer(out, inner.get())?;
            out.push(b')')?;
            Ok(())
        }
    }
}

/// Appends a word with a pointer in brackets behind it; the word ends with the opening one.
fn push_applied(out: &mut Vec<u8>, word: &[u8], p: &PtrTerm) -> Result<(), AllocError>
    ensures { OnOk result (out.new.items ≡ out.old.items ++ word.now ++ spec.pointer_text p.now ++ codes ")") }
{
    out.extend_from_slice(word)?;
    push_pointer(out, p)?;
    out.push(b')')?;
    Ok(())
}

/// Appends a term.
fn push_term(out: &mut Vec<u8>, t: &Term) -> Result<(), AllocError>
    ensures { OnOk result (out.new.items ≡ out.old.items ++ spec.term_text t.now) }
{
    match t {
        Term::Name(x) => {
            out.extend_from_slice(x.as_slice())?;
            Ok(())
        }
        Term::Star(x) => push_star(out, x.as_slice()),
        Term::Answer => {
            out.extend_from_slice(b"result")?;
            Ok(())
        }
        Term::Pre(inner) => {
            out.extend_from_slice(b"pre(")?;
            push_term(out, inner.get())?;
            out.push(b')')?;
            Ok(())
        }
        Term::Alloc(p) => push_applied(out, b"alloc(", p),
        Term::Offset(p) => push_applied(out, b"offset(", p),
        Term::Strlen(p) => push_applied(out, b"strlen(", p),
    }
}

/// Appends a part of a sum without its sign.
fn push_factor(
    out: &mut Vec<u8>,
    number: Option<u32>,
    term: &Option<Term>,
) -> Result<(), AllocError>
    ensures { OnOk result (out.new.items ≡ out.old.items ++ spec.factor_text number term.now) }
{
    match (number, term) {
        (None, None) => Ok(()),
        (None, Some(t)) => push_term(out, t),
        (Some(k), None) => push_natural(out, k),
        (Some(k), Some(t)) => {
            push_natural(out, k)?;
            out.extend_from_slice(b" * ")?;
            push_term(out, t)
        }
    }
}

/// Appends a part that stands behind others.
fn push_later_part(out: &mut Vec<u8>, part: &LinPart) -> Result<(), AllocError>
    ensures { OnOk result (out.new.items ≡ out.old.items ++ spec.later_part_text part.now) }
{
    let sign: &[u8] = if part.negative { b" - " } else { b" + " };
    out.extend_from_slice(sign)?;
    push_factor(out, part.number, &part.term)
}

fn push_later_parts(out: &mut Vec<u8>, parts: &[LinPart]) -> Result<(), AllocError>
    ensures { OnOk result (out.new.items ≡ out.old.items ++ flat_map spec.later_part_text parts.now) }
{
    for part in parts {
        push_later_part(out, part)?;
    }
    Ok(())
}

/// Appends a sum.
fn push_sum(out: &mut Vec<u8>, parts: &[LinPart]) -> Result<(), AllocError>
    ensures { OnOk result (out.new.items ≡ out.old.items ++ spec.sum_text parts.now) }
{
    match parts {
        [] => Ok(()),
        [first, rest @ ..] => {
            let sign: &[u8] = if first.negative { b"-" } else { b"" };
            out.extend_from_slice(sign)?;
            push_factor(out, first.number, &first.term)?;
            push_later_parts(out, rest)
        }
    }
}

fn push_null_test(out: &mut Vec<u8>, p: &PtrTerm, equal: bool) -> Result<(), AllocError>
    ensures { OnOk result (out.new.items ≡ out.old.items ++ spec.pointer_text p.now ++ spec.null_text equal) }
{
    let test: &[u8] = if equal { b" == null" } else { b" != null" };
    push_pointer(out, p)?;
    out.extend_from_slice(test)?;
    Ok(())
}

/// Appends a word with two pointers behind it.
fn push_both(
    out: &mut Vec<u8>,
    word: &[u8],
    p: &PtrTerm,
    between: &[u8],
    q: &PtrTerm,
) -> Result<(), AllocError>
    ensures { OnOk result (out.new.items ≡ out.old.items ++ word.now ++ spec.pointer_text p.now ++ between.now ++ spec.pointer_text q.now ++ codes ")") }
{
    out.extend_from_slice(word)?;
    push_pointer(out, p)?;
    out.extend_from_slice(between)?;
    push_pointer(out, q)?;
    out.push(b')')?;
    Ok(())
}

fn push_comparison(
    out: &mut Vec<u8>,
    left: &[LinPart],
    r: Rel,
    right: &[LinPart],
) -> Result<(), AllocError>
    ensures { OnOk result (out.new.items ≡ out.old.items ++ spec.sum_text left.now ++ spec.rel_text r ++ spec.sum_text right.now) }
{
    push_sum(out, left)?;
    push_rel(out, r)?;
    push_sum(out, right)
}

/// Appends an atom.
fn push_atom(out: &mut Vec<u8>, a: &Atom) -> Result<(), AllocError>
    ensures { OnOk result (out.new.items ≡ out.old.items ++ spec.atom_text a.now) }
{
    match a {
        Atom::Null { ptr, equal } => push_null_test(out, ptr, *equal),
        Atom::Nullt(p) => push_applied(out, b"nullt(", p),
        Atom::Clear(p) => push_applied(out, b"clear(", p),
        Atom::Fresh(p) => push_applied(out, b"fresh(", p),
        Atom::Apart(p, q) => push_both(out, b"apart(", p, b", ", q),
        Atom::SameBase(p, q) => push_both(out, b"base(", p, b") == base(", q),
        Atom::Compare { left, rel, right } => {
            push_comparison(out, left.as_slice(), *rel, right.as_slice())
        }
    }
}

fn push_later_atoms(out: &mut Vec<u8>, atoms: &[Atom]) -> Result<(), AllocError>
    ensures { OnOk result (out.new.items ≡ out.old.items ++ flat_map (λ a. codes ", " ++ spec.atom_text a) atoms.now) }
{
    for a in atoms {
        out.extend_from_slice(b", ")?;
        push_atom(out, a)?;
    }
    Ok(())
}

/// Appends atoms with a comma between each two.
fn push_atoms(out: &mut Vec<u8>, atoms: &[Atom]) -> Result<(), AllocError>
    ensures { OnOk result (out.new.items ≡ out.old.items ++ spec.atoms_text atoms.now) }
{
    match atoms {
        [] => Ok(()),
        [first, rest @ ..] => {
            push_atom(out, first)?;
            push_later_atoms(out, rest)
        }
    }
}

/// Appends an item of a modifies clause.
fn push_item(out: &mut Vec<u8>, item: &Item) -> Result<(), AllocError>
    ensures { OnOk result (out.new.items ≡ out.old.items ++ spec.item_text item.now) }
{
    match item {
        Item::Body(p) => push_applied(out, b"body(", p),
        Item::Star(x) => push_star(out, x.as_slice()),
        Item::Name(x) => {
            out.extend_from_slice(x.as_slice())?;
            Ok(())
        }
    }
}

fn push_later_items(out: &mut Vec<u8>, items: &[Item]) -> Result<(), AllocError>
    ensures { OnOk result (out.new.items ≡ out.old.items ++ flat_map (λ i. codes ", " ++ spec.item_text i) items.now) }
{
    for item in items {
        out.extend_from_slice(b", ")?;
        push_item(out, item)?;
    }
    Ok(())
}

fn push_later_names(out: &mut Vec<u8>, names: &[Bytes]) -> Result<(), AllocError>
    ensures { OnOk result (out.new.items ≡ out.old.items ++ flat_map (λ x. codes ", " ++ x) names.now) }
{
    for name in names {
        out.extend_from_slice(b", ")?;
        out.extend_from_slice(name.as_slice())?;
    }
    Ok(())
}

fn push_later_alternatives(out: &mut Vec<u8>, alternatives: &[List<Atom>]) -> Result<(), AllocError>
    ensures { OnOk result (out.new.items ≡ out.old.items ++ flat_map (λ atoms. codes " | " ++ spec.atoms_text atoms) alternatives.now) }
{
    for atoms in alternatives {
        out.extend_from_slice(b" | ")?;
        push_atoms(out, atoms.as_slice())?;
    }
    Ok(())
}

/// Appends the line of a uses clause.
fn push_uses_line(out: &mut Vec<u8>, first: &[u8], rest: &[Bytes]) -> Result<(), AllocError>
    ensures { OnOk result (out.new.items ≡ out.old.items ++ codes "uses " ++ first.now ++ flat_map (λ x. codes ", " ++ x) rest.now ++ codes ";" ++ 10 ∷ []) }
{
    out.extend_from_slice(b"uses ")?;
    out.extend_from_slice(first)?;
    push_later_names(out, rest)?;
    out.extend_from_slice(b";\n")?;
    Ok(())
}

fn push_uses(out: &mut Vec<u8>, listed: &[Bytes]) -> Result<(), AllocError>
    ensures { OnOk result (out.new.items ≡ out.old.items ++ spec.clause_text (codes "uses ") (codes ", ") (λ x. x) listed.now) }
{
    match listed {
        [] => Ok(()),
        [first, rest @ ..] => push_uses_line(out, first.as_slice(), rest),
    }
}

/// Appends the line of a requires clause.
fn push_requires_line(out: &mut Vec<u8>, first: &Atom, rest: &[Atom]) -> Result<(), AllocError>
    ensures { OnOk result (out.new.items ≡ out.old.items ++ codes "requires " ++ spec.atom_text first.now ++ flat_map (λ a. codes ", " ++ spec.atom_text a) rest.now ++ codes ";" ++ 10 ∷ []) }
{
    out.extend_from_slice(b"requires ")?;
    push_atom(out, first)?;
    push_later_atoms(out, rest)?;
    out.extend_from_slice(b";\n")?;
    Ok(())
}

fn push_requires(out: &mut Vec<u8>, needs: &[Atom]) -> Result<(), AllocError>
    ensures { OnOk result (out.new.items ≡ out.old.items ++ spec.clause_text (codes "requires ") (codes ", ") spec.atom_text needs.now) }
{
    match needs {
        [] => Ok(()),
        [first, rest @ ..] => push_requires_line(out, first, rest),
    }
}

/// Appends the line of a modifies clause.
fn push_modifies_line(out: &mut Vec<u8>, first: &Item, rest: &[Item]) -> Result<(), AllocError>
    ensures { OnOk result (out.new.items ≡ out.old.items ++ codes "modifies " ++ spec.item_text first.now ++ flat_map (λ i. codes ", " ++ spec.item_text i) rest.now ++ codes ";" ++ 10 ∷ []) }
{
    out.extend_from_slice(b"modifies ")?;
    push_item(out, first)?;
    push_later_items(out, rest)?;
    out.extend_from_slice(b";\n")?;
    Ok(())
}

fn push_modifies(out: &mut Vec<u8>, changes: &[Item]) -> Result<(), AllocError>
    ensures { OnOk result (out.new.items ≡ out.old.items ++ spec.clause_text (codes "modifies ") (codes ", ") spec.item_text changes.now) }
{
    match changes {
        [] => Ok(()),
        [first, rest @ ..] => push_modifies_line(out, first, rest),
    }
}

/// Appends the line of an ensures clause.
fn push_ensures_line(
    out: &mut Vec<u8>,
    first: &[Atom],
    rest: &[List<Atom>],
) -> Result<(), AllocError>
    ensures { OnOk result (out.new.items ≡ out.old.items ++ codes "ensures " ++ spec.atoms_text first.now ++ flat_map (λ atoms. codes " | " ++ spec.atoms_text atoms) rest.now ++ codes ";" ++ 10 ∷ []) }
{
    out.extend_from_slice(b"ensures ")?;
    push_atoms(out, first)?;
    push_later_alternatives(out, rest)?;
    out.extend_from_slice(b";\n")?;
    Ok(())
}

fn push_ensures(out: &mut Vec<u8>, gives: &[List<Atom>]) -> Result<(), AllocError>
    ensures { OnOk result (out.new.items ≡ out.old.items ++ spec.clause_text (codes "ensures ") (codes " | ") spec.atoms_text gives.now) }
{
    match gives {
        [] => Ok(()),
        [first, rest @ ..] => push_ensures_line(out, first.as_slice(), rest),
    }
}

/// Appends the lines of a contract.
#[tactic(auto, unfolding(crate::specs::PrintedContract::contract_text))]
pub(crate) fn push_contract(out: &mut Vec<u8>, c: &Contract) -> Result<(), AllocError>
    ensures { OnOk result (out.new.items ≡ out.old.items ++ spec.contract_text c.now) }
{
    push_uses(out, c.listed.as_slice())?;
    push_requires(out, c.needs.as_slice())?;
    push_modifies(out, c.changes.as_slice())?;
    push_ensures(out, c.gives.as_slice())
}
