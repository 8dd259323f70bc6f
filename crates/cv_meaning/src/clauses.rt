//! Whether a contract's clauses hold.
ghost use Rattle.std.specs.Prelude.{◌≡◌, ◌≤◌, ◌*◌, ◌^◌, ◌+◌, ◌&&◌, ◌+ℤ◌, ◌==◌, length, map, not, All, IfSome, is_some, nat_le, slice_get, Some, None};
ghost use Rattle.std.specs.List.{list_all, list_any};
ghost use Rattle.std.specs.Int.RustNames.{unsigned_abs};
ghost use Rattle.cv_meaning.specs.Seen.{scene};
ghost use Rattle.cv_meaning.specs.Contract as spec;
ghost use Rattle.cv_meaning.specs.Memory.{first_zero as first_zero_of};
ghost use Rattle.cv_meaning.specs.Look.{look};
ghost use Rattle.cv_meaning.specs.Parts.{part_holds};
ghost use Rattle.cv_meaning.specs.Few.{HasFewParts, AreFew};

use crate::access::zero_in;
use crate::contract::{content, named, pointer_value, spot, strlen_of, term_in, value_in};
use crate::memory::{Body, NamedValue, Ptr, Value, View};
use crate::objects::Mem;
use cv_core::{Atom, Bytes, Contract, LinPart, List, PtrTerm, Rel, Term};

/// A clause of a contract.
#[derive(Clone, Copy, PartialEq, Eq, Debug)]
pub enum Part {
    Requires,
    Ensures,
}

/// The value of one part of a sum, without its sign.
fn factor_value(number: Option<u32>, term: &Option<Term>, v: &View) -> Option<i128>
    ensures value { result ≡ spec.factor_value (scene v.entry.now) number term.now }
    ensures small { IfSome result (λ z. unsigned_abs z ≤ 2 ^ 95) }
{
    match (number, term) {
        (None, None) => None,
        (Some(k), None) => Some(i128::from(k)),
        (None, Some(t)) => Some(i128::from(term_in(v, v.now, t)?)),
        (Some(k), Some(t)) => Some(i128::from(k) * i128::from(term_in(v, v.now, t)?)),
    }
}

/// The value of a sum; None exactly where a term is undefined.
fn lin_value(parts: &[LinPart], v: &View) -> Option<i128>
    requires { length parts.now ≤ 12 }
    ensures value { result ≡ spec.lin_value (scene v.entry.now) parts.now }
    ensures small { IfSome result (λ z. unsigned_abs z ≤ length parts.now * 2 ^ 95) }
{
    match parts {
        [] => Some(0),
        [first, rest @ ..] => {
            let z = factor_value(first.number, &first.term, v)?;
            let later = lin_value(rest, v)?;
            if first.negative {
                Some(later - z)
            } else {
                Some(z + later)
            }
        }
    }
}

fn compare(r: Rel, a: i128, b: i128) -> bool
    ensures { result ≡ spec.compare r a b }
{
    match r {
        Rel::Eq => a == b,
        Rel::Ne => a != b,
        Rel::Lt => a < b,
        Rel::Le => a <= b,
        Rel::Gt => a > b,
        Rel::Ge => a >= b,
    }
}

fn is_null(p: Ptr) -> bool
    ensures { result ≡ spec.is_null p }
{
    match p {
        Ptr::Null => true,
        Ptr::Wild => false,
        Ptr::At { .. } => false,
    }
}

/// Whether both point to one object.
fn meet(p: Ptr, q: Ptr) -> bool
    ensures { result ≡ spec.meet p q }
{
    match (p, q) {
        (Ptr::At { object: o, .. }, Ptr::At { object: u, .. }) => o == u,
        _ => false,
    }
}

fn points_live(m: &Mem, p: Ptr) -> bool
    ensures { result ≡ spec.points_live m.now p }
{
    match p {
        Ptr::At { object, .. } => m.live(object),
        Ptr::Null => false,
        Ptr::Wild => false,
    }
}

fn null_holds(v: &View, p: &PtrTerm, equal: bool) -> bool
    ensures { result ≡ spec.holds_of (λ x. spec.same_bool equal (spec.is_null x)) (spec.pointer_value (scene v.entry.now) v.entry.now.now.now p.now) }
{
    match pointer_value(v, v.now, p) {
        None => false,
        Some(x) => {
            let null = is_null(x);
            if equal { null } else { !null }
        }
    }
}

fn nullt_holds(v: &View, p: &PtrTerm) -> bool
    ensures { result ≡ is_some (spec.of_spot (scene v.entry.now) v.entry.now.now.now p.now spec.text_length) }
{
    strlen_of(v, v.now, p).is_some()
}

fn clear_holds(v: &View, p: &PtrTerm) -> bool
    ensures { result ≡ spec.holds_of (λ x. spec.holds_of (λ at. nat_le at.offset (first_zero_of at.bytes)) (spec.spot v.entry.now.now.now x)) (spec.pointer_value (scene v.entry.now) v.entry.now.now.now p.now) }
{
    match pointer_value(v, v.now, p) {
        None => false,
        Some(x) => match spot(v.now, x) {
            None => false,
            Some(at) => at.offset as usize <= zero_in(at.bytes),
        },
    }
}

fn fresh_holds(v: &View, p: &PtrTerm) -> bool
    ensures { result ≡ spec.holds_of (λ x. spec.holds_of (λ at. (at.offset == 0) && nat_le v.entry.now.first at.object) (spec.spot v.entry.now.now.now x)) (spec.pointer_value (scene v.entry.now) v.entry.now.now.now p.now) }
{
    match pointer_value(v, v.now, p) {
        None => false,
        Some(x) => match spot(v.now, x) {
            None => false,
            Some(at) => at.offset == 0 && v.first <= at.object,
        },
    }
}

fn apart_holds(v: &View, p: &PtrTerm, q: &PtrTerm) -> bool
    ensures { result ≡ spec.holds_of_both (λ x y. not (spec.meet x y)) (spec.pointer_value (scene v.entry.now) v.entry.now.now.now p.now) (spec.pointer_value (scene v.entry.now) v.entry.now.now.now q.now) }
{
    match pointer_value(v, v.now, p) {
        None => false,
        Some(x) => match pointer_value(v, v.now, q) {
            None => false,
            Some(y) => !meet(x, y),
        },
    }
}

fn same_base_holds(v: &View, p: &PtrTerm, q: &PtrTerm) -> bool
    ensures { result ≡ spec.holds_of_both (λ x y. spec.meet x y && spec.points_live v.entry.now.now.now x) (spec.pointer_value (scene v.entry.now) v.entry.now.now.now p.now) (spec.pointer_value (scene v.entry.now) v.entry.now.now.now q.now) }
{
    match pointer_value(v, v.now, p) {
        None => false,
        Some(x) => match pointer_value(v, v.now, q) {
            None => false,
            Some(y) => meet(x, y) && points_live(v.now, x),
        },
    }
}

fn sums_compare(v: &View, left: &[LinPart], r: Rel, right: &[LinPart]) -> bool
    requires left { length left.now ≤ 12 }
    requires right { length right.now ≤ 12 }
    ensures { result ≡ spec.holds_of_both (spec.compare r) (spec.lin_value (scene v.entry.now) left.now) (spec.lin_value (scene v.entry.now) right.now) }
{
    match lin_value(left, v) {
        None => false,
        Some(a) => match lin_value(right, v) {
            None => false,
            Some(b) => compare(r, a, b),
        },
    }
}

/// Whether an atom is true.
fn atom_holds(v: &View, a: &Atom) -> bool
    requires { HasFewParts a.now }
    ensures { result ≡ spec.atom_holds (scene v.entry.now) a.now }
{
    match a {
        Atom::Null { ptr, equal } => null_holds(v, ptr, *equal),
        Atom::Nullt(p) => nullt_holds(v, p),
        Atom::Clear(p) => clear_holds(v, p),
        Atom::Fresh(p) => fresh_holds(v, p),
        Atom::Apart(p, q) => apart_holds(v, p, q),
        Atom::SameBase(p, q) => same_base_holds(v, p, q),
        Atom::Compare { left, rel, right } => {
            sums_compare(v, left.as_slice(), *rel, right.as_slice())
        }
    }
}

/// Whether all atoms are true.
fn all_hold(v: &View, atoms: &[Atom]) -> bool
    requires { All HasFewParts atoms.now }
    ensures { result ≡ list_all (spec.atom_holds (scene v.entry.now)) atoms.now }
{
    match atoms {
        [] => true,
        [first, rest @ ..] => {
            let here = atom_holds(v, first);
            let later = all_hold(v, rest);
            here && later
        }
    }
}

/// Whether all atoms of one alternative are true.
fn any_holds(v: &View, alternatives: &[List<Atom>]) -> bool
    requires { All (All HasFewParts) alternatives.now }
    ensures { result ≡ list_any (list_all (spec.atom_holds (scene v.entry.now))) alternatives.now }
{
    match alternatives {
        [] => false,
        [first, rest @ ..] => {
            let here = all_hold(v, first.as_slice());
            let later = any_holds(v, rest);
            here || later
        }
    }
}

/// Whether the value is no pointer, or null, or points into a live object.
fn fits_value(m: &Mem, u: Value) -> bool
    ensures { result ≡ spec.fits_value m.now u }
{
    match u {
        Value::Int(_) => true,
        Value::Ptr(Ptr::Null) => true,
        Value::Ptr(Ptr::Wild) => false,
        Value::Ptr(Ptr::At { object, offset }) => fits_object(m, object, offset),
    }
}

fn fits_object(m: &Mem, object: u64, offset: u32) -> bool
    ensures { result ≡ spec.fits_body offset (spec.live_body (slice_get m.now object)) }
{
    match m.objects.get(object as usize) {
        None => false,
        Some(x) => {
            if x.live {
                match &x.body {
                    Body::Buffer(bytes) => offset as usize <= bytes.len(),
                    Body::Cell(_) => offset == 0,
                }
            } else {
                false
            }
        }
    }
}

fn content_fits(m: &Mem, u: Option<Value>) -> bool
    ensures { result ≡ spec.fits_content m.now u }
{
    match u {
        None => true,
        Some(held) => fits_value(m, held),
    }
}

/// Whether an argument, and the content of the cell to which it points, fit.
fn argument_fits(v: &View, x: &[u8]) -> bool
    ensures { result ≡ spec.fits_argument v.entry.now.now.now (look v.entry.now.formals.now x.now) }
{
    let u = value_in(v.formals.as_slice(), x);
    let held = content(v.now, u);
    let itself = fits_value(v.now, u);
    let inside = content_fits(v.now, held);
    itself && inside
}

fn formals_fit(v: &View, formals: &[NamedValue]) -> bool
    ensures { result ≡ list_all (λ x. spec.fits_argument v.entry.now.now.now (look v.entry.now.formals.now x)) (map (λ n. n.name) formals.now) }
{
    match formals {
        [] => true,
        [first, rest @ ..] => {
            let here = argument_fits(v, first.name.as_slice());
            let later = formals_fit(v, rest);
            here && later
        }
    }
}

/// Whether what the global holds fits.
#[tactic(auto, unfolding(crate::specs::Contract::global_fits))]
fn global_fits(v: &View, x: &[u8]) -> bool
    ensures { result ≡ spec.global_fits (scene v.entry.now) x.now }
{
    match named(v, v.now, x) {
        None => false,
        Some(u) => fits_value(v.now, u),
    }
}

fn globals_fit(v: &View, listed: &[Bytes]) -> bool
    ensures { result ≡ list_all (spec.global_fits (scene v.entry.now)) listed.now }
{
    match listed {
        [] => true,
        [first, rest @ ..] => {
            let here = global_fits(v, first.as_slice());
            let later = globals_fit(v, rest);
            here && later
        }
    }
}

/// Whether requires holds, the implied requirement too.
fn requires_holds(c: &Contract, v: &View) -> bool
    requires { AreFew c.now }
    ensures { result ≡ spec.requires_hold (scene v.entry.now) (map (λ n. n.name) v.entry.now.formals.now) c.now }
{
    let formals = formals_fit(v, v.formals.as_slice());
    let globals = globals_fit(v, c.listed.as_slice());
    let needs = all_hold(v, c.needs.as_slice());
    formals && globals && needs
}

/// Whether all atoms of one alternative hold, or there is no clause.
fn ensures_holds(c: &Contract, v: &View) -> bool
    requires { AreFew c.now }
    ensures { result ≡ spec.ensures_hold (scene v.entry.now) c.now }
{
    let none = c.gives.is_empty();
    let some = any_holds(v, c.gives.as_slice());
    none || some
}

/// Whether a clause of the contract holds. Conditions: the atoms are within the limit on parts; the view has
/// a value of its kind for each formal, and each object that it names is in `now`.
pub fn holds(c: &Contract, part: Part, v: &View) -> bool
    requires { AreFew c.now }
    ensures { result ≡ part_holds part c.now v.entry.now }
{
    match part {
        Part::Requires => requires_holds(c, v),
        Part::Ensures => ensures_holds(c, v),
    }
}
