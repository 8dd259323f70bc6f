ghost use Rattle.std.specs.Prelude.{◌≡◌, ◌<◌, ◌^◌, ◌&&◌, ◌-ℤ◌, pos, length, nat_le, nat_lt, if◌then◌else◌, IfSome, Some, None};
ghost use Rattle.cv_meaning.specs.Memory.{first_zero as first_zero_of};
ghost use Rattle.std.specs.Option.{option_and_then};
ghost use Rattle.cv_core.specs.Names.{place_of};
ghost use Rattle.cv_meaning.specs.Look.{look};
ghost use Rattle.cv_meaning.specs.Seen.{scene, seen_spot};
ghost use Rattle.cv_meaning.specs.Contract as spec;

use crate::access::zero_in;
use crate::memory::{Body, NamedValue, Ptr, Value, View};
use crate::objects::Mem;
use cv_core::{GlobalBody, GlobalDecl, PtrTerm, Term};

pub(crate) fn value_in(vars: &[NamedValue], x: &[u8]) -> Value
    ensures { result ≡ look vars.now x.now }
{
    for var in vars {
        if var.name.as_slice() == x {
            return var.value;
        }
    }
    Value::Ptr(Ptr::Wild)
}

fn global_place(globals: &[GlobalDecl], x: &[u8]) -> Option<usize>
    ensures { result ≡ place_of (λ g. g.name) x.now globals.now }
{
    globals.iter().position(|g| g.name.as_slice() == x)
}

/// What the live cell holds to which `w` points.
pub(crate) fn content(m: &Mem, w: Value) -> Option<Value>
    ensures { result ≡ spec.content m.now w }
{
    let Value::Ptr(Ptr::At { object, .. }) = w else {
        return None;
    };
    let x = m.objects.get(object as usize)?;
    if !x.live {
        return None;
    }
    match &x.body {
        Body::Cell(v) => Some(*v),
        Body::Buffer(_) => None,
    }
}

pub(crate) fn named(v: &View, m: &Mem, x: &[u8]) -> Option<Value>
    ensures { result ≡ spec.named (scene v.entry.now) m.now x.now }
{
    match global_place(v.globals.as_slice(), x) {
        None => Some(value_in(v.formals.as_slice(), x)),
        Some(i) => match v.globals.get(i)?.body {
            GlobalBody::Buffer(_) => Some(Value::Ptr(Ptr::At {
                object: i as u64,
                offset: 0,
            })),
            _ => content(
                m,
                Value::Ptr(Ptr::At {
                    object: i as u64,
                    offset: 0,
                }),
            ),
        },
    }
}

fn starred(v: &View, m: &Mem, x: &[u8]) -> Option<Value>
    ensures { result ≡ spec.starred (scene v.entry.now) m.now x.now }
{
    content(m, named(v, m, x)?)
}

fn as_pointer(v: Option<Value>) -> Option<Ptr>
    ensures { result ≡ option_and_then spec.as_pointer v }
{
    match v {
        Some(Value::Ptr(p)) => Some(p),
        Some(Value::Int(_)) => None,
        None => None,
    }
}

/// The pointer that a contract names, memory being read in `m`, and under `pre` at entry.
#[tactic(auto, using(crate::proofs::Terms::pointer_value_pre))]
pub(crate) fn pointer_value(v: &View, m: &Mem, t: &PtrTerm) -> Option<Ptr>
    ensures { result ≡ spec.pointer_value (scene v.entry.now) m.now t.now }
{
    match t {
        PtrTerm::Name(x) => as_pointer(named(v, m, x.as_slice())),
        PtrTerm::Star(x) => as_pointer(starred(v, m, x.as_slice())),
        PtrTerm::Answer => as_pointer(v.answer),
        PtrTerm::Pre(inner) => pointer_value(v, v.at_entry, inner.get()),
    }
}

/// A place in a live buffer.
#[derive(Drop)]
pub(crate) struct Borrowed<'a> {
    pub(crate) object: u64,
    pub(crate) offset: u32,
    pub(crate) bytes: &'a [u8],
}

/// The place in a live buffer to which `p` points.
pub(crate) fn spot(m: &Mem, p: Ptr) -> Option<Borrowed<'_>>
    ensures value { seen_spot result ≡ spec.spot m.now p }
    ensures short { IfSome result (λ at. length at.bytes.now < 2 ^ 31) }
{
    let Ptr::At { object, offset } = p else {
        return None;
    };
    let x = m.objects.get(object as usize)?;
    if !x.live {
        return None;
    }
    match &x.body {
        Body::Buffer(bytes) => Some(Borrowed {
            object,
            offset,
            bytes: bytes.as_slice(),
        }),
        Body::Cell(_) => None,
    }
}

/// How many bytes there are from the place to the end.
fn size_left(offset: u32, bytes: &[u8]) -> i64
    requires { length bytes.now < 2 ^ 31 }
    ensures { result ≡ pos (length bytes.now) -ℤ pos offset }
{
    bytes.len() as i64 - i64::from(offset)
}

/// How many bytes there are from the place to the first zero byte; None where it stands before the place,
/// or there is none.
fn text_length(offset: u32, bytes: &[u8]) -> Option<i64>
    requires { length bytes.now < 2 ^ 31 }
    ensures { result ≡ (if nat_le offset (first_zero_of bytes.now) && nat_lt (first_zero_of bytes.now) (length bytes.now) then Some (pos (first_zero_of bytes.now) -ℤ pos offset) else None) }
{
    let zero = zero_in(bytes);
    if offset as usize <= zero && zero < bytes.len() {
        Some(zero as i64 - i64::from(offset))
    } else {
        None
    }
}

fn as_number(v: Option<Value>) -> Option<i64>
    ensures { result ≡ option_and_then spec.as_number v }
{
    match v {
        Some(Value::Int(z)) => Some(i64::from(z)),
        Some(Value::Ptr(_)) => None,
        None => None,
    }
}

/// The place in a live buffer that a contract's pointer names.
fn named_spot<'a>(v: &View, m: &'a Mem, x: &PtrTerm) -> Option<Borrowed<'a>>
    ensures value { seen_spot result ≡ option_and_then (spec.spot m.now) (spec.pointer_value (scene v.entry.now) m.now x.now) }
    ensures short { IfSome result (λ at. length at.bytes.now < 2 ^ 31) }
{
    spot(m, pointer_value(v, m, x)?)
}

/// The number that a contract's term has, memory being read in `m`, and under `pre` at entry.
#[tactic(auto, using(crate::proofs::Terms::term_value_pre))]
pub(crate) fn term_in(v: &View, m: &Mem, t: &Term) -> Option<i64>
    ensures { result ≡ spec.term_value (scene v.entry.now) m.now t.now }
{
    match t {
        Term::Name(x) => as_number(named(v, m, x.as_slice())),
        Term::Star(x) => as_number(starred(v, m, x.as_slice())),
        Term::Answer => as_number(v.answer),
        Term::Pre(inner) => term_in(v, v.at_entry, inner.get()),
        Term::Alloc(x) => alloc_of(v, m, x),
        Term::Offset(x) => offset_of(v, m, x),
        Term::Strlen(x) => strlen_of(v, m, x),
    }
}

fn alloc_of(v: &View, m: &Mem, x: &PtrTerm) -> Option<i64>
    ensures { result ≡ spec.of_spot (scene v.entry.now) m.now x.now spec.size_left }
{
    let at = named_spot(v, m, x)?;
    Some(size_left(at.offset, at.bytes))
}

fn offset_of(v: &View, m: &Mem, x: &PtrTerm) -> Option<i64>
    ensures { result ≡ spec.of_spot (scene v.entry.now) m.now x.now (λ at. Some (pos at.offset)) }
{
    let at = named_spot(v, m, x)?;
    Some(i64::from(at.offset))
}

pub(crate) fn strlen_of(v: &View, m: &Mem, x: &PtrTerm) -> Option<i64>
    ensures { result ≡ spec.of_spot (scene v.entry.now) m.now x.now spec.text_length }
{
    let at = named_spot(v, m, x)?;
    text_length(at.offset, at.bytes)
}

/// The number that a contract's term has; None exactly where it is undefined. Condition: the view has a
/// value of its kind for each formal, and each object that it names is in `now`.
pub fn term_value(t: &Term, v: &View) -> Option<i64>
    ensures { result ≡ spec.term_value (scene v.entry.now) v.entry.now.now.now t.now }
{
    term_in(v, v.now, t)
}
