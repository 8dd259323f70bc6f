//! The objects that a contract's modifies items name at entry.
ghost use Rattle.std.specs.Prelude.{◌≡◌, ◌++◌, IfOk, OnOk};
ghost use Rattle.std.specs.List.{filter_map};
ghost use Rattle.std.specs.Option.{option_and_then};
ghost use Rattle.cv_core.specs.Names.{place_of};
ghost use Rattle.cv_meaning.specs.Contract as spec;
ghost use Rattle.cv_meaning.specs.Look.{look};
ghost use Rattle.cv_meaning.specs.Seen.{scene};

use crate::cells::content;
use cv_core::{GlobalBody, Item, List, PtrTerm, global_place};
use cv_meaning::{Mem, NamedValue, Ptr, Value, View};
use std::alloc::{AllocError, Global};

fn looked(vars: &[NamedValue], x: &[u8]) -> Value
    ensures { result ≡ look vars.now x.now }
{
    match vars {
        [] => Value::Ptr(Ptr::Wild),
        [first, rest @ ..] => {
            if first.name.as_slice() == x {
                first.value
            } else {
                looked(rest, x)
            }
        }
    }
}

/// The value of the global of a number.
fn global_value(body: GlobalBody, i: usize, m: &Mem) -> Option<Value>
    ensures { result ≡ spec.global_value body i m.now }
{
    let at = Value::Ptr(Ptr::At {
        object: i as u64,
        offset: 0,
    });
    match body {
        GlobalBody::Buffer(_) => Some(at),
        GlobalBody::Pointer => content(m, at),
        GlobalBody::Int => content(m, at),
    }
}

fn named(v: &View, m: &Mem, x: &[u8]) -> Option<Value>
    ensures { result ≡ spec.named (scene v.entry.now) m.now x.now }
{
    match global_place(v.globals.as_slice(), x) {
        None => Some(looked(v.formals.as_slice(), x)),
        Some(i) => global_value(v.globals.get(i)?.body, i, m),
    }
}

fn as_pointer(v: Option<Value>) -> Option<Ptr>
    ensures { result ≡ option_and_then spec.as_pointer v }
{
    match v {
        Some(Value::Ptr(p)) => Some(p),
        Some(Value::Int(_)) => None,
        None => None,
    }
}

fn starred(v: &View, m: &Mem, x: &[u8]) -> Option<Value>
    ensures { result ≡ spec.starred (scene v.entry.now) m.now x.now }
{
    content(m, named(v, m, x)?)
}

/// The pointer that a contract names, memory being read in `m`, and under `pre` at entry.
#[tactic(auto, using(cv_meaning::proofs::Terms::pointer_value_pre))]
fn pointer_value(v: &View, m: &Mem, t: &PtrTerm) -> Option<Ptr>
    ensures { result ≡ spec.pointer_value (scene v.entry.now) m.now t.now }
{
    match t {
        PtrTerm::Name(x) => as_pointer(named(v, m, x.as_slice())),
        PtrTerm::Star(x) => as_pointer(starred(v, m, x.as_slice())),
        PtrTerm::Answer => as_pointer(v.answer),
        PtrTerm::Pre(inner) => pointer_value(v, v.at_entry, inner.get()),
    }
}

fn object_of(p: Option<Ptr>) -> Option<u64>
    ensures { result ≡ option_and_then spec.object_of p }
{
    match p {
        Some(Ptr::At { object, .. }) => Some(object),
        Some(Ptr::Null) => None,
        Some(Ptr::Wild) => None,
        None => None,
    }
}

/// The object that an item names.
fn item_object(v: &View, item: &Item) -> Option<u64>
    ensures { result ≡ spec.item_object (scene v.entry.now) item.now }
{
    match item {
        Item::Body(t) => object_of(pointer_value(v, v.now, t)),
        Item::Star(x) => object_of(as_pointer(named(v, v.now, x.as_slice()))),
        Item::Name(x) => match global_place(v.globals.as_slice(), x.as_slice()) {
            None => None,
            Some(i) => Some(i as u64),
        },
    }
}

/// Puts the objects of the items behind others.
#[tactic(auto, using(crate::proofs::Sums::more_objects, crate::proofs::Sums::no_more_objects))]
fn put_objects(v: &View, items: &[Item], objects: &mut List<u64>) -> Result<(), AllocError>
    ensures { OnOk result (objects.new ≡ objects.old ++ filter_map (spec.item_object (scene v.entry.now)) items.now) }
{
    match items {
        [] => Ok(()),
        [first, rest @ ..] => match item_object(v, first) {
            None => put_objects(v, rest, objects),
            Some(object) => {
                objects.push(object)?;
                put_objects(v, rest, objects)
            }
        },
    }
}

/// The objects that the items name; an error is want of memory.
pub(crate) fn item_objects(alloc: Global, v: &View, items: &[Item]) -> Result<List<u64>, AllocError>
    ensures { IfOk result (λ objects. objects ≡ filter_map (spec.item_object (scene v.entry.now)) items.now) }
{
    let mut objects = List::new(alloc);
    put_objects(v, items, &mut objects)?;
    Ok(objects)
}
