//! A memory: the list of its objects, in the order of making.
ghost use Rattle.std.specs.Prelude.{◌≡◌, ◌++◌, ◌∷◌, ◌<◌, [], length, IfOk, OnOk, OnErr, IsSome, true};
ghost use Rattle.cv_meaning.specs.Memory as spec;
ghost use Rattle.cv_meaning.specs.declared.memory.Body.TheVariants.{Cell};
ghost use Rattle.cv_meaning.specs.declared.memory.Object.{Object};

use crate::memory::{Body, Object, Value};
use cv_core::Bytes;
use std::alloc::{AllocError, Global};
use std::marker::Model;

/// The objects in the order of making; an object's number is its place, from 0. A buffer has at most
/// 2147483647 bytes.
#[derive(Drop)]
pub struct Mem {
    pub(crate) objects: Vec<Object>,
    alloc: Global,
}

impl Model for Mem {
    ghost use Rattle.std.specs.Prelude.{List, All};
    ghost use Rattle.cv_meaning.specs.declared.memory.Object.{Object};
    ghost use Rattle.cv_meaning.specs.Memory.{IsShort};

    ghost Value = { List Object };

    ghost view = { λ m. m.objects.items };

    ghost invariant = { λ m. All (λ x. IsShort x.body) m.objects.items };
}

/// A copy of a body; an error is want of memory.
fn body_copy(alloc: Global, body: &Body) -> Result<Body, AllocError>
    ensures { IfOk result (λ copy. copy ≡ body.now) }
{
    match body {
        Body::Buffer(bytes) => Ok(Body::Buffer(Bytes::from_slice(alloc, bytes.as_slice())?)),
        Body::Cell(v) => Ok(Body::Cell(*v)),
    }
}

fn object_copy(alloc: Global, x: &Object) -> Result<Object, AllocError>
    ensures { IfOk result (λ copy. copy ≡ x.now) }
{
    Ok(Object {
        site: x.site,
        live: x.live,
        body: body_copy(alloc, &x.body)?,
    })
}

impl Mem {
    /// The empty memory; it takes no memory and keeps the allocator.
    pub fn new(alloc: Global) -> Mem
        ensures { result ≡ [] }
    {
        Mem {
            objects: Vec::new(alloc),
            alloc,
        }
    }

    /// Adds one live object at the end and answers its number. After an error, which is want of memory,
    /// the memory is unchanged.
    pub fn make(&mut self, site: u32, body: &Body) -> Result<u64, AllocError>
        requires { spec.IsShort body.now }
        ensures number { IfOk result (λ object. object ≡ length self.old) }
        ensures ok { OnOk result (self.new ≡ self.old ++ record { site = site; live = true; body = body.now } ∷ []) }
        ensures err { OnErr result (self.new ≡ self.old) }
    {
        let number = self.objects.len() as u64;
        let body = body_copy(self.alloc, body)?;
        self.objects.push(Object {
            site,
            live: true,
            body,
        })?;
        Ok(number)
    }

    /// An equal memory; an error is want of memory.
    pub fn copy(&self) -> Result<Mem, AllocError>
        ensures { IfOk result (λ m. m ≡ self.now) }
    {
        let mut objects = Vec::new(self.alloc);
        for x in &self.objects {
            objects.push(object_copy(self.alloc, x)?)?;
        }
        Ok(Mem {
            objects,
            alloc: self.alloc,
        })
    }

    /// What the cell holds; None exactly where the object is no cell.
    pub fn get(&self, object: u64) -> Option<Value>
        ensures { result ≡ spec.cell_at self.now object }
    {
        match &self.objects.get(object as usize)?.body {
            Body::Cell(v) => Some(*v),
            Body::Buffer(_) => None,
        }
    }

    /// Puts a value into a cell, and changes nothing else.
    pub fn put(&mut self, object: u64, v: Value)
        requires { IsSome (spec.cell_at self.old object) }
        ensures { self.new ≡ spec.with_body object (Cell v) self.old }
    {
        if let Some(x) = self.objects.get_mut(object as usize) {
            x.body = Body::Cell(v);
        }
    }

    /// Whether it is a live object of the memory.
    pub fn live(&self, object: u64) -> bool
        ensures { result ≡ spec.live self.now object }
    {
        match self.objects.get(object as usize) {
            None => false,
            Some(x) => x.live,
        }
    }

    /// The site of an object; None exactly where the memory has no such object.
    pub fn site(&self, object: u64) -> Option<u32>
        ensures { result ≡ spec.site_at self.now object }
    {
        Some(self.objects.get(object as usize)?.site)
    }

    /// Ends the life of an object, and changes nothing else.
    pub fn kill(&mut self, object: u64)
        requires { object < length self.old }
        ensures { self.new ≡ spec.kill object self.old }
    {
        self.objects[object as usize].live = false;
    }
}
