//! Look-ups of names by hash.
ghost use Rattle.std.specs.Prelude.{◌≡◌, OnOk, IfOk, Some, bytes_eq, if◌then◌else◌};
ghost use Rattle.std.specs.Option.{is_some, option_copied};
ghost use Rattle.cv_core.specs.Meant as spec;
ghost use Rattle.cv_core.specs.Named.{is_listed as listed_in};
ghost use Rattle.cv_core.specs.Names.{Name, locals_of as locals_in};
ghost use Rattle.cv_core.specs.Tables.{at_name};

use crate::names::locals_of;
use crate::program::{Local, Proc, Program};
use crate::shape::names::{Meant, formal_meant, meant_by_global, meant_by_local};
use cv_list::Bytes;
use indexmap::IndexMap;
use std::alloc::{AllocError, Global};

/// The names of a program.
#[derive(Drop)]
pub(crate) struct Names<'a> {
    pub program: &'a Program,
    globals: IndexMap<&'a [u8], Meant>,
    literals: IndexMap<&'a [u8], Meant>,
    procs: IndexMap<&'a [u8], &'a Proc>,
    ghost globals_are: { (x : Name) → at_name globals x ≡ spec.global_meant program.now x },
    ghost literals_are: { (x : Name) → at_name literals x ≡ spec.literal_meant program.now x },
    ghost procs_are: { (x : Name) → option_copied (at_name procs x) ≡ spec.called program.now x },
}

/// A procedure of a program with its names.
#[derive(Drop)]
pub(crate) struct Scope<'a> {
    pub program: &'a Program,
    pub names: &'a Names<'a>,
    pub proc: &'a Proc,
    locals: IndexMap<&'a [u8], Meant>,
    listed: IndexMap<&'a [u8], bool>,
    ghost names_are: { names.now.program.now ≡ program.now },
    ghost locals_are: { (x : Name) → at_name locals x ≡ spec.local_meant (locals_in proc.now.body) x },
    ghost listed_are: { (x : Name) → is_some (at_name listed x) ≡ listed_in proc.now x },
}

/// What the map has at a name.
fn look<V: Copy>(map: &IndexMap<&[u8], V>, name: &[u8]) -> Option<V>
    ensures { result ≡ at_name map.now name.now }
{
    map.get(name).copied()
}

/// Puts a value at a name, in the place of what the map had there.
fn put<'a, V: Copy>(
    map: &mut IndexMap<&'a [u8], V>,
    name: &'a [u8],
    value: V,
) -> Result<(), AllocError>
    ensures { OnOk result ((x : Name) → at_name map.new x ≡ (if bytes_eq name.now x then Some value else at_name map.old x)) }
{
    map.insert(name, value)?;
    Ok(())
}

/// What the names of globals stand for.
fn globals_by_name<'a>(
    alloc: Global,
    p: &'a Program,
) -> Result<IndexMap<&'a [u8], Meant>, AllocError>
    ensures { IfOk result (λ m. (x : Name) → at_name m x ≡ spec.global_meant p.now x) }
{
    let globals = p.globals.as_slice();
    let mut map = IndexMap::with_capacity(alloc, globals.len())?;
    let mut at = globals.len();
    while at > 0 {
        at -= 1;
        let global = &globals[at];
        put(
            &mut map,
            global.name.as_slice(),
            meant_by_global(global.body),
        )?;
    }
    Ok(map)
}

/// The names of literals.
fn literals_by_name<'a>(
    alloc: Global,
    p: &'a Program,
) -> Result<IndexMap<&'a [u8], Meant>, AllocError>
    ensures { IfOk result (λ m. (x : Name) → at_name m x ≡ spec.literal_meant p.now x) }
{
    let literals = p.literals.as_slice();
    let mut map = IndexMap::with_capacity(alloc, literals.len())?;
    let mut at = literals.len();
    while at > 0 {
        at -= 1;
        let literal = &literals[at];
        put(&mut map, literal.name.as_slice(), Meant::Buffer)?;
    }
    Ok(map)
}

/// What the names of locals stand for.
fn locals_by_name<'a>(
    alloc: Global,
    locals: &'a [Local],
) -> Result<IndexMap<&'a [u8], Meant>, AllocError>
    ensures { IfOk result (λ m. (x : Name) → at_name m x ≡ spec.local_meant locals.now x) }
{
    let mut map = IndexMap::with_capacity(alloc, locals.len())?;
    let mut at = locals.len();
    while at > 0 {
        at -= 1;
        let local = &locals[at];
        put(&mut map, local.name.as_slice(), meant_by_local(local.body))?;
    }
    Ok(map)
}

/// The names of the globals that a procedure lists.
fn listed_by_name<'a>(alloc: Global, f: &'a Proc) -> Result<IndexMap<&'a [u8], bool>, AllocError>
    ensures { IfOk result (λ m. (x : Name) → is_some (at_name m x) ≡ listed_in f.now x) }
{
    let listed = f.contract.listed.as_slice();
    let mut map = IndexMap::with_capacity(alloc, listed.len())?;
    let mut at = listed.len();
    while at > 0 {
        at -= 1;
        let name = &listed[at];
        put(&mut map, name.as_slice(), true)?;
    }
    Ok(map)
}

/// The procedures by their names.
fn procs_by_name<'a>(
    alloc: Global,
    p: &'a Program,
) -> Result<IndexMap<&'a [u8], &'a Proc>, AllocError>
    ensures { IfOk result (λ m. (x : Name) → option_copied (at_name m x) ≡ spec.called p.now x) }
{
    let procs = p.procs.as_slice();
    let mut map = IndexMap::with_capacity(alloc, procs.len())?;
    let mut at = procs.len();
    while at > 0 {
        at -= 1;
        let proc = &procs[at];
        put(&mut map, proc.name.as_slice(), proc)?;
    }
    Ok(map)
}

/// Puts the names of a program into maps.
pub(crate) fn names_of<'a>(alloc: Global, p: &'a Program) -> Result<Names<'a>, AllocError>
    ensures { IfOk result (λ n. n.program.now ≡ p.now) }
{
    let globals = globals_by_name(alloc, p)?;
    let literals = literals_by_name(alloc, p)?;
    let procs = procs_by_name(alloc, p)?;
    Ok(Names {
        program: p,
        globals,
        literals,
        procs,
    })
}

/// Puts the names of a procedure into maps.
pub(crate) fn scope_of<'a>(
    alloc: Global,
    names: &'a Names<'a>,
    proc: &'a Proc,
) -> Result<Scope<'a>, AllocError>
    ensures program { IfOk result (λ s. s.program.now ≡ names.now.program.now) }
    ensures proc { IfOk result (λ s. s.proc.now ≡ proc.now) }
    ensures names { IfOk result (λ s. s.names.now.program.now ≡ names.now.program.now) }
{
    let locals = locals_by_name(alloc, locals_of(proc))?;
    let listed = listed_by_name(alloc, proc)?;
    Ok(Scope {
        program: names.program,
        names,
        proc,
        locals,
        listed,
    })
}

/// What the name of a global stands for.
fn global_meant(n: &Names, name: &[u8]) -> Option<Meant>
    ensures { result ≡ spec.global_meant n.entry.now.program.now name.now }
{
    look(&n.globals, name)
}

/// What the name of a literal stands for.
pub(crate) fn literal_meant(n: &Names, name: &[u8]) -> Option<Meant>
    ensures { result ≡ spec.literal_meant n.entry.now.program.now name.now }
{
    look(&n.literals, name)
}

/// What the name of a global or literal stands for.
pub(crate) fn outer_meant(n: &Names, name: &[u8]) -> Option<Meant>
    ensures { result ≡ spec.outer_meant n.entry.now.program.now name.now }
{
    match global_meant(n, name) {
        Some(meant) => Some(meant),
        None => literal_meant(n, name),
    }
}

/// The first procedure of a name.
fn proc_named<'a>(n: &Names<'a>, name: &Bytes) -> Option<&'a Proc>
    ensures { option_copied result ≡ spec.called n.entry.now.program.now name.now }
{
    look(&n.procs, name.as_slice())
}

fn local_meant(s: &Scope, name: &[u8]) -> Option<Meant>
    ensures { result ≡ spec.local_meant (locals_in s.entry.now.proc.now.body) name.now }
{
    look(&s.locals, name)
}

/// What a name of the procedure itself stands for.
fn own_meant(s: &Scope, name: &[u8]) -> Option<Meant>
    ensures { result ≡ spec.own_meant s.entry.now.proc.now name.now }
{
    match formal_meant(s.proc.formals.as_slice(), name) {
        Some(meant) => Some(meant),
        None => local_meant(s, name),
    }
}

fn outer_in(s: &Scope, name: &[u8]) -> Option<Meant>
    ensures { result ≡ spec.outer_meant s.entry.now.program.now name.now }
{
    outer_meant(s.names, name)
}

fn global_meant_in(s: &Scope, name: &[u8]) -> Option<Meant>
    ensures { result ≡ spec.global_meant s.entry.now.program.now name.now }
{
    global_meant(s.names, name)
}

/// What a name stands for in the body of the procedure.
pub(crate) fn meant_in(s: &Scope, name: &Bytes) -> Option<Meant>
    ensures { result ≡ spec.meant_in s.entry.now.program.now s.entry.now.proc.now name.now }
{
    match own_meant(s, name.as_slice()) {
        Some(meant) => Some(meant),
        None => outer_in(s, name.as_slice()),
    }
}

/// What a name stands for in the contract of the procedure.
pub(crate) fn mentioned_in(s: &Scope, name: &Bytes) -> Option<Meant>
    ensures { result ≡ spec.mentioned_in s.entry.now.program.now s.entry.now.proc.now name.now }
{
    match formal_meant(s.proc.formals.as_slice(), name.as_slice()) {
        Some(meant) => Some(meant),
        None => global_meant_in(s, name.as_slice()),
    }
}

/// Whether a name is that of a global.
pub(crate) fn is_global(s: &Scope, name: &Bytes) -> bool
    ensures { result ≡ spec.is_global s.entry.now.program.now name.now }
{
    global_meant_in(s, name.as_slice()).is_some()
}

/// Whether the procedure lists a name.
pub(crate) fn is_listed(s: &Scope, name: &Bytes) -> bool
    ensures { result ≡ listed_in s.entry.now.proc.now name.now }
{
    look(&s.listed, name.as_slice()).is_some()
}

/// The first procedure of a name.
pub(crate) fn called<'a>(s: &Scope<'a>, name: &Bytes) -> Option<&'a Proc>
    ensures { option_copied result ≡ spec.called s.entry.now.program.now name.now }
{
    proc_named(s.names, name)
}
