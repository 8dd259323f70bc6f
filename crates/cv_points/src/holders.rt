//! The places of the sets of a family, and the sites of objects. Sums stop at the greatest number of a word, which
//! no set and no site can have.
ghost use Rattle.std.specs.Prelude.{◌≡◌, ◌+◌, ◌<◌, ◌≤◌, Some, length, map, slice_get, sum, take, ℕ};
ghost use Rattle.std.specs.List.{count_by, filter};
ghost use Rattle.std.specs.Option.{option_map};
ghost use Rattle.cv_core.specs.Names.{is_pointer_kind as pointer_kind, is_pointer_local as pointer_local, local_site as local_site_of, malloc_site as malloc_site_of, mallocs_in, objects_of, place_of, stmts_of as stmts_in};
ghost use Rattle.cv_core.specs.declared.program.Program.{Program as ProgramValue};
ghost use Rattle.cv_points.specs.Holders as spec;
ghost use Rattle.cv_points.specs.Walks.{AreBases, AreStarts, malloc_base, word};

use crate::walk::cell_number;
use cv_core::{
    Formal, Local, Proc, Program, ResultKind, global_place, is_pointer_kind, is_pointer_local,
    literal_place, locals_of, malloc_count, object_count, object_place, stmts_of,
};

/// How many of the formals are pointers.
fn pointer_formals(formals: &[Formal]) -> usize
    ensures { result ≡ length (filter (λ x. pointer_kind x.kind) formals.now) }
{
    formals.iter().filter(|x| is_pointer_kind(x.kind)).count()
}

/// How many of the locals are pointers.
fn pointer_locals(locals: &[Local]) -> usize
    ensures { result ≡ length (filter (λ l. pointer_local l.body) locals.now) }
{
    locals.iter().filter(|l| is_pointer_local(l.body)).count()
}

/// The number of the first of the pointer formals that has the name.
fn formal_number(formals: &[Formal], name: &[u8]) -> Option<usize>
    ensures { result ≡ place_of (λ x. x.name) name.now (filter (λ x. pointer_kind x.kind) formals.now) }
{
    formals
        .iter()
        .filter(|x| is_pointer_kind(x.kind))
        .position(|x| x.name.as_slice() == name)
}

/// The number of the first of the pointer locals that has the name.
fn local_number(locals: &[Local], name: &[u8]) -> Option<usize>
    ensures { result ≡ place_of (λ l. l.name) name.now (filter (λ l. pointer_local l.body) locals.now) }
{
    locals
        .iter()
        .filter(|l| is_pointer_local(l.body))
        .position(|l| l.name.as_slice() == name)
}

/// The number of the first procedure that has the name.
pub(crate) fn proc_number(procs: &[Proc], name: &[u8]) -> Option<usize>
    ensures { result ≡ place_of (λ f. f.name) name.now procs.now }
{
    procs.iter().position(|f| f.name.as_slice() == name)
}

/// The number of a pointer variable among those of its procedure.
fn variable_number(f: &Proc, name: &[u8]) -> Option<usize>
    ensures { result ≡ option_map word (spec.variable_number f.now name.now) }
{
    let formals = f.formals.as_slice();
    match formal_number(formals, name) {
        Some(number) => Some(number),
        None => match local_number(locals_of(f), name) {
            Some(number) => Some(pointer_formals(formals).saturating_add(number)),
            None => None,
        },
    }
}

/// The place of a pointer variable, where `first` is that of the procedure's first holder.
pub(crate) fn variable_place(f: &Proc, first: usize, name: &[u8]) -> Option<usize>
    ensures { (start : ℕ) → first ≡ word start → result ≡ option_map word (spec.place_from start (spec.variable_number f.now name.now)) }
{
    match variable_number(f, name) {
        Some(number) => Some(first.saturating_add(number)),
        None => None,
    }
}

fn is_pointer_result(kind: ResultKind) -> bool
    ensures { result ≡ spec.gives_pointer kind }
{
    matches!(kind, ResultKind::Ptr)
}

/// How many pointer variables a procedure has.
fn pointers(f: &Proc) -> usize
    ensures { result ≡ word (spec.pointer_count f.now) }
{
    pointer_formals(f.formals.as_slice()).saturating_add(pointer_locals(locals_of(f)))
}

/// The place of the pointer result, where `first` is that of the procedure's first holder.
pub(crate) fn result_place(f: &Proc, first: usize) -> Option<usize>
    ensures { (start : ℕ) → first ≡ word start → result ≡ option_map word (spec.place_from start (spec.result_number f.now)) }
{
    if is_pointer_result(f.answer) {
        Some(first.saturating_add(pointers(f)))
    } else {
        None
    }
}

/// How many holders a procedure has.
fn holder_count(f: &Proc) -> usize
    ensures { result ≡ word (spec.holder_count f.now) }
{
    match &f.body {
        None => 0,
        Some(_) => pointers(f).saturating_add(usize::from(is_pointer_result(f.answer))),
    }
}

/// The place, from 0, of the set of the first holder of the procedure of this number, or behind the last procedure that
/// of the first pointer cell; the greatest number of a word where a word can't hold it. It takes no memory.
pub fn first_holder(p: &Program, proc: usize) -> usize
    requires { proc ≤ length p.now.procs }
    ensures { result ≡ word (spec.first_holder p.now proc) }
{
    let mut total: usize = 0;
    for f in &p.procs.as_slice()[..proc] {
        total = total.saturating_add(holder_count(f));
    }
    total
}

pub(crate) fn proc_count(p: &Program) -> usize
    ensures { result ≡ length p.now.procs }
{
    p.procs.len()
}

/// The place of the set of the pointer cell at a site, None where no pointer cell has it.
pub(crate) fn cell_place(p: &Program, site: usize) -> Option<usize>
    ensures { result ≡ option_map word (spec.cell_place p.now site) }
{
    if site == 0 {
        return None;
    }
    match cell_number(p, site - 1) {
        Some(number) => Some(first_holder(p, proc_count(p)).saturating_add(number)),
        None => None,
    }
}

/// The site of the first object of the procedure of this number.
fn local_site(p: &Program, proc: usize) -> usize
    requires { proc ≤ length p.now.procs }
    ensures { result ≡ word (local_site_of p.now proc) }
{
    let mut total: usize = 0;
    for f in &p.procs.as_slice()[..proc] {
        total = total.saturating_add(object_count(f));
    }
    p.globals
        .len()
        .saturating_add(p.literals.len())
        .saturating_add(1)
        .saturating_add(total)
}

fn proc_mallocs(f: &Proc) -> usize
    ensures { result ≡ mallocs_in (stmts_in f.now.body) }
{
    malloc_count(stmts_of(f))
}

/// How many calls of malloc stand in the first procedures, as many as `proc`.
fn earlier_mallocs(p: &Program, proc: usize) -> usize
    requires { proc ≤ length p.now.procs }
    ensures { result ≡ word (sum (map (λ g. mallocs_in (stmts_in g.body)) (take proc p.now.procs))) }
{
    let mut total: usize = 0;
    for f in &p.procs.as_slice()[..proc] {
        total = total.saturating_add(proc_mallocs(f));
    }
    total
}

/// How many calls of malloc stand before a statement.
fn mallocs_before(f: &Proc, statement: usize) -> usize
    requires { statement ≤ length (stmts_in f.now.body) }
    ensures { result ≡ mallocs_in (take statement (stmts_in f.now.body)) }
{
    malloc_count(&stmts_of(f)[..statement])
}

/// The site of the call of malloc at a statement, where `base` is that of the procedure's first one.
pub(crate) fn malloc_site(f: &Proc, base: usize, statement: usize) -> usize
    requires { statement ≤ length (stmts_in f.now.body) }
    ensures { (p : ProgramValue) (proc : ℕ) → slice_get p.procs proc ≡ Some f.now → base ≡ word (malloc_base p proc) → result ≡ word (malloc_site_of p proc statement) }
{
    base.saturating_add(mallocs_before(f, statement))
}

/// The site of the first call of malloc of the procedure of this number.
fn first_malloc(p: &Program, proc: usize) -> usize
    requires { proc ≤ length p.now.procs }
    ensures { result ≡ word (malloc_base p.now proc) }
{
    local_site(p, proc_count(p)).saturating_add(earlier_mallocs(p, proc))
}

/// Where the numbers of one procedure begin.
#[derive(Clone, Copy, PartialEq, Eq, Debug)]
pub(crate) struct Bases {
    /// The place of its first holder.
    pub first: usize,
    /// The site of its first object.
    pub objects: usize,
    /// The site of its first call of malloc.
    pub mallocs: usize,
}

/// Where the numbers of the procedure begin.
pub(crate) fn bases_of(p: &Program, proc: usize) -> Bases
    requires { proc ≤ length p.now.procs }
    ensures { AreBases p.now proc result }
{
    Bases {
        first: first_holder(p, proc),
        objects: local_site(p, proc),
        mallocs: first_malloc(p, proc),
    }
}

/// How many procedures have the place of their first holder in a table; those behind are walked to.
pub(crate) const KNOWN: usize = 256;

/// The place of the first holder of the procedure of this number; 0 where there is none.
fn start_or_zero(p: &Program, proc: usize) -> usize
    ensures { proc < length p.now.procs → result ≡ word (spec.first_holder p.now proc) }
{
    if proc < proc_count(p) {
        first_holder(p, proc)
    } else {
        0
    }
}

/// The places of the first holders of the first procedures.
pub(crate) fn starts(p: &Program) -> [usize; KNOWN]
    ensures { AreStarts p.now result }
{
    let mut table = [0; KNOWN];
    for proc in 0..KNOWN {
        table[proc] = start_or_zero(p, proc);
    }
    table
}

/// The place of the first holder of the procedure of this number.
pub(crate) fn start_of(p: &Program, known: &[usize], proc: usize) -> usize
    requires known { AreStarts p.now known.now }
    requires there { proc < length p.now.procs }
    ensures { result ≡ word (spec.first_holder p.now proc) }
{
    match known.get(proc) {
        Some(start) => *start,
        None => first_holder(p, proc),
    }
}

/// The site of the object that a name stands for in a procedure: its own objects, of which the first has the site
/// `base`, then the globals and literals.
pub(crate) fn site_of(p: &Program, base: usize, f: &Proc, name: &[u8]) -> Option<usize>
    ensures { (proc : ℕ) → base ≡ word (local_site_of p.now proc) → result ≡ option_map word (spec.site_of p.now proc f.now name.now) }
{
    if let Some(number) = object_place(f, name) {
        return Some(base.saturating_add(number));
    }
    match global_place(p.globals.as_slice(), name) {
        Some(number) => Some(number.saturating_add(1)),
        None => match literal_place(p.literals.as_slice(), name) {
            Some(number) => Some(p.globals.len().saturating_add(1).saturating_add(number)),
            None => None,
        },
    }
}
