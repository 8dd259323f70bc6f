//! The places of the sets of codes, and the targets of statements.
ghost use Rattle.std.specs.Prelude.{◌≡◌, ◌+◌, ◌<◌, ◌≤◌, ◌^◌, IfOk, bytes_eq, codes as text, count_by, filter, find, is_some, length, map, option_copied, slice_index_or, suc, take};
ghost use Rattle.std.specs.List.{list_any};
ghost use Rattle.cv_core.specs.Meant.{built_in as built_in_of, called as called_of};
ghost use Rattle.cv_core.specs.Names.{is_object as object, is_pointer_cell as pointer_cell, is_pointer_local as pointer_local, locals_of as locals_in, objects_of, place_of, stmts_of as stmts_in};
ghost use Rattle.cv_points.specs.Holders.{pointer_count as pointer_count_of, variable_number as variable_number_of};
ghost use Rattle.cv_ppts.specs.Keys.{setting};
ghost use Rattle.cv_ppts.specs.Plain.{content_in as content_in_of};
ghost use Rattle.cv_ppts.specs.Setting.{AreContents, allocates as allocates_of, block_content as block_content_of, block_count as block_count_of, callee as callee_in, cell_number as cell_number_of, content_place as content_place_of, gives_fresh as gives_fresh_of, is_fresh as is_fresh_of, new_target as new_target_of, object_cells, object_content as object_content_of, set_count as set_count_of, target_of_name as target_of_name_in};

use crate::allowed::{formal_count, formal_number};
use crate::code::Code;
use crate::named::{global_number, literal_named};
use crate::scope::{block_count, cell_blocks, global_code, is_cell_block, literal_code};
use crate::setting::Scope;
use cv_core::{
    Atom, Bytes, Form, List, Local, LocalBody, Proc, Program, Stmt, built_in, called,
    is_malloc_name, is_object, is_pointer_cell, is_pointer_local, locals_of, object_count,
    object_place, stmts_of,
};
use std::alloc::{AllocError, Global};

/// How many of the locals are pointers.
pub(crate) fn local_count(locals: &[Local]) -> usize
    ensures { result ≡ length (filter (λ l. pointer_local l.body) locals.now) }
{
    locals.iter().filter(|l| is_pointer_local(l.body)).count()
}

/// The number of the first of the pointer locals that has the name.
fn local_number(locals: &[Local], name: &[u8]) -> Option<usize>
    ensures { result ≡ place_of (λ l. l.name) name.now (filter (λ l. pointer_local l.body) locals.now) }
{
    locals
        .iter()
        .filter(|l| is_pointer_local(l.body))
        .position(|l| l.name.as_slice() == name)
}

/// How many pointer cells stand among the locals.
pub(crate) fn cell_count(locals: &[Local]) -> usize
    ensures { result ≡ count_by (λ c. c) (map (λ l. pointer_cell l.body) (filter (λ l. object l.body) locals.now)) }
{
    let mut count: usize = 0;
    let mut rest = locals;
    while let [local, tail @ ..] = rest {
        if is_pointer_cell(local.body) {
            count += 1;
        }
        rest = tail;
    }
    count
}

/// How many pointer variables a procedure has.
pub(crate) fn pointer_count(f: &Proc) -> u128
    ensures value { result ≡ pointer_count_of f.now }
    ensures small { result < 2 ^ 66 }
{
    formal_count(f.formals.as_slice()) as u128 + local_count(locals_of(f)) as u128
}

/// The place of the set of the first pointer variable of a name.
pub(crate) fn variable_number(f: &Proc, name: &Bytes) -> Option<u128>
    ensures { result ≡ variable_number_of f.now name.now }
{
    match formal_number(f.formals.as_slice(), name.as_slice()) {
        Some(number) => Some(number as u128),
        None => match local_number(locals_of(f), name.as_slice()) {
            Some(number) => { Some(formal_count(f.formals.as_slice()) as u128 + number as u128) }
            None => None,
        },
    }
}

/// The number of the pointer cell at a place of the objects among the pointer cells.
fn cell_number(locals: &[Local], place: u32) -> Option<usize>
    ensures { result ≡ cell_number_of (map (λ l. pointer_cell l.body) (filter (λ l. object l.body) locals.now)) place }
{
    let mut skip = place;
    let mut cells: usize = 0;
    let mut rest = locals;
    while let [local, tail @ ..] = rest {
        if is_object(local.body) {
            let is_cell = is_pointer_cell(local.body);
            if skip == 0 {
                return if is_cell { Some(cells) } else { None };
            }
            skip -= 1;
            cells += usize::from(is_cell);
        }
        rest = tail;
    }
    None
}

fn block_content(s: &Scope, block: u32) -> Option<u128>
    ensures { result ≡ block_content_of (setting s.entry.now) block }
{
    if block == 0 || !is_cell_block(s, block) {
        return None;
    }
    Some(pointer_count(s.f) + u128::from(cell_blocks(s, block - 1)))
}

fn object_content(s: &Scope, place: u32) -> Option<u128>
    ensures { result ≡ object_content_of (setting s.entry.now) place }
{
    match cell_number(locals_of(s.f), place) {
        None => None,
        Some(number) => Some(
            pointer_count(s.f) + u128::from(cell_blocks(s, block_count(s))) + number as u128,
        ),
    }
}

/// The place of the set of what a target holds, by a walk over the names that stand for blocks.
fn searched_content(s: &Scope, target: u32) -> Option<u128>
    ensures { result ≡ content_place_of (setting s.entry.now) target }
{
    let blocks = block_count(s);
    if target <= blocks {
        block_content(s, target)
    } else {
        object_content(s, target - blocks - 1)
    }
}

/// The place of the set of what a target holds, which is known.
fn known_content(s: &Scope, target: usize) -> Option<u128>
    requires { target < length s.now.contents.now }
    ensures { result ≡ content_place_of (setting s.entry.now) target }
{
    s.contents[target]
}

/// The place of the set of what a target holds; None where it is no pointer cell.
pub(crate) fn content_place(s: &Scope, target: u32) -> Option<u128>
    ensures { result ≡ content_place_of (setting s.entry.now) target }
{
    if (target as usize) < s.contents.len() {
        known_content(s, target as usize)
    } else {
        searched_content(s, target)
    }
}

/// Of how many targets the places are listed: of all in a procedure within the limits.
fn listed_targets(s: &Scope) -> u32 {
    new_target(s, stmts_of(s.f).len()).min(4096)
}

/// The places of the sets of what the first targets hold.
pub(crate) fn all_contents(alloc: Global, s: &Scope) -> Result<Vec<Option<u128>>, AllocError>
    ensures { IfOk result (λ v. AreContents (setting s.entry.now) v.items) }
{
    let mut contents = Vec::new(alloc);
    for target in 0..listed_targets(s) {
        contents.push(searched_content(s, target))?;
    }
    Ok(contents)
}

/// The place of the set of what the target of a code holds.
pub(crate) fn content_in(s: &Scope, code: Code) -> Option<u128>
    ensures { result ≡ content_in_of (setting s.entry.now) code }
{
    match code {
        Code::Target(target) => content_place(s, target),
        Code::Unknown => None,
        Code::Null => None,
        Code::New => None,
    }
}

/// How many sets there are.
pub(crate) fn set_count(s: &Scope) -> u128
    ensures { result ≡ set_count_of (setting s.entry.now) }
{
    pointer_count(s.f)
        + u128::from(cell_blocks(s, block_count(s)))
        + cell_count(locals_of(s.f)) as u128
}

/// The target of a local object.
fn local_target(s: &Scope, place: usize) -> u32
    requires { place < length (objects_of s.now.f.now) }
    ensures { result ≡ block_count_of (setting s.entry.now) + suc place }
{
    block_count(s) + place as u32 + 1
}

/// The target whose address a statement takes by name.
pub(crate) fn target_of_name(s: &Scope, name: &Bytes) -> u32
    ensures { result ≡ target_of_name_in (setting s.entry.now) name.now }
{
    match object_place(s.f, name.as_slice()) {
        Some(place) => local_target(s, place),
        None => match global_number(s.p, name) {
            Some(number) => global_code(s, Some(number)),
            None => literal_code(s, literal_named(s.p, name)),
        },
    }
}

// ---- statements that allocate

/// The procedure of the program that a name calls; none for a built-in name.
pub(crate) fn callee<'a>(p: &'a Program, name: &Bytes) -> Option<&'a Proc>
    ensures { option_copied result ≡ callee_in p.now name.now }
{
    if built_in(name.as_slice()).is_some() {
        None
    } else {
        called(p, name.as_slice())
    }
}

fn is_fresh(atom: &Atom) -> bool
    ensures { result ≡ is_fresh_of atom.now }
{
    matches!(atom, Atom::Fresh(_))
}

/// Whether an alternative has `fresh`.
pub(crate) fn has_fresh(atoms: &[Atom]) -> bool
    ensures { result ≡ list_any is_fresh_of atoms.now }
{
    atoms.iter().any(|a| is_fresh(a))
}

fn some_fresh(alternatives: &[List<Atom>]) -> bool
    ensures { result ≡ list_any (list_any is_fresh_of) alternatives.now }
{
    alternatives.iter().any(|a| has_fresh(a.as_slice()))
}

fn gives_fresh(g: Option<&Proc>) -> bool
    ensures { result ≡ gives_fresh_of (option_copied g.entry) }
{
    match g {
        None => false,
        Some(g) => some_fresh(g.contract.gives.as_slice()),
    }
}

/// Whether a statement allocates.
pub(crate) fn allocates(p: &Program, form: &Form) -> bool
    ensures { result ≡ allocates_of p.now form.now }
{
    match form {
        Form::Call { f, .. } => is_malloc_name(f.as_slice()) || gives_fresh(callee(p, f)),
        _ => false,
    }
}

/// How many of some statements allocate.
fn allocating(p: &Program, stmts: &[Stmt]) -> usize
    ensures value { result ≡ count_by (λ x. allocates_of p.now x.form) stmts.now }
    ensures few { result ≤ length stmts.now }
{
    let mut count: usize = 0;
    let mut rest = stmts;
    while let [statement, tail @ ..] = rest {
        if allocates(p, &statement.form) {
            count += 1;
        }
        rest = tail;
    }
    count
}

/// The target of what the statement of a number allocates.
pub(crate) fn new_target(s: &Scope, statement: usize) -> u32
    requires { statement ≤ length (stmts_in s.now.f.now.body) }
    ensures { result ≡ new_target_of (setting s.entry.now) statement }
{
    block_count(s)
        + object_count(s.f) as u32
        + allocating(s.p, &stmts_of(s.f)[..statement]) as u32
        + 1
}
