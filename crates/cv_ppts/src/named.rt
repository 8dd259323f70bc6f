//! The entities of a procedure.
ghost use Rattle.std.specs.Prelude.{◌≡◌, ◌++◌, ◌∷◌, [], IfOk, OnOk, flat_map, map, slice_get, suc};
ghost use Rattle.std.specs.Option.{option_and_then, option_copied};
ghost use Rattle.cv_core.specs.Names.{is_pointer_kind as pointer_kind, place_of, stmts_of as stmts_in};
ghost use Rattle.cv_points.specs.Closed.{set_at as set_of};
ghost use Rattle.cv_ppts.specs.Entities.{as_list, class_at as class_at_of, class_of_global as class_of_global_body, class_of_kind as class_of_variable, distinct as distinct_in, formal_entities as formal_entities_of, formal_entity as formal_entity_of, global_entity as global_entity_of, global_number as global_number_of, literal_entity as literal_entity_of, literal_in as literal_number_in, listed_of as listed_in, literals_of as literals_in};

use crate::blocks::is_member;
use crate::entities::{Class, Entity};
use cv_core::{
    Bytes, Form, Formal, GlobalBody, GlobalDecl, List, Proc, Program, Stmt, VarKind, global_place,
    is_pointer_kind, literal_place, stmts_of,
};
use std::alloc::{AllocError, Global};

/// The class of the objects to which a variable points.
pub(crate) fn class_of_kind(kind: VarKind) -> Class
    ensures { result ≡ class_of_variable kind }
{
    match kind {
        VarKind::Pptr => Class::PointerCell,
        VarKind::Iptr => Class::IntCell,
        VarKind::Int => Class::Buffer,
        VarKind::Char => Class::Buffer,
        VarKind::Ptr => Class::Buffer,
    }
}

fn class_of_global(body: GlobalBody) -> Class
    ensures { result ≡ class_of_global_body body }
{
    match body {
        GlobalBody::Buffer(_) => Class::Buffer,
        GlobalBody::Pointer => Class::PointerCell,
        GlobalBody::Int => Class::IntCell,
    }
}

/// The set of the holder at a place, empty where there is none.
pub(crate) fn set_at(sets: &[List<u32>], place: usize) -> &[u32]
    ensures { result.now ≡ set_of sets.now place }
{
    match sets.get(place) {
        None => &[],
        Some(set) => set.as_slice(),
    }
}

/// The entity of a pointer formal, whose set stands at a place.
fn formal_entity(
    alloc: Global,
    sets: &[List<u32>],
    place: usize,
    kind: VarKind,
) -> Result<Entity, AllocError>
    ensures { IfOk result (λ e. e ≡ formal_entity_of sets.now place kind) }
{
    let sites = List::from_slice(alloc, set_at(sets, place))?;
    Ok(Entity {
        nullable: true,
        class: class_of_kind(kind),
        sites,
    })
}

/// Puts the entities of the pointer formals behind others; their sets stand from `first` on.
fn push_formals(
    entities: &mut Vec<Entity>,
    alloc: Global,
    sets: &[List<u32>],
    first: usize,
    formals: &[Formal],
) -> Result<(), AllocError>
    ensures { OnOk result (entities.new.items ≡ entities.old.items ++ formal_entities_of sets.now first formals.now) }
{
    let mut rest = formals;
    let mut place = first;
    while let [formal, tail @ ..] = rest {
        if is_pointer_kind(formal.kind) {
            entities.push(formal_entity(alloc, sets, place, formal.kind)?)?;
            if place == usize::MAX {
                return Err(AllocError);
            }
            place += 1;
        }
        rest = tail;
    }
    Ok(())
}

/// Each number once, at its first place.
fn distinct(alloc: Global, numbers: &[u32]) -> Result<Vec<u32>, AllocError>
    ensures { IfOk result (λ v. v.items ≡ distinct_in numbers.now) }
{
    let mut seen = Vec::new(alloc);
    let mut rest = numbers;
    while let [number, tail @ ..] = rest {
        if !is_member(*number, seen.as_slice()) {
            seen.push(*number)?;
        }
        rest = tail;
    }
    Ok(seen)
}

pub(crate) fn global_number(p: &Program, name: &Bytes) -> Option<usize>
    ensures { result ≡ global_number_of p.now name.now }
{
    global_place(p.globals.as_slice(), name.as_slice())
}

/// The number of the first literal that has the name.
pub(crate) fn literal_named(p: &Program, name: &Bytes) -> Option<usize>
    ensures { result ≡ place_of (λ l. l.name) name.now p.now.literals }
{
    literal_place(p.literals.as_slice(), name.as_slice())
}

/// The number of the literal whose address a statement takes.
pub(crate) fn literal_in(p: &Program, form: &Form) -> Option<usize>
    ensures { result ≡ literal_number_in p.now form.now }
{
    match form {
        Form::Address { object, .. } => literal_named(p, object),
        _ => None,
    }
}

/// A number as 32 bits hold it; a greater one has no room in memory.
fn narrow(number: usize) -> Result<u32, AllocError>
    ensures { IfOk result (λ n. n ≡ number) }
{
    if number > 4294967295 {
        return Err(AllocError);
    }
    Ok(number as u32)
}

/// Puts a number behind others where there is one.
fn push_number(numbers: &mut Vec<u32>, number: Option<usize>) -> Result<(), AllocError>
    ensures { OnOk result (numbers.new.items ≡ numbers.old.items ++ as_list number) }
{
    match number {
        None => Ok(()),
        Some(number) => {
            numbers.push(narrow(number)?)?;
            Ok(())
        }
    }
}

/// The numbers of the globals that have one of the names.
fn globals_named(alloc: Global, p: &Program, names: &[Bytes]) -> Result<Vec<u32>, AllocError>
    ensures { IfOk result (λ v. v.items ≡ flat_map (λ x. as_list (global_number_of p.now x)) names.now) }
{
    let mut numbers = Vec::new(alloc);
    let mut rest = names;
    while let [name, tail @ ..] = rest {
        push_number(&mut numbers, global_number(p, name))?;
        rest = tail;
    }
    Ok(numbers)
}

/// The numbers of the literals that statements name.
fn literals_named(alloc: Global, p: &Program, stmts: &[Stmt]) -> Result<Vec<u32>, AllocError>
    ensures { IfOk result (λ v. v.items ≡ flat_map (λ s. as_list (literal_number_in p.now s.form)) stmts.now) }
{
    let mut numbers = Vec::new(alloc);
    let mut rest = stmts;
    while let [s, tail @ ..] = rest {
        push_number(&mut numbers, literal_in(p, &s.form))?;
        rest = tail;
    }
    Ok(numbers)
}

/// The globals that a contract lists, by number, each once.
pub(crate) fn listed_of(alloc: Global, p: &Program, f: &Proc) -> Result<Vec<u32>, AllocError>
    ensures { IfOk result (λ v. v.items ≡ listed_in p.now f.now) }
{
    let all = globals_named(alloc, p, f.contract.listed.as_slice())?;
    let numbers = distinct(alloc, all.as_slice())?;
    Ok(numbers)
}

/// The literals that the statements of a procedure name, by number, each once.
fn literals_of(alloc: Global, p: &Program, f: &Proc) -> Result<Vec<u32>, AllocError>
    ensures { IfOk result (λ v. v.items ≡ literals_in p.now f.now) }
{
    let all = literals_named(alloc, p, stmts_of(f))?;
    let numbers = distinct(alloc, all.as_slice())?;
    Ok(numbers)
}

pub(crate) fn class_at(global: Option<&GlobalDecl>) -> Class
    ensures { result ≡ class_at_of (option_copied global.entry) }
{
    match global {
        None => Class::Buffer,
        Some(g) => class_of_global(g.body),
    }
}

/// The class of the global of a number; a buffer where there is none.
pub(crate) fn class_of_global_number(p: &Program, number: usize) -> Class
    ensures { result ≡ class_at_of (slice_get p.now.globals number) }
{
    class_at(p.globals.get(number))
}

fn class_of_number(p: &Program, number: u32) -> Class
    ensures { result ≡ class_at_of (slice_get p.now.globals number) }
{
    class_at(p.globals.get(number as usize))
}

/// The class of the global that has a name; a buffer where none has it.
pub(crate) fn class_named(p: &Program, name: &Bytes) -> Class
    ensures { result ≡ class_at_of (option_and_then (slice_get p.now.globals) (global_number_of p.now name.now)) }
{
    match global_number(p, name) {
        None => Class::Buffer,
        Some(number) => class_at(p.globals.get(number)),
    }
}

/// The list of one site, one more than a number. A greater site than 4294967295 has no room in memory.
fn site_after(alloc: Global, number: usize) -> Result<List<u32>, AllocError>
    ensures { IfOk result (λ xs. xs ≡ suc number ∷ []) }
{
    if number >= 4294967295 {
        return Err(AllocError);
    }
    let mut sites = Vec::new(alloc);
    sites.push(number as u32 + 1)?;
    Ok(List::from_vec(sites))
}

fn global_entity(alloc: Global, p: &Program, number: u32) -> Result<Entity, AllocError>
    ensures { IfOk result (λ e. e ≡ global_entity_of p.now number) }
{
    let sites = site_after(alloc, number as usize)?;
    Ok(Entity {
        nullable: false,
        class: class_of_number(p, number),
        sites,
    })
}

fn literal_entity(alloc: Global, p: &Program, number: u32) -> Result<Entity, AllocError>
    ensures { IfOk result (λ e. e ≡ literal_entity_of p.now number) }
{
    let globals = p.globals.len();
    if globals > 4294967295 {
        return Err(AllocError);
    }
    let sites = site_after(alloc, globals + number as usize)?;
    Ok(Entity {
        nullable: false,
        class: Class::Buffer,
        sites,
    })
}

/// Puts the entities of globals behind others.
fn push_globals(
    entities: &mut Vec<Entity>,
    alloc: Global,
    p: &Program,
    numbers: &[u32],
) -> Result<(), AllocError>
    ensures { OnOk result (entities.new.items ≡ entities.old.items ++ map (global_entity_of p.now) numbers.now) }
{
    let mut rest = numbers;
    while let [number, tail @ ..] = rest {
        entities.push(global_entity(alloc, p, *number)?)?;
        rest = tail;
    }
    Ok(())
}

/// Puts the entities of literals behind others.
fn push_literals(
    entities: &mut Vec<Entity>,
    alloc: Global,
    p: &Program,
    numbers: &[u32],
) -> Result<(), AllocError>
    ensures { OnOk result (entities.new.items ≡ entities.old.items ++ map (literal_entity_of p.now) numbers.now) }
{
    let mut rest = numbers;
    while let [number, tail @ ..] = rest {
        entities.push(literal_entity(alloc, p, *number)?)?;
        rest = tail;
    }
    Ok(())
}

/// The entities of a procedure but contents; its first holder's set stands at `first`.
pub(crate) fn entities_from(
    alloc: Global,
    p: &Program,
    sets: &[List<u32>],
    first: usize,
    f: &Proc,
) -> Result<Vec<Entity>, AllocError>
    ensures { IfOk result (λ v. v.items ≡ formal_entities_of sets.now first f.now.formals ++ map (global_entity_of p.now) (listed_in p.now f.now) ++ map (literal_entity_of p.now) (literals_in p.now f.now)) }
{
    let globals = listed_of(alloc, p, f)?;
    let literals = literals_of(alloc, p, f)?;
    let mut entities = Vec::new(alloc);
    push_formals(&mut entities, alloc, sets, first, f.formals.as_slice())?;
    push_globals(&mut entities, alloc, p, globals.as_slice())?;
    push_literals(&mut entities, alloc, p, literals.as_slice())?;
    Ok(entities)
}
