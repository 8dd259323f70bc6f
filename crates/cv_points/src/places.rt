//! A table that gives for each site the place of the set of its pointer cell.
ghost use Rattle.std.specs.Prelude.{◌≡◌, ◌++◌, IfOk, OnOk, false, map};
ghost use Rattle.std.specs.List.{filter, flat_map};
ghost use Rattle.cv_core.specs.Names as spec;
ghost use Rattle.cv_points.specs.Growing.{ArePlaces, numbered};
ghost use Rattle.cv_points.specs.Holders.{cells, first_holder as first_holder_of};

use crate::holders::{first_holder, proc_count};
use cv_core::{
    GlobalDecl, Literal, Local, Proc, Program, is_object, is_pointer_cell, is_pointer_global,
    locals_of,
};
use std::alloc::{AllocError, Global};

/// Puts behind `flags` for each global whether it is a pointer.
fn flag_globals(flags: &mut Vec<bool>, globals: &[GlobalDecl]) -> Result<(), AllocError>
    ensures { OnOk result (flags.new.items ≡ flags.old.items ++ map (λ g. spec.is_pointer_global g.body) globals.now) }
{
    let mut rest = globals;
    while let [global, tail @ ..] = rest {
        flags.push(is_pointer_global(global.body))?;
        rest = tail;
    }
    Ok(())
}

/// Puts false behind `flags` for each literal.
fn flag_literals(flags: &mut Vec<bool>, literals: &[Literal]) -> Result<(), AllocError>
    ensures { OnOk result (flags.new.items ≡ flags.old.items ++ map (λ l. false) literals.now) }
{
    let mut rest = literals;
    while let [_, tail @ ..] = rest {
        flags.push(false)?;
        rest = tail;
    }
    Ok(())
}

/// Puts behind `flags` for each object among locals whether it is a pointer cell.
fn flag_locals(flags: &mut Vec<bool>, locals: &[Local]) -> Result<(), AllocError>
    ensures { OnOk result (flags.new.items ≡ flags.old.items ++ map (λ l. spec.is_pointer_cell l.body) (filter (λ l. spec.is_object l.body) locals.now)) }
{
    let mut rest = locals;
    while let [local, tail @ ..] = rest {
        if is_object(local.body) {
            flags.push(is_pointer_cell(local.body))?;
        }
        rest = tail;
    }
    Ok(())
}

/// Puts behind `flags` for each object of a procedure whether it is a pointer cell.
fn flag_proc(flags: &mut Vec<bool>, f: &Proc) -> Result<(), AllocError>
    ensures { OnOk result (flags.new.items ≡ flags.old.items ++ map (λ l. spec.is_pointer_cell l.body) (spec.objects_of f.now)) }
{
    flag_locals(flags, locals_of(f))?;
    Ok(())
}

/// Puts behind `flags` for each object of procedures whether it is a pointer cell.
fn flag_procs(flags: &mut Vec<bool>, procs: &[Proc]) -> Result<(), AllocError>
    ensures { OnOk result (flags.new.items ≡ flags.old.items ++ map (λ l. spec.is_pointer_cell l.body) (flat_map spec.objects_of procs.now)) }
{
    let mut rest = procs;
    while let [f, tail @ ..] = rest {
        flag_proc(flags, f)?;
        rest = tail;
    }
    Ok(())
}

/// For each site from 1 on that the program's objects have, whether it is a pointer cell.
fn cell_flags(alloc: Global, p: &Program) -> Result<Vec<bool>, AllocError>
    ensures { IfOk result (λ flags. flags.items ≡ cells p.now) }
{
    let mut flags = Vec::new(alloc);
    flag_globals(&mut flags, p.globals.as_slice())?;
    flag_literals(&mut flags, p.literals.as_slice())?;
    flag_procs(&mut flags, p.procs.as_slice())?;
    Ok(flags)
}

/// The places of flagged objects, from `first` on, behind those of `table`.
fn number_cells(
    table: &mut Vec<Option<usize>>,
    flags: &[bool],
    first: usize,
) -> Result<(), AllocError>
    ensures { OnOk result (table.new.items ≡ table.old.items ++ numbered first flags.now) }
{
    let mut rest = flags;
    let mut next = first;
    while let [is_cell, tail @ ..] = rest {
        if *is_cell {
            table.push(Some(next))?;
            if next == usize::MAX {
                return Err(AllocError);
            }
            next += 1;
        } else {
            table.push(None)?;
        }
        rest = tail;
    }
    Ok(())
}

/// For each site the place of the set of its pointer cell. An error is want of memory, also where a place is
/// greater than any place in memory.
pub fn cell_places(alloc: Global, p: &Program) -> Result<Vec<Option<usize>>, AllocError>
    ensures { IfOk result (λ table. ArePlaces p.now table.items) }
{
    let first = first_holder(p, proc_count(p));
    if first == usize::MAX {
        return Err(AllocError);
    }
    let flags = cell_flags(alloc, p)?;
    let mut table = Vec::new(alloc);
    table.push(None)?;
    number_cells(&mut table, flags.as_slice(), first)?;
    Ok(table)
}
