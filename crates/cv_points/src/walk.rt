//! The walk over the objects of a program to one that has a given number.
ghost use Rattle.std.specs.Prelude.{IfSome, ◌≡◌, ◌+◌, ◌<◌, ◌≤◌, ◌^◌, length, map, Bool, List as Items};
ghost use Rattle.std.specs.List.{count_by, filter, flat_map};
ghost use Rattle.cv_core.specs.Names as spec;
ghost use Rattle.cv_points.specs.Holders.{cell_number as number_of_cell, cells, global_cells, object_cells};
ghost use Rattle.cv_points.specs.Walks.{walk, IsShorter};

use cv_core::{
    GlobalDecl, Local, Proc, Program, is_object, is_pointer_cell, is_pointer_global, locals_of,
};

/// Where a walk over a list of objects ended.
#[derive(Clone, Copy, PartialEq, Eq, Debug)]
pub(crate) enum Walk {
    /// At the object: its number among the pointer cells, None where it is no pointer cell.
    Found(Option<usize>),
    /// Past the list: `skip` objects are still to be skipped, and `seen` pointer cells stood before.
    Past { skip: usize, seen: usize },
}

/// Walks over the globals.
pub(crate) fn walk_globals(globals: &[GlobalDecl], from: usize) -> Walk
    ensures end { result ≡ walk (map (λ g. spec.is_pointer_global g.body) globals.now) from 0 }
    ensures shorter { IsShorter from result }
{
    let mut rest = globals;
    let mut skip = from;
    let mut seen = 0;
    while let [global, tail @ ..] = rest {
        let is_cell = is_pointer_global(global.body);
        if skip == 0 {
            return Walk::Found(if is_cell { Some(seen) } else { None });
        }
        skip -= 1;
        seen += usize::from(is_cell);
        rest = tail;
    }
    Walk::Past { skip, seen }
}

/// Walks over the objects among the locals of a procedure.
fn walk_locals(locals: &[Local], from: usize, before: usize) -> Walk
    requires { from + before < 2 ^ 64 }
    ensures end { result ≡ walk (map (λ l. spec.is_pointer_cell l.body) (filter (λ l. spec.is_object l.body) locals.now)) from before }
    ensures shorter { IsShorter (from + before) result }
{
    let mut rest = locals;
    let mut skip = from;
    let mut seen = before;
    while let [local, tail @ ..] = rest {
        if is_object(local.body) {
            let is_cell = is_pointer_cell(local.body);
            if skip == 0 {
                return Walk::Found(if is_cell { Some(seen) } else { None });
            }
            skip -= 1;
            seen += usize::from(is_cell);
        }
        rest = tail;
    }
    Walk::Past { skip, seen }
}

/// Walks over the objects of a procedure.
pub(crate) fn walk_proc(f: &Proc, from: usize, before: usize) -> Walk
    requires { from + before < 2 ^ 64 }
    ensures end { result ≡ walk (map (λ l. spec.is_pointer_cell l.body) (spec.objects_of f.now)) from before }
    ensures shorter { IsShorter (from + before) result }
{
    walk_locals(locals_of(f), from, before)
}

/// Walks over the objects of procedures.
pub(crate) fn walk_objects(procs: &[Proc], from: usize, before: usize) -> Walk
    requires { from + before < 2 ^ 64 }
    ensures { result ≡ walk (map (λ l. spec.is_pointer_cell l.body) (flat_map spec.objects_of procs.now)) from before }
{
    let mut rest = procs;
    let mut skip = from;
    let mut seen = before;
    while let [f, tail @ ..] = rest {
        match walk_proc(f, skip, seen) {
            Walk::Found(number) => return Walk::Found(number),
            Walk::Past {
                skip: left,
                seen: cells,
            } => {
                skip = left;
                seen = cells;
            }
        }
        rest = tail;
    }
    Walk::Past { skip, seen }
}

/// Walks over the globals of a program.
fn walk_program_globals(p: &Program, from: usize) -> Walk
    ensures end { result ≡ walk (global_cells p.now) from 0 }
    ensures shorter { IsShorter from result }
{
    walk_globals(p.globals.as_slice(), from)
}

/// Walks over the objects of the procedures of a program.
fn walk_program_objects(p: &Program, from: usize, before: usize) -> Walk
    requires { from + before < 2 ^ 64 }
    ensures { result ≡ walk (object_cells p.now) from before }
{
    walk_objects(p.procs.as_slice(), from, before)
}

fn literal_count(p: &Program) -> usize
    ensures { result ≡ length p.now.literals }
{
    p.literals.len()
}

/// How many pointer cells stand before the object of this number, None where it is no pointer cell.
pub(crate) fn cell_number(p: &Program, object: usize) -> Option<usize>
    ensures { result ≡ number_of_cell (cells p.now) object }
{
    match walk_program_globals(p, object) {
        Walk::Found(number) => number,
        Walk::Past { skip, seen } => {
            let literals = literal_count(p);
            if skip < literals {
                return None;
            }
            match walk_program_objects(p, skip - literals, seen) {
                Walk::Found(number) => number,
                Walk::Past { .. } => None,
            }
        }
    }
}

/// How many pointer cells the globals and objects of a program are; None where a word can't count the objects.
pub(crate) fn cell_total(p: &Program) -> Option<usize>
    ensures { IfSome result (λ n. n ≡ count_by (λ c. c) (cells p.now)) }
{
    match walk_program_globals(p, usize::MAX) {
        Walk::Found(_) => None,
        Walk::Past { seen, .. } => match walk_program_objects(p, usize::MAX - seen, seen) {
            Walk::Found(_) => None,
            Walk::Past { seen: total, .. } => Some(total),
        },
    }
}
