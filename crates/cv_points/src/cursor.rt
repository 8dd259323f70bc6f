//! The places of pointer cells, looked for one after the other: a site behind the one before is walked to from there.
ghost use Rattle.cv_core.specs.Names.{is_pointer_global as pointer_global};
ghost use Rattle.std.specs.Prelude.{◌≡◌, ◌+◌, ◌≤◌, Some, length, slice_get};
ghost use Rattle.std.specs.List.{filter};
ghost use Rattle.std.specs.Option.{option_map};
ghost use Rattle.cv_points.specs.Cursors.{IsCursor, IsStep};
ghost use Rattle.cv_points.specs.Holders as spec;
ghost use Rattle.cv_points.specs.Walks.{word};

use crate::holders::{first_holder, proc_count};
use crate::walk::{Walk, cell_number, walk_proc};
use cv_core::{GlobalDecl, Proc, Program, is_pointer_global};

/// Where a walk over the objects of procedures can go on.
#[derive(Clone, Copy, PartialEq, Eq, Debug)]
pub(crate) struct Cursor {
    /// The place of the set of the program's first pointer cell.
    pub base: usize,
    /// The number of a procedure.
    pub proc: usize,
    /// How many globals, literals and objects stand before those of the procedure.
    pub objects: u128,
    /// How many of them are pointer cells.
    pub cells: usize,
}

/// What a procedure is to the object that is looked for.
#[derive(Clone, Copy, PartialEq, Eq, Debug)]
pub(crate) enum Step {
    /// The object is one of it: its number among the pointer cells, None where it is no pointer cell.
    Found(Option<usize>),
    /// The object stands behind: the cursor at the next procedure.
    Behind(Cursor),
}

/// How many globals are pointers.
fn pointer_globals(globals: &[GlobalDecl]) -> usize
    ensures { result ≡ length (filter (λ g. pointer_global g.body) globals.now) }
{
    globals.iter().filter(|g| is_pointer_global(g.body)).count()
}

fn before_objects(p: &Program) -> u128
    ensures { result ≡ length p.now.globals + length p.now.literals }
{
    p.globals.len() as u128 + p.literals.len() as u128
}

/// The cursor at the first procedure.
pub(crate) fn first_cursor(p: &Program) -> Cursor
    ensures { IsCursor p.now result }
{
    Cursor {
        base: first_holder(p, proc_count(p)),
        proc: 0,
        objects: before_objects(p),
        cells: pointer_globals(p.globals.as_slice()),
    }
}

/// Looks for an object in the procedure at a cursor.
fn look_in(p: &Program, f: &Proc, at: Cursor, object: usize) -> Step
    requires cursor { IsCursor p.now at }
    requires here { slice_get p.now.procs at.proc ≡ Some f.now }
    requires behind { at.objects ≤ object }
    ensures { IsStep p.now at object result }
{
    let _count = proc_count(p);
    match walk_proc(f, (object as u128 - at.objects) as usize, at.cells) {
        Walk::Found(number) => Step::Found(number),
        Walk::Past { skip, seen } => Step::Behind(Cursor {
            base: at.base,
            proc: at.proc + 1,
            objects: object as u128 - skip as u128,
            cells: seen,
        }),
    }
}

/// How many pointer cells stand before an object that isn't before the cursor, None where it is no pointer cell. The
/// cursor goes to the object's procedure.
fn number_behind(p: &Program, at: &mut Cursor, object: usize) -> Option<usize>
    requires cursor { IsCursor p.now at.old }
    requires behind { at.old.objects ≤ object }
    ensures number { result ≡ spec.cell_number (spec.cells p.now) object }
    ensures cursor { IsCursor p.now at.new }
{
    while let Some(f) = p.procs.get(at.proc) {
        match look_in(p, f, *at, object) {
            Step::Found(number) => return number,
            Step::Behind(next) => *at = next,
        }
    }
    None
}

/// How many pointer cells stand before an object, None where it is no pointer cell.
fn number_from(p: &Program, at: &mut Cursor, object: usize) -> Option<usize>
    requires { IsCursor p.now at.old }
    ensures number { result ≡ spec.cell_number (spec.cells p.now) object }
    ensures cursor { IsCursor p.now at.new }
{
    if at.objects <= object as u128 {
        number_behind(p, at, object)
    } else {
        cell_number(p, object)
    }
}

/// The place of the set of the pointer cell at a site, None where no pointer cell has it.
pub(crate) fn cell_place_from(p: &Program, at: &mut Cursor, site: usize) -> Option<usize>
    requires { IsCursor p.now at.old }
    ensures place { result ≡ option_map word (spec.cell_place p.now site) }
    ensures cursor { IsCursor p.now at.new }
{
    if site == 0 {
        return None;
    }
    match number_from(p, at, site - 1) {
        Some(number) => Some(at.base.saturating_add(number)),
        None => None,
    }
}
