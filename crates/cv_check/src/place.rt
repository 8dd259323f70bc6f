//! The integer program: the groups and the transitions of a statement.
ghost use Rattle.std.specs.Prelude.{◌≡◌, ◌==◌, ◌∷◌, [], All, IfOk, pos, ◌-ℤ◌};
ghost use Rattle.cv_num.specs.Assigned.{IsSmallAssign};
ghost use Rattle.cv_num.specs.Algebra.{number as number_of};
ghost use Rattle.cv_check.specs.Integer as spec;
ghost use Rattle.cv_core.specs.Chars.{low_byte};

use crate::rows::{less, number, over, plus, under};
use cv_core::{Form, List, Operand};
use cv_num::{Assign, Row};
use std::alloc::{AllocError, Global};

/// Where the guard holds, each goal has to be at least 0.
#[derive(Drop)]
pub(crate) struct Group {
    pub(crate) guard: List<Row>,
    pub(crate) goals: List<Row>,
}

/// Where the guard holds, the assignments may be made.
#[derive(Drop)]
pub(crate) struct Move {
    pub(crate) guard: List<Row>,
    pub(crate) assign: Assign,
}

/// What a statement asks, and what it may do; each of its moves leads to the next statement.
#[derive(Drop)]
pub(crate) struct Place {
    pub(crate) groups: List<Group>,
    pub(crate) moves: List<Move>,
}

const CODE: u32 = 0;

const OFFSET: u32 = 1;

const FIRST_ZERO: u32 = 2;

const FRESH: u32 = 3;

/// The ranges of the three variables.
pub(crate) fn facts(alloc: Global, size: u32, target: bool) -> Result<Vec<Row>, AllocError>
    ensures { IfOk result (λ rows. rows.items ≡ spec.facts size target) }
{
    let greatest = if target { 1 } else { -1 };
    Ok(vec![in alloc;
        plus(alloc, CODE, 1)?,
        less(alloc, greatest, CODE)?,
        plus(alloc, OFFSET, 0)?,
        less(alloc, 2147483647, OFFSET)?,
        plus(alloc, FIRST_ZERO, 0)?,
        less(alloc, i64::from(size), FIRST_ZERO)?,
    ]?)
}

/// What holds at the entry: nothing is known of the pointer.
pub(crate) fn entry(alloc: Global) -> Result<Vec<Row>, AllocError>
    ensures { IfOk result (λ rows. rows.items ≡ spec.entry) }
{
    Ok(vec![in alloc;
        plus(alloc, CODE, 1)?,
        less(alloc, -1, CODE)?,
        plus(alloc, OFFSET, 0)?,
        less(alloc, 0, OFFSET)?,
    ]?)
}

/// Nothing is known of the pointer.
fn at_nothing(alloc: Global) -> Result<Vec<Row>, AllocError>
    ensures { IfOk result (λ rows. rows.items ≡ spec.at_nothing) }
{
    Ok(vec![in alloc; plus(alloc, CODE, 1)?, less(alloc, -1, CODE)?]?)
}

/// The pointer points into the buffer.
fn at_buffer(alloc: Global, size: u32) -> Result<Vec<Row>, AllocError>
    ensures { IfOk result (λ rows. rows.items ≡ spec.at_buffer size) }
{
    Ok(vec![in alloc;
        plus(alloc, CODE, -1)?,
        less(alloc, 1, CODE)?,
        less(alloc, i64::from(size), OFFSET)?,
    ]?)
}

/// A wild pointer is no pointer to move or to store through.
fn wild(alloc: Global) -> Result<Group, AllocError>
    ensures { IfOk result (λ g. g ≡ spec.wild) }
{
    Ok(Group {
        guard: List::from_vec(at_nothing(alloc)?),
        goals: List::from_vec(vec![in alloc; number(alloc, -1)?]?),
    })
}

/// `p = &b`.
#[tactic(auto, using(crate::proofs::Small::address_small))]
fn address_place(alloc: Global) -> Result<Place, AllocError>
    ensures value { IfOk result (λ at. at ≡ spec.address_place) }
    ensures small { IfOk result (λ at. All (λ t. IsSmallAssign t.assign) at.moves) }
{
    let items = vec![in alloc; (CODE, number(alloc, 1)?), (OFFSET, number(alloc, 0)?)]?;
    let assign = Assign::from_vec(items).ok_or(AllocError)?;
    let only = Move {
        guard: List::new(alloc),
        assign,
    };
    Ok(Place {
        groups: List::new(alloc),
        moves: List::from_vec(vec![in alloc; only]?),
    })
}

/// The bounds of a move by `k`.
fn shift_group(alloc: Global, size: u32, k: i32) -> Result<Group, AllocError>
    ensures { IfOk result (λ g. (g.guard ≡ spec.at_buffer size) × (g.goals ≡ spec.plus 1 k ∷ spec.less (pos size -ℤ k) 1 ∷ [])) }
{
    let below = plus(alloc, OFFSET, i64::from(k))?;
    let above = less(alloc, i64::from(size) - i64::from(k), OFFSET)?;
    Ok(Group {
        guard: List::from_vec(at_buffer(alloc, size)?),
        goals: List::from_vec(vec![in alloc; below, above]?),
    })
}

/// A move by `k`.
fn shift_move(alloc: Global, size: u32, k: i32) -> Result<Move, AllocError>
    ensures { IfOk result (λ t. (t.guard ≡ spec.at_buffer size) × (t.assign ≡ (0, number_of (pos 1)) ∷ (1, spec.plus 1 k) ∷ [])) }
{
    let items = vec![in alloc;
        (CODE, number(alloc, 1)?),
        (OFFSET, plus(alloc, OFFSET, i64::from(k))?),
    ]?;
    Ok(Move {
        guard: List::from_vec(at_buffer(alloc, size)?),
        assign: Assign::from_vec(items).ok_or(AllocError)?,
    })
}

/// `p = p + k`.
#[tactic(auto, using(crate::proofs::Small::shift_small))]
fn shift_place(alloc: Global, size: u32, target: bool, k: i32) -> Result<Place, AllocError>
    ensures value { IfOk result (λ at. at ≡ spec.shift_place size target k) }
    ensures small { IfOk result (λ at. All (λ t. IsSmallAssign t.assign) at.moves) }
{
    let nothing = wild(alloc)?;
    if !target {
        return Ok(Place {
            groups: List::from_vec(vec![in alloc; nothing]?),
            moves: List::new(alloc),
        });
    }
    let bounds = shift_group(alloc, size, k)?;
    let only = shift_move(alloc, size, k)?;
    Ok(Place {
        groups: List::from_vec(vec![in alloc; nothing, bounds]?),
        moves: List::from_vec(vec![in alloc; only]?),
    })
}

/// A byte lies at the offset.
fn has_byte(alloc: Global, size: u32) -> Result<Row, AllocError>
    ensures { IfOk result (λ r. r ≡ spec.has_byte size) }
{
    less(alloc, i64::from(size) - 1, OFFSET)
}

/// Where a byte lies at the offset, and more holds, these assignments.
fn stored(alloc: Global, size: u32, more: Vec<Row>, assign: Assign) -> Result<Move, AllocError>
    ensures { IfOk result (λ t. t ≡ spec.stored size more.items assign) }
{
    let mut guard = at_buffer(alloc, size)?;
    guard.push(has_byte(alloc, size)?)?;
    let mut more = more;
    guard.append(&mut more)?;
    Ok(Move {
        guard: List::from_vec(guard),
        assign,
    })
}

/// The first zero becomes `v`.
fn zero_becomes(alloc: Global, v: u32) -> Result<Assign, AllocError>
    ensures { IfOk result (λ a. a ≡ (2, spec.plus v (pos 0)) ∷ []) }
{
    let items = vec![in alloc; (FIRST_ZERO, plus(alloc, v, 0)?)]?;
    Assign::from_vec(items).ok_or(AllocError)
}

/// The transitions of a store of a zero byte.
fn zero_moves(alloc: Global, size: u32) -> Result<Vec<Move>, AllocError>
    ensures { IfOk result (λ moves. moves.items ≡ spec.zero_moves size) }
{
    let before = vec![in alloc; over(alloc, OFFSET, FIRST_ZERO, -1)?]?;
    let behind = vec![in alloc; under(alloc, OFFSET, FIRST_ZERO, 0)?]?;
    let first = stored(alloc, size, before, zero_becomes(alloc, OFFSET)?)?;
    let second = stored(alloc, size, behind, Assign::new(alloc))?;
    Ok(vec![in alloc; first, second]?)
}

/// Another byte at the first zero: the first zero is a later one.
fn other_at(alloc: Global, size: u32) -> Result<Move, AllocError>
    ensures { IfOk result (λ t. t ≡ spec.other_at size) }
{
    let more = vec![in alloc;
        under(alloc, OFFSET, FIRST_ZERO, 0)?,
        over(alloc, OFFSET, FIRST_ZERO, 0)?,
        over(alloc, OFFSET, FRESH, -1)?,
        less(alloc, i64::from(size), FRESH)?,
    ]?;
    stored(alloc, size, more, zero_becomes(alloc, FRESH)?)
}

/// The transitions of a store of another byte.
fn other_moves(alloc: Global, size: u32) -> Result<Vec<Move>, AllocError>
    ensures { IfOk result (λ moves. moves.items ≡ spec.other_moves size) }
{
    let before = vec![in alloc; over(alloc, OFFSET, FIRST_ZERO, -1)?]?;
    let behind = vec![in alloc; under(alloc, OFFSET, FIRST_ZERO, -1)?]?;
    let first = other_at(alloc, size)?;
    let second = stored(alloc, size, before, Assign::new(alloc))?;
    let third = stored(alloc, size, behind, Assign::new(alloc))?;
    Ok(vec![in alloc; first, second, third]?)
}

/// Whether a number is a zero byte.
fn is_zero_byte(k: i32) -> bool
    ensures { result ≡ (low_byte k == 0) }
{
    k.rem_euclid(256) == 0
}

/// The transitions of a store of `k`.
fn store_moves(alloc: Global, size: u32, k: i32) -> Result<Vec<Move>, AllocError>
    ensures { IfOk result (λ moves. moves.items ≡ spec.store_moves size k) }
{
    if is_zero_byte(k) {
        zero_moves(alloc, size)
    } else {
        other_moves(alloc, size)
    }
}

/// `store p, k`.
#[tactic(auto, using(crate::proofs::Small::store_small))]
fn store_place(alloc: Global, size: u32, target: bool, k: i32) -> Result<Place, AllocError>
    ensures value { IfOk result (λ at. at ≡ spec.store_place size target k) }
    ensures small { IfOk result (λ at. All (λ t. IsSmallAssign t.assign) at.moves) }
{
    let nothing = wild(alloc)?;
    if !target {
        return Ok(Place {
            groups: List::from_vec(vec![in alloc; nothing]?),
            moves: List::new(alloc),
        });
    }
    let bounds = Group {
        guard: List::from_vec(at_buffer(alloc, size)?),
        goals: List::from_vec(vec![in alloc; has_byte(alloc, size)?]?),
    };
    Ok(Place {
        groups: List::from_vec(vec![in alloc; nothing, bounds]?),
        moves: List::from_vec(store_moves(alloc, size, k)?),
    })
}

/// `return k`.
fn return_place(alloc: Global) -> Result<Place, AllocError>
    ensures { IfOk result (λ at. at ≡ spec.return_place) }
{
    let only = Group {
        guard: List::new(alloc),
        goals: List::new(alloc),
    };
    Ok(Place {
        groups: List::from_vec(vec![in alloc; only]?),
        moves: List::new(alloc),
    })
}

/// A statement that asks nothing and leads nowhere: no straight-line program has one.
fn no_place(alloc: Global) -> Place
    ensures { result ≡ spec.no_place }
{
    Place {
        groups: List::new(alloc),
        moves: List::new(alloc),
    }
}

/// The groups and the transitions of a statement over a buffer of this size; `target` says whether the
/// pointer may point to the buffer.
pub(crate) fn statement_place(
    alloc: Global,
    size: u32,
    target: bool,
    form: &Form,
) -> Result<Place, AllocError>
    ensures value { IfOk result (λ at. at ≡ spec.place size target form.now) }
    ensures small { IfOk result (λ at. All (λ t. IsSmallAssign t.assign) at.moves) }
{
    match form {
        Form::Address { .. } => address_place(alloc),
        Form::Shift {
            e: Operand::Number(k),
            ..
        } => shift_place(alloc, size, target, *k),
        Form::Store {
            e: Operand::Number(k),
            ..
        } => store_place(alloc, size, target, *k),
        Form::Return(_) => return_place(alloc),
        _ => Ok(no_place(alloc)),
    }
}
