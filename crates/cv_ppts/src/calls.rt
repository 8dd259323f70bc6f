//! What calls ask of the sets of codes and the sets lack.
ghost use Rattle.std.specs.Prelude.{◌≡◌, [], ◌&&◌, ◌+◌, ◌<◌, ◌≤◌, Contains, List as Items, MatchBool, MatchOption, Some, length, not, option_copied};
ghost use Rattle.cv_core.specs.declared.program.Item.{Item as ItemValue};
ghost use Rattle.cv_core.specs.declared.program.Atom.{Atom as AtomValue};
ghost use Rattle.cv_ppts.specs.Choices.{argument_codes as argument_codes_in, codes_of_place, item_target as item_target_in, starred_cell as starred_cell_of};
ghost use Rattle.cv_ppts.specs.Keys.{setting};
ghost use Rattle.cv_ppts.specs.Lacking.{CellsAhead, CellsOver, FormalsAhead, FormalsOver, Lacks, listed_ahead, new_cell as new_cell_in, starred_ahead};
ghost use Rattle.cv_ppts.specs.Numbers.{codes_of, row_codes};
ghost use Rattle.cv_ppts.specs.Outcomes.{walked};
ghost use Rattle.cv_ppts.specs.declared.code.Code.{Code as CodeValue};
ghost use Rattle.cv_ppts.specs.Plain.{HasCode};
ghost use Rattle.cv_ppts.specs.Picked.{choice_of, gift_at as gift_at_in, pick_at as pick_at_in};
ghost use Rattle.cv_ppts.specs.Setting.{callee as callee_in, content_place as content_place_of};
ghost use Rattle.cv_ppts.specs.Targets.{AfterHolds, AlternativeHolds, AreLost, CallHolds, CalleeHolds, CellAsked, ChoiceHolds, GivenHolds, IsAsked, IsLost, MallocHolds, MaybeAsked, alternatives as alternatives_of, assigned as assigned_of, is_new as is_new_code};

use crate::code::Code;
use crate::numbers::code_of;
use crate::outcomes::{Gifts, gift_at, gift_by, has_false_atom, settled};
use crate::picks::{
    Codes, Picks, changes_pointer, has_pick, is_failing, item_target, listed_cell, pick_at,
    starred_cell,
};
use crate::places::{callee, content_place, has_fresh, variable_number};
use crate::sets::{Missing, has_code, missing_code, set_at};
use crate::setting::Scope;
use cv_core::{
    AnyOperand, Atom, Bytes, Formal, Item, List, Operand, Proc, VarKind, is_malloc_name,
    is_pointer_kind,
};

/// Whether the set at a place has the code of a target.
fn has_target(sets: &[List<i32>], place: u128, target: u32) -> bool
    ensures { MatchBool result (HasCode (codes_of sets.now) place (CodeValue.Target target)) (HasCode (codes_of sets.now) place (CodeValue.Target target) → ⊥) }
{
    has_code(sets, place, Code::Target(target))
}

fn missing_target(sets: &[List<i32>], place: u128, target: u32) -> Option<Missing>
    ensures { MatchOption result (HasCode (codes_of sets.now) place (CodeValue.Target target)) (λ m. Lacks (codes_of sets.now) (λ R. HasCode R place (CodeValue.Target target)) m.to m.code) }
{
    missing_code(sets, place, Code::Target(target))
}

/// A pointer that has the target of a statement that allocates, and not -1.
fn missing_lost(sets: &[List<i32>], target: u32, place: u128) -> Option<Missing>
    ensures { MatchOption result (IsLost (codes_of sets.now) target place) (λ m. Lacks (codes_of sets.now) (λ R. IsLost R target place) m.to m.code) }
{
    if has_target(sets, place, target) {
        missing_code(sets, place, Code::Unknown)
    } else {
        None
    }
}

fn is_place(into: Option<u128>, place: u128) -> bool
    ensures { MatchBool result (into ≡ Some place) (into ≡ Some place → ⊥) }
{
    match into {
        None => false,
        Some(other) => other == place,
    }
}

fn missing_lost_but(
    sets: &[List<i32>],
    target: u32,
    into: Option<u128>,
    place: u128,
) -> Option<Missing>
    ensures { MatchOption result ((into ≡ Some place → ⊥) → IsLost (codes_of sets.now) target place) (λ m. Lacks (codes_of sets.now) (λ R. (into ≡ Some place → ⊥) → IsLost R target place) m.to m.code) }
{
    if is_place(into, place) {
        None
    } else {
        missing_lost(sets, target, place)
    }
}

/// What the pointers other than the destination lack at a statement that allocates.
pub(crate) fn missing_losses(sets: &[List<i32>], target: u32, into: Option<u128>) -> Option<Missing>
    ensures { MatchOption result (AreLost (codes_of sets.now) target into) (λ m. Lacks (codes_of sets.now) (λ R. AreLost R target into) m.to m.code) }
{
    for place in 0..sets.len() {
        match missing_lost_but(sets, target, into, place as u128) {
            None => {}
            Some(missing) => return Some(missing),
        }
    }
    None
}

fn missing_malloc(sets: &[List<i32>], target: u32, into: Option<u128>) -> Option<Missing>
    ensures { MatchOption result (MallocHolds (codes_of sets.now) target into) (λ m. Lacks (codes_of sets.now) (λ R. MallocHolds R target into) m.to m.code) }
{
    match into {
        None => None,
        Some(place) => match missing_code(sets, place, Code::Null) {
            None => missing_target(sets, place, target),
            Some(missing) => Some(missing),
        },
    }
}

// ---- what an alternative gives

fn assigned(target: u32, fresh: bool, code: Code) -> Code
    ensures { result ≡ assigned_of target fresh code }
{
    match code {
        Code::New => Code::Target(target),
        Code::Target(u) => {
            if fresh && u == target {
                Code::Unknown
            } else {
                code
            }
        }
        Code::Unknown => code,
        Code::Null => code,
    }
}

fn is_new(code: Code) -> bool
    ensures { result ≡ is_new_code code }
{
    matches!(code, Code::New)
}

/// Whether a pointer with the code after the call loses the older object of the target.
fn is_lost(fresh: bool, code: Code) -> bool
    ensures { result ≡ (fresh && not (is_new_code code)) }
{
    fresh && !is_new(code)
}

fn missing_assigned(
    sets: &[List<i32>],
    target: u32,
    fresh: bool,
    code: Code,
    place: u128,
) -> Option<Missing>
    ensures { MatchOption result (HasCode (codes_of sets.now) place (assigned_of target fresh code)) (λ m. Lacks (codes_of sets.now) (λ R. HasCode R place (assigned_of target fresh code)) m.to m.code) }
{
    missing_code(sets, place, assigned(target, fresh, code))
}

fn missing_asked(
    sets: &[List<i32>],
    target: u32,
    fresh: bool,
    code: Code,
    place: u128,
) -> Option<Missing>
    ensures { MatchOption result (IsAsked (codes_of sets.now) target fresh code place) (λ m. Lacks (codes_of sets.now) (λ R. IsAsked R target fresh code place) m.to m.code) }
{
    match missing_assigned(sets, target, fresh, code, place) {
        Some(missing) => Some(missing),
        None => {
            if is_lost(fresh, code) {
                missing_lost(sets, target, place)
            } else {
                None
            }
        }
    }
}

fn missing_at(
    sets: &[List<i32>],
    target: u32,
    fresh: bool,
    code: Code,
    place: Option<u128>,
) -> Option<Missing>
    ensures { MatchOption result (MaybeAsked (codes_of sets.now) target fresh code place) (λ m. Lacks (codes_of sets.now) (λ R. MaybeAsked R target fresh code place) m.to m.code) }
{
    match place {
        None => None,
        Some(place) => missing_asked(sets, target, fresh, code, place),
    }
}

fn missing_in_cell(
    s: &Scope,
    sets: &[List<i32>],
    target: u32,
    fresh: bool,
    gifts: &Gifts,
    cell: Option<u32>,
) -> Option<Missing>
    ensures { MatchOption result (CellAsked (setting s.entry.now) (codes_of sets.now) target fresh (gift_at_in gifts.now) cell) (λ m. Lacks (codes_of sets.now) (λ R. CellAsked (setting s.entry.now) R target fresh (gift_at_in gifts.now) cell) m.to m.code) }
{
    match cell {
        None => None,
        Some(cell) => missing_at(
            sets,
            target,
            fresh,
            settled(gift_at(gifts, u128::from(cell))),
            content_place(s, cell),
        ),
    }
}

/// What the contents of modified cells lack.
fn missing_in_cells(
    s: &Scope,
    sets: &[List<i32>],
    target: u32,
    g: &Proc,
    k: &Codes,
    fresh: bool,
    gifts: &Gifts,
    items: &[Item],
) -> Option<Missing>
    ensures { MatchOption result ((x : ItemValue) → Contains items.now x → CellAsked (setting s.entry.now) (codes_of sets.now) target fresh (gift_at_in gifts.now) (item_target_in (setting s.entry.now) g.now (choice_of (setting s.entry.now) k.entry.now) x)) (λ m. Lacks (codes_of sets.now) (λ R. (x : ItemValue) → Contains items.now x → CellAsked (setting s.entry.now) R target fresh (gift_at_in gifts.now) (item_target_in (setting s.entry.now) g.now (choice_of (setting s.entry.now) k.entry.now) x)) m.to m.code) }
{
    let [item, more @ ..] = items else {
        return None;
    };
    match missing_in_cell(s, sets, target, fresh, gifts, item_target(s, g, k, item)) {
        Some(missing) => Some(missing),
        None => missing_in_cells(s, sets, target, g, k, fresh, gifts, more),
    }
}

/// What the pointers that the call changes lack.
fn missing_given(
    s: &Scope,
    sets: &[List<i32>],
    target: u32,
    into: Option<u128>,
    g: &Proc,
    k: &Codes,
    fresh: bool,
    gifts: &Gifts,
) -> Option<Missing>
    ensures { MatchOption result (GivenHolds (setting s.entry.now) (codes_of sets.now) target into g.now (choice_of (setting s.entry.now) k.entry.now) fresh (gift_at_in gifts.now)) (λ m. Lacks (codes_of sets.now) (λ R. GivenHolds (setting s.entry.now) R target into g.now (choice_of (setting s.entry.now) k.entry.now) fresh (gift_at_in gifts.now)) m.to m.code) }
{
    match missing_at(sets, target, fresh, settled(gift_at(gifts, 0)), into) {
        Some(missing) => Some(missing),
        None => missing_in_cells(
            s,
            sets,
            target,
            g,
            k,
            fresh,
            gifts,
            g.contract.changes.as_slice(),
        ),
    }
}

/// What an alternative asks for, whose codes are all given.
fn missing_after(
    s: &Scope,
    sets: &[List<i32>],
    target: u32,
    into: Option<u128>,
    g: &Proc,
    k: &Codes,
    atoms: &[Atom],
    gifts: &Gifts,
) -> Option<Missing>
    ensures { MatchOption result (AfterHolds (setting s.entry.now) (codes_of sets.now) target into g.now (choice_of (setting s.entry.now) k.entry.now) atoms.now (gift_at_in gifts.now)) (λ m. Lacks (codes_of sets.now) (λ R. AfterHolds (setting s.entry.now) R target into g.now (choice_of (setting s.entry.now) k.entry.now) atoms.now (gift_at_in gifts.now)) m.to m.code) }
{
    if has_false_atom(s, g, k, gifts, atoms) {
        return None;
    }
    missing_given(s, sets, target, into, g, k, has_fresh(atoms), gifts)
}

/// What an alternative asks for, after a walk over the atoms that are left.
fn missing_walked(
    s: &Scope,
    sets: &[List<i32>],
    target: u32,
    into: Option<u128>,
    g: &Proc,
    k: &Codes,
    atoms: &[Atom],
    rest: &[Atom],
    gifts: &Gifts,
) -> Option<Missing>
    ensures { MatchOption result (AfterHolds (setting s.entry.now) (codes_of sets.now) target into g.now (choice_of (setting s.entry.now) k.entry.now) atoms.now (walked (setting s.entry.now) g.now (choice_of (setting s.entry.now) k.entry.now) (gift_at_in gifts.now) rest.now)) (λ m. Lacks (codes_of sets.now) (λ R. AfterHolds (setting s.entry.now) R target into g.now (choice_of (setting s.entry.now) k.entry.now) atoms.now (walked (setting s.entry.now) g.now (choice_of (setting s.entry.now) k.entry.now) (gift_at_in gifts.now) rest.now)) m.to m.code) }
{
    let [atom, more @ ..] = rest else {
        return missing_after(s, sets, target, into, g, k, atoms, gifts);
    };
    match gift_by(s, g, k, gifts, atom) {
        None => missing_walked(s, sets, target, into, g, k, atoms, more, gifts),
        Some(gift) => missing_walked(
            s,
            sets,
            target,
            into,
            g,
            k,
            atoms,
            more,
            &Gifts::Given {
                gift,
                rest: &*gifts,
            },
        ),
    }
}

fn missing_alternative(
    s: &Scope,
    sets: &[List<i32>],
    target: u32,
    into: Option<u128>,
    g: &Proc,
    k: &Codes,
    atoms: &[Atom],
) -> Option<Missing>
    ensures { MatchOption result (AlternativeHolds (setting s.entry.now) (codes_of sets.now) target into g.now (choice_of (setting s.entry.now) k.entry.now) atoms.now) (λ m. Lacks (codes_of sets.now) (λ R. AlternativeHolds (setting s.entry.now) R target into g.now (choice_of (setting s.entry.now) k.entry.now) atoms.now) m.to m.code) }
{
    missing_walked(s, sets, target, into, g, k, atoms, atoms, &Gifts::Done)
}

/// What the alternatives of ensures ask for.
fn missing_each(
    s: &Scope,
    sets: &[List<i32>],
    target: u32,
    into: Option<u128>,
    g: &Proc,
    k: &Codes,
    gives: &[List<Atom>],
) -> Option<Missing>
    ensures { MatchOption result ((atoms : Items AtomValue) → Contains gives.now atoms → AlternativeHolds (setting s.entry.now) (codes_of sets.now) target into g.now (choice_of (setting s.entry.now) k.entry.now) atoms) (λ m. Lacks (codes_of sets.now) (λ R. (atoms : Items AtomValue) → Contains gives.now atoms → AlternativeHolds (setting s.entry.now) R target into g.now (choice_of (setting s.entry.now) k.entry.now) atoms) m.to m.code) }
{
    let [atoms, more @ ..] = gives else {
        return None;
    };
    match missing_alternative(s, sets, target, into, g, k, atoms.as_slice()) {
        Some(missing) => Some(missing),
        None => missing_each(s, sets, target, into, g, k, more),
    }
}

fn has_none(gives: &[List<Atom>]) -> bool
    ensures { MatchBool result (gives.now ≡ []) (gives.now ≡ [] → ⊥) }
{
    match gives {
        [] => true,
        _ => false,
    }
}

fn missing_in_ensures(
    s: &Scope,
    sets: &[List<i32>],
    target: u32,
    into: Option<u128>,
    g: &Proc,
    k: &Codes,
    gives: &[List<Atom>],
) -> Option<Missing>
    ensures { MatchOption result ((atoms : Items AtomValue) → Contains (alternatives_of gives.now) atoms → AlternativeHolds (setting s.entry.now) (codes_of sets.now) target into g.now (choice_of (setting s.entry.now) k.entry.now) atoms) (λ m. Lacks (codes_of sets.now) (λ R. (atoms : Items AtomValue) → Contains (alternatives_of gives.now) atoms → AlternativeHolds (setting s.entry.now) R target into g.now (choice_of (setting s.entry.now) k.entry.now) atoms) m.to m.code) }
{
    if has_none(gives) {
        missing_alternative(s, sets, target, into, g, k, &[])
    } else {
        missing_each(s, sets, target, into, g, k, gives)
    }
}

/// What a choice asks for.
fn missing_in_choice(
    s: &Scope,
    sets: &[List<i32>],
    target: u32,
    into: Option<u128>,
    g: &Proc,
    k: &Codes,
) -> Option<Missing>
    ensures { MatchOption result (ChoiceHolds (setting s.entry.now) (codes_of sets.now) target into g.now (choice_of (setting s.entry.now) k.entry.now)) (λ m. Lacks (codes_of sets.now) (λ R. ChoiceHolds (setting s.entry.now) R target into g.now (choice_of (setting s.entry.now) k.entry.now)) m.to m.code) }
{
    if is_failing(s, g, k) {
        None
    } else {
        missing_in_ensures(s, sets, target, into, g, k, g.contract.gives.as_slice())
    }
}

// ---- choices

/// A cell that has no pick yet.
fn new_cell(cells: &Picks, cell: Option<u32>) -> Option<u32>
    ensures { result ≡ new_cell_in cells.now cell }
{
    match cell {
        None => None,
        Some(cell) => {
            if has_pick(cells, u128::from(cell)) {
                None
            } else {
                Some(cell)
            }
        }
    }
}

/// The codes of what a target holds.
fn cell_codes<'a>(s: &Scope, sets: &'a [List<i32>], cell: u32) -> &'a [i32]
    ensures { row_codes result.now ≡ codes_of_place (codes_of sets.now) (content_place_of (setting s.entry.now) cell) }
{
    match content_place(s, cell) {
        None => &[],
        Some(place) => set_at(sets, place),
    }
}

/// What goes on from picks for the formals and for some cells, with those of listed globals still ahead.
fn missing_in_listed(
    s: &Scope,
    sets: &[List<i32>],
    target: u32,
    into: Option<u128>,
    g: &Proc,
    formals: &Picks,
    rest: &[Bytes],
    cells: &Picks,
) -> Option<Missing>
    requires ahead { CellsAhead (setting s.now) g.now (pick_at_in formals.now) (listed_ahead (setting s.now) rest.now) cells.now }
    ensures { MatchOption result (CellsOver (setting s.entry.now) (codes_of sets.now) target into g.now (pick_at_in formals.now) cells.now) (λ m. Lacks (codes_of sets.now) (λ R. CellsOver (setting s.entry.now) R target into g.now (pick_at_in formals.now) cells.now) m.to m.code) }
{
    let [name, more @ ..] = rest else {
        return missing_in_choice(
            s,
            sets,
            target,
            into,
            g,
            &Codes::Picked {
                formals: &*formals,
                cells: &*cells,
            },
        );
    };
    match new_cell(cells, listed_cell(s, name)) {
        None => missing_in_listed(s, sets, target, into, g, formals, more, cells),
        Some(cell) => {
            for number in cell_codes(s, sets, cell) {
                let picked = Picks::Pick {
                    key: cell as u128,
                    code: code_of(*number),
                    rest: &*cells,
                };
                match missing_in_listed(s, sets, target, into, g, formals, more, &picked) {
                    None => {}
                    Some(missing) => return Some(missing),
                }
            }
            None
        }
    }
}

/// The cell of a formal with its pick.
fn starred_at(kind: VarKind, formals: &Picks, number: usize) -> Option<u32>
    ensures { result ≡ starred_cell_of kind (pick_at_in formals.now number) }
{
    starred_cell(kind, pick_at(formals, number as u128))
}

/// What goes on from picks for the formals and for some cells, with those of `pptr` formals still ahead.
fn missing_in_starred(
    s: &Scope,
    sets: &[List<i32>],
    target: u32,
    into: Option<u128>,
    g: &Proc,
    formals: &Picks,
    rest: &[Formal],
    number: usize,
    cells: &Picks,
) -> Option<Missing>
    requires ahead { CellsAhead (setting s.now) g.now (pick_at_in formals.now) (starred_ahead (setting s.now) g.now (pick_at_in formals.now) number rest.now) cells.now }
    requires small { number + length rest.now ≤ length g.now.formals }
    ensures { MatchOption result (CellsOver (setting s.entry.now) (codes_of sets.now) target into g.now (pick_at_in formals.now) cells.now) (λ m. Lacks (codes_of sets.now) (λ R. CellsOver (setting s.entry.now) R target into g.now (pick_at_in formals.now) cells.now) m.to m.code) }
{
    let [formal, more @ ..] = rest else {
        return missing_in_listed(
            s,
            sets,
            target,
            into,
            g,
            formals,
            g.contract.listed.as_slice(),
            cells,
        );
    };
    let _count = g.formals.len();
    let next = number + 1;
    match new_cell(cells, starred_at(formal.kind, formals, number)) {
        None => missing_in_starred(s, sets, target, into, g, formals, more, next, cells),
        Some(cell) => {
            for number in cell_codes(s, sets, cell) {
                let picked = Picks::Pick {
                    key: cell as u128,
                    code: code_of(*number),
                    rest: &*cells,
                };
                match missing_in_starred(s, sets, target, into, g, formals, more, next, &picked) {
                    None => {}
                    Some(missing) => return Some(missing),
                }
            }
            None
        }
    }
}

/// The codes that an argument can have.
fn argument_codes<'a>(s: &Scope, sets: &'a [List<i32>], argument: Option<&AnyOperand>) -> &'a [i32]
    ensures { row_codes result.now ≡ argument_codes_in (setting s.entry.now) (codes_of sets.now) (option_copied argument.entry) }
{
    match argument {
        None => &[],
        Some(argument) => match argument {
            AnyOperand::Null => &[0],
            AnyOperand::Operand(operand) => match operand {
                Operand::Number(_) => &[],
                Operand::Var(name) => match variable_number(s.f, name) {
                    None => &[],
                    Some(place) => set_at(sets, place),
                },
            },
        },
    }
}

/// What goes on from picks for the first formals.
fn missing_in_formals(
    s: &Scope,
    sets: &[List<i32>],
    target: u32,
    into: Option<u128>,
    g: &Proc,
    args: &List<AnyOperand>,
    rest: &[Formal],
    number: usize,
    formals: &Picks,
) -> Option<Missing>
    requires ahead { FormalsAhead g.now rest.now number formals.now }
    requires small { number + length rest.now ≤ length g.now.formals }
    ensures { MatchOption result (FormalsOver (setting s.entry.now) (codes_of sets.now) target into g.now args.now formals.now) (λ m. Lacks (codes_of sets.now) (λ R. FormalsOver (setting s.entry.now) R target into g.now args.now formals.now) m.to m.code) }
{
    let [formal, more @ ..] = rest else {
        return missing_in_starred(
            s,
            sets,
            target,
            into,
            g,
            formals,
            g.formals.as_slice(),
            0,
            &Picks::Done,
        );
    };
    let _count = g.formals.len();
    let next = number + 1;
    if !is_pointer_kind(formal.kind) {
        return missing_in_formals(s, sets, target, into, g, args, more, next, formals);
    }
    for code in argument_codes(s, sets, args.get(number)) {
        let picked = Picks::Pick {
            key: number as u128,
            code: code_of(*code),
            rest: &*formals,
        };
        match missing_in_formals(s, sets, target, into, g, args, more, next, &picked) {
            None => {}
            Some(missing) => return Some(missing),
        }
    }
    None
}

/// What a call asks for; nothing where it changes no pointer, so that its choices aren't gone through.
fn missing_in_callee(
    s: &Scope,
    sets: &[List<i32>],
    target: u32,
    into: Option<u128>,
    args: &List<AnyOperand>,
    g: &Proc,
) -> Option<Missing>
    ensures { MatchOption result (CalleeHolds (setting s.entry.now) (codes_of sets.now) target into args.now (Some g.now)) (λ m. Lacks (codes_of sets.now) (λ R. CalleeHolds (setting s.entry.now) R target into args.now (Some g.now)) m.to m.code) }
{
    if !changes_pointer(s, g, into) {
        return None;
    }
    missing_in_formals(
        s,
        sets,
        target,
        into,
        g,
        args,
        g.formals.as_slice(),
        0,
        &Picks::Done,
    )
}

fn missing_in_procedure(
    s: &Scope,
    sets: &[List<i32>],
    target: u32,
    into: Option<u128>,
    name: &Bytes,
    args: &List<AnyOperand>,
) -> Option<Missing>
    ensures { MatchOption result (CalleeHolds (setting s.entry.now) (codes_of sets.now) target into args.now (callee_in s.entry.now.p.now name.now)) (λ m. Lacks (codes_of sets.now) (λ R. CalleeHolds (setting s.entry.now) R target into args.now (callee_in s.entry.now.p.now name.now)) m.to m.code) }
{
    match callee(s.p, name) {
        None => None,
        Some(g) => missing_in_callee(s, sets, target, into, args, g),
    }
}

/// What a call asks for, but for the older objects of its target.
pub(crate) fn missing_in_call(
    s: &Scope,
    sets: &[List<i32>],
    target: u32,
    into: Option<u128>,
    name: &Bytes,
    args: &List<AnyOperand>,
) -> Option<Missing>
    ensures { MatchOption result (CallHolds (setting s.entry.now) (codes_of sets.now) target into name.now args.now) (λ m. Lacks (codes_of sets.now) (λ R. CallHolds (setting s.entry.now) R target into name.now args.now) m.to m.code) }
{
    if is_malloc_name(name.as_slice()) {
        missing_malloc(sets, target, into)
    } else {
        missing_in_procedure(s, sets, target, into, name, args)
    }
}
