//! The codes under a choice of what a contract's names stand for.
ghost use Rattle.std.specs.Prelude.{◌≡◌, ◌||◌, filter, length, option_copied, take};
ghost use Rattle.std.specs.List.{list_any};
ghost use Rattle.cv_core.specs.Names.{is_pointer_kind as pointer_kind, place_of};
ghost use Rattle.cv_ppts.specs.Choices.{can_be_cell as can_be_cell_of, changes_pointer as changes_pointer_of, formal_at as formal_at_of, is_cell_formal as is_cell_formal_of, is_cell_kind as is_cell_kind_of, cell_from as cell_from_of, cell_of as cell_of_path, code_before as code_before_path, code_of_name as code_of_name_in, earlier_cells as earlier_cells_of, earlier_pointers as earlier_pointers_of, has_unknown_formal as has_unknown_formal_in, held_by as held_by_in, is_cell_class as is_cell_class_of, is_content_name as is_content_name_of, is_failing as is_failing_in, is_modified as is_modified_in, is_permitted as is_permitted_in, is_refused as is_refused_in, is_target as is_target_of, is_unknown as is_unknown_code, is_unknown_cell as is_unknown_cell_in, is_unknown_formal as is_unknown_formal_in, item_target as item_target_in, listed_cell as listed_cell_of, named_code as named_code_in, target_of as target_of_code, object_of as object_of_code, starred_cell as starred_cell_of};
ghost use Rattle.cv_ppts.specs.Entities.{is_member as is_member_of};
ghost use Rattle.cv_ppts.specs.Keys.{setting};
ghost use Rattle.cv_ppts.specs.Named.{seen_path};
ghost use Rattle.cv_ppts.specs.Picked.{choice_of, has_pick as has_pick_in, pick_at as pick_at_in};

use crate::allowed::{code_at, formal_count};
use crate::blocks::same_class;
use crate::code::Code;
use crate::entities::Class;
use crate::named::{class_of_global_number, global_number};
use crate::numbers::entity_code;
use crate::path::{Path, path_of};
use crate::scope::{block_count, cell_blocks, content_codes, global_code, literal_codes};
use crate::setting::Scope;
use cv_core::{Bytes, Formal, Item, Proc, VarKind, is_pointer_kind};

/// Codes that were picked, by key, the latest first.
#[derive(Clone, Copy)]
pub(crate) enum Picks<'a> {
    Done,
    Pick {
        key: u128,
        code: Code,
        rest: &'a Picks<'a>,
    },
}

/// Codes of a procedure's formals, by number, and of what pointer cells hold, by target.
#[derive(Clone, Copy)]
pub(crate) enum Codes<'a> {
    /// Those with which the running procedure is entered.
    Entry,
    /// Those that were picked at a call.
    Picked {
        formals: &'a Picks<'a>,
        cells: &'a Picks<'a>,
    },
}

/// The code that was picked for a key; the unknown one where none was.
pub(crate) fn pick_at(picks: &Picks, key: u128) -> Code
    ensures { result ≡ pick_at_in picks.now key }
{
    match picks {
        Picks::Done => Code::Unknown,
        Picks::Pick { key: k, code, rest } => { if *k == key { *code } else { pick_at(rest, key) } }
    }
}

/// Whether a code was picked for a key.
pub(crate) fn has_pick(picks: &Picks, key: u128) -> bool
    ensures { result ≡ has_pick_in picks.now key }
{
    match picks {
        Picks::Done => false,
        Picks::Pick { key: k, rest, .. } => { if *k == key { true } else { has_pick(rest, key) } }
    }
}

/// How many pointers stand among the first formals.
fn earlier_pointers(formals: &[Formal], number: usize) -> usize
    ensures { result ≡ length (filter (λ x. pointer_kind x.kind) (take number formals.now)) }
{
    if number < formals.len() {
        formal_count(&formals[..number])
    } else {
        formal_count(formals)
    }
}

/// How many blocks of pointer cells stand before a block.
fn earlier_cells(s: &Scope, target: u32) -> u32
    ensures { result ≡ earlier_cells_of (setting s.entry.now) target }
{
    if target == 0 || target > block_count(s) {
        0
    } else {
        cell_blocks(s, target - 1)
    }
}

/// The code of the formal of a number.
pub(crate) fn formal_code(s: &Scope, k: &Codes, number: usize) -> Code
    ensures { result ≡ (choice_of (setting s.entry.now) k.entry.now).formal number }
{
    match k {
        Codes::Entry => entity_code(code_at(
            s.codes,
            Some(earlier_pointers(s.f.formals.as_slice(), number)),
        )),
        Codes::Picked { formals, .. } => pick_at(formals, number as u128),
    }
}

/// The code of what the cell of a target holds.
fn cell_code(s: &Scope, k: &Codes, target: u32) -> Code
    ensures { result ≡ (choice_of (setting s.entry.now) k.entry.now).cell target }
{
    match k {
        Codes::Entry => entity_code(code_at(
            content_codes(s),
            Some(earlier_cells(s, target) as usize),
        )),
        Codes::Picked { cells, .. } => pick_at(cells, u128::from(target)),
    }
}

/// The target of a code.
pub(crate) fn target_of(code: Code) -> Option<u32>
    ensures { result ≡ target_of_code code }
{
    match code {
        Code::Target(target) => Some(target),
        Code::Unknown => None,
        Code::Null => None,
        Code::New => None,
    }
}

fn formal_place(formals: &[Formal], name: &[u8]) -> Option<usize>
    ensures { result ≡ place_of (λ x. x.name) name.now formals.now }
{
    formals.iter().position(|x| x.name.as_slice() == name)
}

/// The number of the first formal of a name.
fn formal_named(g: &Proc, name: &Bytes) -> Option<usize>
    ensures { result ≡ place_of (λ x. x.name) name.now g.now.formals }
{
    formal_place(g.formals.as_slice(), name.as_slice())
}

/// The code of a formal, else the block of a global.
pub(crate) fn code_of_name(s: &Scope, g: &Proc, k: &Codes, x: &Bytes) -> Code
    ensures { result ≡ code_of_name_in (setting s.entry.now) g.now (choice_of (setting s.entry.now) k.entry.now) x.now }
{
    match formal_named(g, x) {
        Some(number) => formal_code(s, k, number),
        None => entity_code(global_code(s, global_number(s.p, x))),
    }
}

/// Whether a global is a pointer cell.
fn is_cell_class(s: &Scope, number: Option<usize>) -> bool
    ensures { result ≡ is_cell_class_of number (setting s.entry.now) }
{
    match number {
        None => false,
        Some(number) => same_class(class_of_global_number(s.p, number), Class::PointerCell),
    }
}

fn cell_from(s: &Scope, formal: Option<usize>, global: Option<usize>) -> Option<u32>
    ensures { result ≡ cell_from_of (setting s.entry.now) formal global }
{
    match formal {
        Some(_) => None,
        None => {
            if is_cell_class(s, global) {
                target_of(entity_code(global_code(s, global)))
            } else {
                None
            }
        }
    }
}

/// The cell of a listed pointer global.
pub(crate) fn listed_cell(s: &Scope, x: &Bytes) -> Option<u32>
    ensures { result ≡ listed_cell_of (setting s.entry.now) x.now }
{
    cell_from(s, None, global_number(s.p, x))
}

/// The cell whose content a pointer of the contract is.
pub(crate) fn cell_of(s: &Scope, g: &Proc, k: &Codes, path: Path) -> Option<u32>
    ensures { result ≡ cell_of_path (setting s.entry.now) g.now (choice_of (setting s.entry.now) k.entry.now) (seen_path path.entry) }
{
    match path {
        Path::Named(x) => cell_from(s, formal_named(g, x), global_number(s.p, x)),
        Path::Starred(w) => target_of(code_of_name(s, g, k, w)),
        Path::Answered => None,
    }
}

fn held_by(s: &Scope, k: &Codes, cell: Option<u32>) -> Option<Code>
    ensures { result ≡ held_by_in (choice_of (setting s.entry.now) k.entry.now) cell }
{
    match cell {
        None => None,
        Some(target) => Some(cell_code(s, k, target)),
    }
}

fn is_content_name(s: &Scope, formal: Option<usize>, global: Option<usize>) -> bool
    ensures { result ≡ is_content_name_of (setting s.entry.now) formal global }
{
    match formal {
        Some(_) => false,
        None => is_cell_class(s, global),
    }
}

fn named_code(s: &Scope, g: &Proc, k: &Codes, x: &Bytes) -> Option<Code>
    ensures { result ≡ named_code_in (setting s.entry.now) g.now (choice_of (setting s.entry.now) k.entry.now) x.now }
{
    let formal = formal_named(g, x);
    let global = global_number(s.p, x);
    if is_content_name(s, formal, global) {
        held_by(s, k, cell_from(s, formal, global))
    } else {
        Some(code_of_name(s, g, k, x))
    }
}

/// The code of a pointer before the call; None for a `*w` that is undefined, and for the result.
pub(crate) fn code_before(s: &Scope, g: &Proc, k: &Codes, path: Path) -> Option<Code>
    ensures { result ≡ code_before_path (setting s.entry.now) g.now (choice_of (setting s.entry.now) k.entry.now) (seen_path path.entry) }
{
    match path {
        Path::Named(x) => named_code(s, g, k, x),
        Path::Starred(w) => held_by(s, k, target_of(code_of_name(s, g, k, w))),
        Path::Answered => None,
    }
}

fn object_of(code: Option<Code>) -> Option<u32>
    ensures { result ≡ object_of_code code }
{
    match code {
        None => None,
        Some(code) => target_of(code),
    }
}

/// The target with the object that a modifies item names.
pub(crate) fn item_target(s: &Scope, g: &Proc, k: &Codes, item: &Item) -> Option<u32>
    ensures { result ≡ item_target_in (setting s.entry.now) g.now (choice_of (setting s.entry.now) k.entry.now) item.now }
{
    match item {
        Item::Body(t) => object_of(code_before(s, g, k, path_of(t))),
        Item::Star(w) => target_of(code_of_name(s, g, k, w)),
        Item::Name(x) => target_of(code_of_name(s, g, k, x)),
    }
}

// ---- whether a call changes a pointer

fn is_cell_kind(kind: VarKind) -> bool
    ensures { result ≡ is_cell_kind_of kind }
{
    matches!(kind, VarKind::Pptr)
}

fn is_cell_formal(formal: Option<&Formal>) -> bool
    ensures { result ≡ is_cell_formal_of (option_copied formal.entry) }
{
    match formal {
        None => false,
        Some(formal) => is_cell_kind(formal.kind),
    }
}

fn formal_at(g: &Proc, number: Option<usize>) -> Option<&Formal>
    ensures { option_copied result ≡ formal_at_of g.now number }
{
    match number {
        None => None,
        Some(number) => g.formals.get(number),
    }
}

/// Whether a modifies item can be a pointer cell.
fn can_be_cell(s: &Scope, g: &Proc, item: &Item) -> bool
    ensures { result ≡ can_be_cell_of (setting s.entry.now) g.now item.now }
{
    match item {
        Item::Body(_) => false,
        Item::Star(w) => is_cell_formal(formal_at(g, formal_named(g, w))),
        Item::Name(x) => is_cell_class(s, global_number(s.p, x)),
    }
}

/// Whether a call with this place of its destination changes a pointer.
pub(crate) fn changes_pointer(s: &Scope, g: &Proc, into: Option<u128>) -> bool
    ensures { result ≡ changes_pointer_of (setting s.entry.now) g.now into }
{
    into.is_some() || some_cell(s, g, g.contract.changes.as_slice())
}

fn some_cell(s: &Scope, g: &Proc, items: &[Item]) -> bool
    ensures { result ≡ list_any (can_be_cell_of (setting s.entry.now) g.now) items.now }
{
    let mut rest = items;
    while let [item, tail @ ..] = rest {
        if can_be_cell(s, g, item) {
            return true;
        }
        rest = tail;
    }
    false
}

// ---- items

fn is_target(target: u32, other: Option<u32>) -> bool
    ensures { result ≡ is_target_of target other }
{
    match other {
        None => false,
        Some(other) => other == target,
    }
}

fn is_item_of(s: &Scope, g: &Proc, k: &Codes, items: &[Item], target: u32) -> bool
    ensures { result ≡ list_any (λ i. is_target_of target (item_target_in (setting s.entry.now) g.now (choice_of (setting s.entry.now) k.entry.now) i)) items.now }
{
    let mut rest = items;
    while let [item, tail @ ..] = rest {
        if is_target(target, item_target(s, g, k, item)) {
            return true;
        }
        rest = tail;
    }
    false
}

/// Whether some modifies item names the object of a target.
pub(crate) fn is_modified(s: &Scope, g: &Proc, k: &Codes, target: u32) -> bool
    ensures { result ≡ is_modified_in (setting s.entry.now) g.now (choice_of (setting s.entry.now) k.entry.now) target }
{
    is_item_of(s, g, k, g.contract.changes.as_slice(), target)
}

/// Whether the running procedure may change the object of a target.
fn is_permitted(s: &Scope, target: u32) -> bool
    ensures { result ≡ is_permitted_in (setting s.entry.now) target }
{
    block_count(s) < target || is_modified(s, s.f, &Codes::Entry, target)
}

fn is_block_of(target: u32, blocks: &[u32]) -> bool
    ensures { result ≡ is_member_of target blocks.now }
{
    blocks.iter().any(|b| *b == target)
}

/// Whether a call may not modify the object.
fn is_refused(s: &Scope, target: Option<u32>) -> bool
    ensures { result ≡ is_refused_in (setting s.entry.now) target }
{
    match target {
        None => false,
        Some(target) => is_block_of(target, literal_codes(s)) || !is_permitted(s, target),
    }
}

fn some_refused(s: &Scope, g: &Proc, k: &Codes, items: &[Item]) -> bool
    ensures { result ≡ list_any (λ i. is_refused_in (setting s.entry.now) (item_target_in (setting s.entry.now) g.now (choice_of (setting s.entry.now) k.entry.now) i)) items.now }
{
    let mut rest = items;
    while let [item, tail @ ..] = rest {
        if is_refused(s, item_target(s, g, k, item)) {
            return true;
        }
        rest = tail;
    }
    false
}

// ---- choices that fail

/// The cell of a formal with a code.
pub(crate) fn starred_cell(kind: VarKind, code: Code) -> Option<u32>
    ensures { result ≡ starred_cell_of kind code }
{
    match kind {
        VarKind::Pptr => target_of(code),
        VarKind::Int => None,
        VarKind::Char => None,
        VarKind::Ptr => None,
        VarKind::Iptr => None,
    }
}

fn is_unknown(code: Code) -> bool
    ensures { result ≡ is_unknown_code code }
{
    matches!(code, Code::Unknown)
}

fn is_unknown_cell(s: &Scope, k: &Codes, cell: Option<u32>) -> bool
    ensures { result ≡ is_unknown_cell_in (choice_of (setting s.entry.now) k.entry.now) cell }
{
    match cell {
        None => false,
        Some(target) => is_unknown(cell_code(s, k, target)),
    }
}

fn is_unknown_formal(s: &Scope, k: &Codes, kind: VarKind, number: usize) -> bool
    ensures { result ≡ is_unknown_formal_in (choice_of (setting s.entry.now) k.entry.now) kind number }
{
    let code = formal_code(s, k, number);
    (is_pointer_kind(kind) && is_unknown(code)) || is_unknown_cell(s, k, starred_cell(kind, code))
}

fn has_unknown_formal(s: &Scope, k: &Codes, formals: &[Formal]) -> bool
    ensures { result ≡ has_unknown_formal_in (choice_of (setting s.entry.now) k.entry.now) 0 formals.now }
{
    let mut rest = formals;
    let mut number: usize = 0;
    while let [formal, tail @ ..] = rest {
        if is_unknown_formal(s, k, formal.kind, number) {
            return true;
        }
        number += 1;
        rest = tail;
    }
    false
}

fn has_unknown_listed(s: &Scope, k: &Codes, names: &[Bytes]) -> bool
    ensures { result ≡ list_any (λ x. is_unknown_cell_in (choice_of (setting s.entry.now) k.entry.now) (listed_cell_of (setting s.entry.now) x)) names.now }
{
    let mut rest = names;
    while let [name, tail @ ..] = rest {
        if is_unknown_cell(s, k, listed_cell(s, name)) {
            return true;
        }
        rest = tail;
    }
    false
}

/// Whether nothing is known of a pointer that the contract names, or an item may not be modified.
pub(crate) fn is_failing(s: &Scope, g: &Proc, k: &Codes) -> bool
    ensures { result ≡ is_failing_in (setting s.entry.now) g.now (choice_of (setting s.entry.now) k.entry.now) }
{
    let formals = has_unknown_formal(s, k, g.formals.as_slice());
    let listed = has_unknown_listed(s, k, g.contract.listed.as_slice());
    let refused = some_refused(s, g, k, g.contract.changes.as_slice());
    formals || listed || refused
}
