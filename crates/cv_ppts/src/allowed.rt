//! Whether the codes of a case go with the procedure's contract.
ghost use Rattle.std.specs.Prelude.{◌≡◌, ◌+◌, Some, drop, length, nat_eq, position, slice_index_or, suc, take};
ghost use Rattle.std.specs.List.{count_by, filter, list_any};
ghost use Rattle.cv_core.specs.Names.{is_pointer_kind as pointer_kind, place_of};
ghost use Rattle.cv_ppts.specs.Allowed as spec;
ghost use Rattle.cv_ppts.specs.Named.{seen_path};
ghost use Rattle.cv_ppts.specs.Seen.{scene};

use crate::blocks::{is_member, same_class};
use crate::code::Code;
use crate::entities::{Block, Class};
use crate::named::{class_named, global_number};
use crate::numbers::entity_code;
use crate::path::{Path, path_of};
use crate::status::{ReadCodes, Status, status_of};
use cv_core::{Atom, Bytes, Formal, Item, Proc, Program, is_pointer_kind};

/// A case as a contract at entry sees it.
#[derive(Drop)]
pub(crate) struct View<'a> {
    pub p: &'a Program,
    pub f: &'a Proc,
    /// The listed globals by number.
    pub listed: &'a [u32],
    /// How many entities are no contents.
    pub named: usize,
    pub blocks: &'a [Block],
    /// The codes of all entities, or of the first of them.
    pub codes: &'a [u32],
}

/// The number of the first of the pointer formals that has the name.
pub(crate) fn formal_number(formals: &[Formal], name: &[u8]) -> Option<usize>
    ensures { result ≡ place_of (λ x. x.name) name.now (filter (λ x. pointer_kind x.kind) formals.now) }
{
    formals
        .iter()
        .filter(|x| is_pointer_kind(x.kind))
        .position(|x| x.name.as_slice() == name)
}

/// How many of the formals are pointers.
pub(crate) fn formal_count(formals: &[Formal]) -> usize
    ensures { result ≡ length (filter (λ x. pointer_kind x.kind) formals.now) }
{
    formals.iter().filter(|x| is_pointer_kind(x.kind)).count()
}

fn place_among(numbers: &[u32], number: usize) -> Option<usize>
    ensures { result ≡ position (λ m. nat_eq m number) numbers.now }
{
    numbers.iter().position(|m| *m as usize == number)
}

pub(crate) fn number_among(numbers: &[u32], number: Option<usize>) -> Option<usize>
    ensures { result ≡ spec.number_among numbers.now number }
{
    match number {
        None => None,
        Some(number) => place_among(numbers, number),
    }
}

pub(crate) fn code_at(codes: &[u32], number: Option<usize>) -> u32
    ensures { result ≡ spec.code_at codes.now number }
{
    match number {
        None => 0,
        Some(number) => match codes.get(number) {
            None => 0,
            Some(code) => *code,
        },
    }
}

/// The code at a place behind the first ones.
pub(crate) fn code_behind(codes: &[u32], first: usize, number: usize) -> u32
    ensures { result ≡ slice_index_or codes.now (first + number) 0 }
{
    if first > codes.len() || number >= codes.len() - first {
        return 0;
    }
    codes[first + number]
}

/// The code of an entity by its place; unknown where it has none yet.
fn code_of_entity(codes: &[u32], place: usize) -> Code
    ensures { result ≡ spec.code_of_entity codes.now (Some place) }
{
    match codes.get(place) {
        None => Code::Unknown,
        Some(code) => entity_code(*code),
    }
}

/// The code of the entity that has so many before a place; unknown where it has none yet.
fn code_of_entity_behind(codes: &[u32], first: usize, number: usize) -> Code
    ensures { result ≡ spec.code_of_entity codes.now (Some (first + number)) }
{
    if first > codes.len() || number >= codes.len() - first {
        return Code::Unknown;
    }
    entity_code(codes[first + number])
}

/// The code of the entity that has a name; null where none has it.
fn code_of_name(v: &View, x: &Bytes) -> Code
    ensures { result ≡ spec.code_of_name (scene v.entry.now) x.now }
{
    let formals = v.f.formals.as_slice();
    match formal_number(formals, x.as_slice()) {
        Some(number) => code_of_entity(v.codes, number),
        None => match number_among(v.listed, global_number(v.p, x)) {
            None => Code::Null,
            Some(number) => code_of_entity_behind(v.codes, formal_count(formals), number),
        },
    }
}

/// How many of the blocks are of pointer cells.
fn cell_blocks(blocks: &[Block]) -> usize
    ensures { result ≡ count_by spec.is_cell_block blocks.now }
{
    blocks
        .iter()
        .filter(|b| same_class(b.class, Class::PointerCell))
        .count()
}

/// The code of what a block by its place holds; unknown where there is no such block yet.
fn code_of_block_content(v: &View, block: usize) -> Code
    ensures { result ≡ spec.code_of_content (scene v.entry.now) (Code.Target (suc block)) }
{
    if block >= v.blocks.len() {
        return Code::Unknown;
    }
    code_of_entity_behind(v.codes, v.named, cell_blocks(&v.blocks[..block]))
}

/// The code of what the block with a code holds.
fn code_of_content(v: &View, code: Code) -> Code
    ensures { result ≡ spec.code_of_content (scene v.entry.now) code }
{
    match code {
        Code::Unknown => Code::Unknown,
        Code::Null => Code::Null,
        Code::Target(block) => {
            if block == 0 {
                Code::Null
            } else {
                code_of_block_content(v, (block - 1) as usize)
            }
        }
        Code::New => Code::Null,
    }
}

/// Whether a name is that of a global that is a pointer cell.
fn is_pointer_global(v: &View, x: &Bytes) -> bool
    ensures { result ≡ spec.is_pointer_global (scene v.entry.now) x.now }
{
    same_class(class_named(v.p, x), Class::PointerCell)
}

fn named_code(v: &View, x: &Bytes) -> Code
    ensures { result ≡ spec.named_code (scene v.entry.now) x.now }
{
    let code = code_of_name(v, x);
    if is_pointer_global(v, x) {
        code_of_content(v, code)
    } else {
        code
    }
}

fn starred_code(v: &View, code: Code) -> Option<Code>
    ensures { result ≡ spec.starred_code (scene v.entry.now) code }
{
    match code {
        Code::Unknown => Some(code_of_content(v, code)),
        Code::Null => None,
        Code::Target(_) => Some(code_of_content(v, code)),
        Code::New => Some(code_of_content(v, code)),
    }
}

/// The code of a pointer at entry; None where it is undefined.
fn pointer_code(v: &View, path: Path) -> Option<Code>
    ensures { result ≡ spec.pointer_code (scene v.entry.now) (seen_path path.entry) }
{
    match path {
        Path::Named(x) => Some(named_code(v, x)),
        Path::Starred(w) => starred_code(v, code_of_name(v, w)),
        Path::Answered => None,
    }
}

fn defined_by(code: Code) -> Status
    ensures { result ≡ spec.defined_by code }
{
    match code {
        Code::Unknown => Status::Unknown,
        Code::Null => Status::False,
        Code::Target(_) => Status::Known,
        Code::New => Status::Known,
    }
}

fn number_status(v: &View, path: Path) -> Status
    ensures { result ≡ spec.number_status (scene v.entry.now) (seen_path path.entry) }
{
    match path {
        Path::Named(_) => Status::Known,
        Path::Starred(i) => defined_by(code_of_name(v, i)),
        Path::Answered => Status::Known,
    }
}

impl<'a> ReadCodes for View<'a> {
    ghost use Rattle.cv_ppts.specs.Allowed.{codes_at_entry};
    ghost use Rattle.cv_ppts.specs.Seen.{scene};

    ghost codes = { λ v. codes_at_entry (scene v) };

    fn code(&self, _before: bool, path: Path) -> Option<Code> {
        pointer_code(self, path)
    }

    fn number(&self, path: Path) -> Status {
        number_status(self, path)
    }

    fn dies(&self, _code: Code) -> bool {
        false
    }

    fn is_made(&self, _code: Code) -> bool {
        false
    }
}

/// Whether an atom is false by the codes.
fn is_false_atom(v: &View, a: &Atom) -> bool
    ensures { result ≡ spec.is_false_atom (scene v.entry.now) a.now }
{
    match status_of(v, false, a) {
        Status::False => true,
        Status::Unknown => false,
        Status::Known => false,
    }
}

fn has_false_atom(v: &View, atoms: &[Atom]) -> bool
    ensures { result ≡ list_any (spec.is_false_atom (scene v.entry.now)) atoms.now }
{
    let mut rest = atoms;
    while let [atom, tail @ ..] = rest {
        if is_false_atom(v, atom) {
            return true;
        }
        rest = tail;
    }
    false
}

/// The code of the pointer to the object that a modifies item names.
fn item_code(v: &View, item: &Item) -> Option<Code>
    ensures { result ≡ spec.item_code (scene v.entry.now) item.now }
{
    match item {
        Item::Body(p) => pointer_code(v, path_of(p)),
        Item::Star(w) => Some(code_of_name(v, w)),
        Item::Name(x) => Some(code_of_name(v, x)),
    }
}

fn is_among(blocks: &[u32], code: Option<Code>) -> bool
    ensures { result ≡ spec.is_among blocks.now code }
{
    match code {
        Some(Code::Target(block)) => is_member(block, blocks),
        _ => false,
    }
}

/// Whether an item names the object of a literal.
fn is_changed_literal(v: &View, literals: &[u32], item: &Item) -> bool
    ensures { result ≡ spec.is_changed_literal (scene v.entry.now) literals.now item.now }
{
    is_among(literals, item_code(v, item))
}

fn has_changed_literal(v: &View, literals: &[u32], items: &[Item]) -> bool
    ensures { result ≡ list_any (spec.is_changed_literal (scene v.entry.now) literals.now) items.now }
{
    let mut rest = items;
    while let [item, tail @ ..] = rest {
        if is_changed_literal(v, literals, item) {
            return true;
        }
        rest = tail;
    }
    false
}

/// The first elements of a slice, as many as there are.
pub(crate) fn first(codes: &[u32], count: usize) -> &[u32]
    ensures { result.now ≡ take count codes.now }
{
    if count < codes.len() {
        &codes[..count]
    } else {
        codes
    }
}

/// What stands behind the first elements of a slice.
pub(crate) fn behind(codes: &[u32], count: usize) -> &[u32]
    ensures { result.now ≡ drop count codes.now }
{
    if count < codes.len() {
        &codes[count..]
    } else {
        &[]
    }
}

/// The codes of the literals.
pub(crate) fn literal_codes<'a>(v: &View<'a>) -> &'a [u32]
    ensures { result.now ≡ drop (length (filter (λ x. pointer_kind x.kind) v.entry.now.f.now.formals) + length v.entry.now.listed.now) (take v.entry.now.named v.entry.now.codes.now) }
{
    let others = behind(
        first(v.codes, v.named),
        formal_count(v.f.formals.as_slice()),
    );
    behind(others, v.listed.len())
}

/// Whether no atom of requires is false, and no block holds a literal and the object of a modifies item, as far as the
/// codes that there are tell.
pub(crate) fn is_allowed(v: &View) -> bool
    ensures { result ≡ spec.is_allowed (scene v.entry.now) }
{
    let is_false = has_false_atom(v, v.f.contract.needs.as_slice());
    let is_changed = has_changed_literal(v, literal_codes(v), v.f.contract.changes.as_slice());
    !is_false && !is_changed
}
