//! The entities and blocks of a case.
ghost use Rattle.cv_core.specs.Names.{is_pointer_kind as pointer_kind};
ghost use Rattle.std.specs.Prelude.{[], ◌≡◌, ◌+◌, ◌<◌, ◌≤◌, MatchBool, None as Nothing, Some, drop, filter, length, map, nat_eq, position, slice_index_or};
ghost use Rattle.cv_points.specs.Holders.{pointer_formals};
ghost use Rattle.cv_ppts.specs.Entities.{as_list, class_of_kind as class_of_variable, distinct as distinct_of, is_member as is_member_of, literals_of};
ghost use Rattle.cv_ppts.specs.Keys.{keys as keys_of, later_numbers, new_number, numbers, seen_numbers, setting};
ghost use Rattle.cv_ppts.specs.Setting.{HasRoom, block_class as block_class_of, block_count as block_count_of, cell_blocks as cell_blocks_of, class_or as class_or_of, class_with, first_content as first_content_of, global_code as global_code_of, global_classes, greatest as greatest_of, is_cell_block as is_cell_block_of, listed, literal_code as literal_code_of, literal_codes as literal_codes_of};

use crate::allowed::{behind, code_behind, first, formal_count};
use crate::blocks::same_class;
use crate::entities::Class;
use crate::named::{class_of_global_number, class_of_kind, global_number, literal_in};
use crate::setting::Scope;
use cv_core::{Formal, Proc, Program, is_pointer_kind, stmts_of};

/// What stands for an entity each time that it is named.
#[derive(Clone, Copy, PartialEq, Eq, Debug)]
pub(crate) enum Keys {
    /// The names that a contract lists, for globals.
    Listed,
    /// The statements, for the literals whose addresses they take.
    Literals,
}

// ---- entities

fn key_count(s: &Scope, which: Keys) -> usize
    ensures { result ≡ length (keys_of (setting s.entry.now) which) }
{
    match which {
        Keys::Listed => s.f.contract.listed.len(),
        Keys::Literals => stmts_of(s.f).len(),
    }
}

/// The number that the key at a place stands for.
fn key_at(s: &Scope, which: Keys, place: usize) -> Option<usize>
    ensures { result ≡ slice_index_or (keys_of (setting s.entry.now) which) place Nothing }
{
    match which {
        Keys::Listed => match s.f.contract.listed.get(place) {
            None => None,
            Some(name) => global_number(s.p, name),
        },
        Keys::Literals => match stmts_of(s.f).get(place) {
            None => None,
            Some(statement) => literal_in(s.p, &statement.form),
        },
    }
}

fn is_number(key: Option<usize>, number: usize) -> bool
    ensures { MatchBool result (key ≡ Some number) (key ≡ Some number → ⊥) }
{
    match key {
        None => false,
        Some(key) => key == number,
    }
}

/// Whether a key before a place stands for a number.
fn is_seen(s: &Scope, which: Keys, place: usize, number: usize) -> bool
    requires { place ≤ length (keys_of (setting s.now) which) }
    ensures { result ≡ is_member_of number (seen_numbers (keys_of (setting s.entry.now) which) place) }
{
    for earlier in 0..place {
        if is_number(key_at(s, which, earlier), number) {
            return true;
        }
    }
    false
}

/// The number that the key at a place is the first to stand for.
fn new_at(s: &Scope, which: Keys, place: usize) -> Option<usize>
    requires { place ≤ length (keys_of (setting s.now) which) }
    ensures { result ≡ new_number (keys_of (setting s.entry.now) which) place }
{
    match key_at(s, which, place) {
        None => None,
        Some(number) => {
            if is_seen(s, which, place, number) {
                None
            } else {
                Some(number)
            }
        }
    }
}

/// A count with one more, where there is a new number.
fn counted(count: usize, new: Option<usize>) -> usize
    requires { count < usize.MAX }
    ensures { result ≡ count + length (as_list new) }
{
    match new {
        None => count,
        Some(_) => count + 1,
    }
}

/// How many numbers the keys stand for.
fn number_count(s: &Scope, which: Keys) -> usize
    ensures { result ≡ length (distinct_of (numbers (keys_of (setting s.entry.now) which))) }
{
    let mut count: usize = 0;
    for place in 0..key_count(s, which) {
        count = counted(count, new_at(s, which, place));
    }
    count
}

/// The place of a number among those that the keys stand for.
fn number_place(s: &Scope, which: Keys, number: usize) -> Option<usize>
    ensures { result ≡ position (λ m. nat_eq m number) (distinct_of (numbers (keys_of (setting s.entry.now) which))) }
{
    let mut count: usize = 0;
    for place in 0..key_count(s, which) {
        let new = new_at(s, which, place);
        if is_number(new, number) {
            return Some(count);
        }
        count = counted(count, new);
    }
    None
}

/// A case of which nothing is known beside its codes.
fn bare_scope<'a>(p: &'a Program, f: &'a Proc, codes: &'a [u32]) -> Scope<'a>
    requires { HasRoom (record { program = p.now; proc = f.now; codes = codes.now }) }
    ensures { setting result ≡ record { program = p.now; proc = f.now; codes = codes.now } }
{
    Scope {
        p,
        f,
        codes,
        literal_count: None,
        contents: &[],
    }
}

fn count_of_literals(p: &Program, f: &Proc) -> usize
    requires { HasRoom (record { program = p.now; proc = f.now; codes = [] }) }
    ensures { result ≡ length (literals_of p.now f.now) }
{
    number_count(&bare_scope(p, f, &[]), Keys::Literals)
}

/// A case as the statements see it, with the literals that they name counted.
pub(crate) fn scope_of<'a>(p: &'a Program, f: &'a Proc, codes: &'a [u32]) -> Scope<'a>
    requires { HasRoom (record { program = p.now; proc = f.now; codes = codes.now }) }
    ensures { setting result ≡ record { program = p.now; proc = f.now; codes = codes.now } }
{
    Scope {
        p,
        f,
        codes,
        literal_count: Some(count_of_literals(p, f)),
        contents: &[],
    }
}

/// How many literals the statements name.
fn literal_count(s: &Scope) -> usize
    ensures { result ≡ length (literals_of s.entry.now.p.now s.entry.now.f.now) }
{
    match s.literal_count {
        Some(count) => count,
        None => count_of_literals(s.p, s.f),
    }
}

/// How many pointer formals the procedure has.
pub(crate) fn formals_of(s: &Scope) -> usize
    ensures { result ≡ length (pointer_formals s.entry.now.f.now) }
{
    formal_count(s.f.formals.as_slice())
}

/// The block of a global; 0 where it isn't listed.
pub(crate) fn global_code(s: &Scope, number: Option<usize>) -> u32
    ensures { result ≡ global_code_of (setting s.entry.now) number }
{
    match number {
        None => 0,
        Some(number) => match number_place(s, Keys::Listed, number) {
            None => 0,
            Some(place) => code_behind(s.codes, formals_of(s), place),
        },
    }
}

/// The block of a literal; 0 where no statement names it.
pub(crate) fn literal_code(s: &Scope, number: Option<usize>) -> u32
    ensures { result ≡ literal_code_of (setting s.entry.now) number }
{
    match number {
        None => 0,
        Some(number) => match number_place(s, Keys::Literals, number) {
            None => 0,
            Some(place) => code_behind(
                behind(s.codes, formals_of(s)),
                number_count(s, Keys::Listed),
                place,
            ),
        },
    }
}

/// The blocks of the literals.
pub(crate) fn literal_codes<'a>(s: &Scope<'a>) -> &'a [u32]
    ensures { result.now ≡ literal_codes_of (setting s.entry.now) }
{
    first(
        behind(
            behind(s.codes, formals_of(s)),
            number_count(s, Keys::Listed),
        ),
        literal_count(s),
    )
}

/// The codes of what blocks of pointer cells hold.
pub(crate) fn content_codes<'a>(s: &Scope<'a>) -> &'a [u32]
    ensures { result.now ≡ drop (first_content_of (setting s.entry.now)) s.entry.now.codes.now }
{
    behind(
        behind(
            behind(s.codes, formals_of(s)),
            number_count(s, Keys::Listed),
        ),
        literal_count(s),
    )
}

// ---- blocks

/// The greatest of some codes; 0 where there is none.
pub(crate) fn greatest(codes: &[u32]) -> u32
    ensures { result ≡ greatest_of codes.now }
{
    let mut most: u32 = 0;
    let mut rest = codes;
    while let [code, tail @ ..] = rest {
        most = most.max(*code);
        rest = tail;
    }
    most
}

/// How many blocks there are.
pub(crate) fn block_count(s: &Scope) -> u32
    ensures { result ≡ block_count_of (setting s.entry.now) }
{
    greatest(s.codes)
}

/// The class of the first of the pointer formals that has a code.
fn formal_class(formals: &[Formal], codes: &[u32], block: u32) -> Option<Class>
    ensures { result ≡ class_with block codes.now (map (λ x. class_of_variable x.kind) (filter (λ x. pointer_kind x.kind) formals.now)) }
{
    let mut rest = formals;
    let mut left = codes;
    while let [formal, tail @ ..] = rest {
        if is_pointer_kind(formal.kind) {
            let [code, more @ ..] = left else {
                return None;
            };
            if *code == block {
                return Some(class_of_kind(formal.kind));
            }
            left = more;
        }
        rest = tail;
    }
    None
}

/// The class of the first of the listed globals, from a place on, that has a code.
fn global_class(s: &Scope, codes: &[u32], block: u32, place: usize) -> Option<Class>
    requires { place ≤ length (keys_of (setting s.now) Keys.Listed) }
    ensures { result ≡ class_with block codes.now (global_classes s.entry.now.p.now (later_numbers (keys_of (setting s.entry.now) Keys.Listed) place)) }
{
    if place >= key_count(s, Keys::Listed) {
        return None;
    }
    match new_at(s, Keys::Listed, place) {
        None => global_class(s, codes, block, place + 1),
        Some(number) => {
            let [code, more @ ..] = codes else {
                return None;
            };
            if *code == block {
                return Some(class_of_global_number(s.p, number));
            }
            global_class(s, more, block, place + 1)
        }
    }
}

fn class_or(one: Option<Class>, other: Option<Class>) -> Class
    ensures { result ≡ class_or_of one other }
{
    match one {
        Some(class) => class,
        None => match other {
            Some(class) => class,
            None => Class::Buffer,
        },
    }
}

fn block_class(s: &Scope, block: u32) -> Class
    ensures { result ≡ block_class_of (setting s.entry.now) block }
{
    class_or(
        formal_class(s.f.formals.as_slice(), s.codes, block),
        global_class(s, behind(s.codes, formals_of(s)), block, 0),
    )
}

pub(crate) fn is_cell_block(s: &Scope, block: u32) -> bool
    ensures { result ≡ is_cell_block_of (setting s.entry.now) block }
{
    same_class(block_class(s, block), Class::PointerCell)
}

/// How many of the first blocks are of pointer cells.
pub(crate) fn cell_blocks(s: &Scope, count: u32) -> u32
    ensures { result ≡ cell_blocks_of (setting s.entry.now) count }
{
    let mut cells: u32 = 0;
    for block in 0..count {
        if is_cell_block(s, block + 1) {
            cells += 1;
        }
    }
    cells
}
