//! The search for the alias cases of a procedure, code by code.
ghost use Rattle.std.specs.Prelude.{◌≡◌, ◌++◌, ◌<◌, ◌≤◌, ◌∷◌, [], IfOk, OnOk, flat_map, length, map};
ghost use Rattle.cv_points.specs.Closed.{set_at as set_of};
ghost use Rattle.cv_points.specs.Growing.{place_at};
ghost use Rattle.cv_ppts.specs.Allowed.{is_allowed as is_allowed_in};
ghost use Rattle.cv_ppts.specs.Cases.{scene_of};
ghost use Rattle.cv_ppts.specs.Entities.{content_entities as content_entities_of, content_entity as content_entity_of, held as held_in, held_at as held_at_place};
ghost use Rattle.cv_ppts.specs.Listed.{IsFound, IsSearch, code_limit as code_limit_of, content_lists, named_lists};

use crate::allowed::{View, is_allowed};
use crate::blocks::{after_code, same_class};
use crate::entities::{Block, Class, Entity};
use crate::named::set_at;
use cv_core::{List, Proc, Program};
use std::alloc::{AllocError, Global};

/// How many cases a procedure may have.
pub(crate) const LIMIT: usize = 64;

/// What a search looks things up in.
#[derive(Drop)]
pub(crate) struct Search<'a> {
    pub p: &'a Program,
    pub f: &'a Proc,
    pub sets: &'a [List<u32>],
    /// For each site the place of the set of its pointer cell.
    pub cells: &'a [Option<usize>],
    /// The listed globals by number.
    pub listed: &'a [u32],
}

/// The place of the set of the pointer cell at a site.
fn cell_at(cells: &[Option<usize>], site: u32) -> Option<usize>
    ensures { result ≡ place_at cells.now site }
{
    match cells.get(site as usize) {
        None => None,
        Some(place) => *place,
    }
}

fn held_at(sets: &[List<u32>], place: Option<usize>) -> &[u32]
    ensures { result.now ≡ held_at_place sets.now place }
{
    match place {
        None => &[],
        Some(place) => set_at(sets, place),
    }
}

/// What a cell of a site holds.
fn held<'a>(s: &Search<'a>, site: u32) -> &'a [u32]
    requires { IsSearch s.now }
    ensures { result.now ≡ held_in s.entry.now.p.now s.entry.now.sets.now site }
{
    held_at(s.sets, cell_at(s.cells, site))
}

/// What the cells of sites hold.
fn all_held(alloc: Global, s: &Search, sites: &[u32]) -> Result<List<u32>, AllocError>
    requires { IsSearch s.now }
    ensures { IfOk result (λ xs. xs ≡ flat_map (held_in s.entry.now.p.now s.entry.now.sets.now) sites.now) }
{
    let mut all = Vec::new(alloc);
    let mut rest = sites;
    while let [site, tail @ ..] = rest {
        all.extend_from_slice(held(s, *site))?;
        rest = tail;
    }
    Ok(List::from_vec(all))
}

/// The content of a block of pointer cells.
fn content_entity(alloc: Global, s: &Search, sites: &[u32]) -> Result<Entity, AllocError>
    requires { IsSearch s.now }
    ensures { IfOk result (λ e. e ≡ content_entity_of s.entry.now.p.now s.entry.now.sets.now sites.now) }
{
    let sites = all_held(alloc, s, sites)?;
    Ok(Entity {
        nullable: true,
        class: Class::Buffer,
        sites,
    })
}

/// The contents of the blocks of pointer cells.
fn content_entities(alloc: Global, s: &Search, blocks: &[Block]) -> Result<Vec<Entity>, AllocError>
    requires { IsSearch s.now }
    ensures { IfOk result (λ v. v.items ≡ content_entities_of s.entry.now.p.now s.entry.now.sets.now blocks.now) }
{
    let mut entities = Vec::new(alloc);
    let mut rest = blocks;
    while let [block, tail @ ..] = rest {
        if same_class(block.class, Class::PointerCell) {
            entities.push(content_entity(alloc, s, block.sites.as_slice())?)?;
        }
        rest = tail;
    }
    Ok(entities)
}

/// Codes with one more.
fn with_code(alloc: Global, done: &[u32], code: usize) -> Result<Vec<u32>, AllocError>
    ensures { IfOk result (λ v. v.items ≡ done.now ++ code ∷ []) }
{
    if code > 4294967295 {
        return Err(AllocError);
    }
    let mut codes = Vec::from_slice(alloc, done)?;
    codes.push(code as u32)?;
    Ok(codes)
}

/// Puts the codes of all entities behind the cases that were found.
fn put_case(alloc: Global, done: &[u32], found: &mut Vec<List<u32>>) -> Result<bool, AllocError>
    requires few { length found.old.items ≤ 64 }
    ensures { IfOk result (λ all. IsFound found.old.items found.new.items (done.now ∷ []) all) }
{
    if found.len() >= LIMIT {
        return Ok(false);
    }
    found.push(List::from_slice(alloc, done)?)?;
    Ok(true)
}

/// Whether the contract allows the codes that there are. Where it doesn't, it allows none that go on from these.
fn allows(s: &Search, named: usize, blocks: &[Block], done: &[u32]) -> bool
    requires { IsSearch s.now }
    ensures { result ≡ is_allowed_in (scene_of s.entry.now.p.now s.entry.now.f.now blocks.now done.now named) }
{
    is_allowed(&View {
        p: s.p,
        f: s.f,
        listed: s.listed,
        named,
        blocks,
        codes: done,
    })
}

/// One more than the code of a new block.
fn code_limit(blocks: &[Block]) -> Result<usize, AllocError>
    ensures { IfOk result (λ n. n ≡ code_limit_of blocks.now) }
{
    let count = blocks.len();
    if count > 4294967295 {
        return Err(AllocError);
    }
    Ok(count + 2)
}

/// Finds the cases that go on with codes of contents. False where there are more than 64.
fn find_contents(
    alloc: Global,
    s: &Search,
    named: usize,
    entities: &[Entity],
    blocks: &[Block],
    done: &[u32],
    found: &mut Vec<List<u32>>,
) -> Result<bool, AllocError>
    requires looked { IsSearch s.now }
    requires few { length found.old.items ≤ 64 }
    ensures { IfOk result (λ all. IsFound found.old.items found.new.items (content_lists s.entry.now.p.now s.entry.now.f.now named entities.now blocks.now done.now) all) }
{
    if !allows(s, named, blocks, done) {
        return Ok(true);
    }
    let [entity, more @ ..] = entities else {
        return put_case(alloc, done, found);
    };
    for code in 0..code_limit(blocks)? {
        match after_code(alloc, blocks, entity, code)? {
            None => {}
            Some(next) => {
                let codes = with_code(alloc, done, code)?;
                if !find_contents(
                    alloc,
                    s,
                    named,
                    more,
                    next.as_slice(),
                    codes.as_slice(),
                    found,
                )? {
                    return Ok(false);
                }
            }
        }
    }
    Ok(true)
}

/// Finds the cases that go on with codes of formals, globals and literals. False where there are more than 64.
pub(crate) fn find_named(
    alloc: Global,
    s: &Search,
    entities: &[Entity],
    blocks: &[Block],
    done: &[u32],
    found: &mut Vec<List<u32>>,
) -> Result<bool, AllocError>
    requires looked { IsSearch s.now }
    requires few { length found.old.items ≤ 64 }
    ensures { IfOk result (λ all. IsFound found.old.items found.new.items (named_lists s.entry.now.p.now s.entry.now.sets.now s.entry.now.f.now entities.now blocks.now done.now) all) }
{
    if !allows(s, done.len(), blocks, done) {
        return Ok(true);
    }
    let [entity, more @ ..] = entities else {
        let contents = content_entities(alloc, s, blocks)?;
        let all = find_contents(
            alloc,
            s,
            done.len(),
            contents.as_slice(),
            blocks,
            done,
            found,
        )?;
        return Ok(all);
    };
    for code in 0..code_limit(blocks)? {
        match after_code(alloc, blocks, entity, code)? {
            None => {}
            Some(next) => {
                let codes = with_code(alloc, done, code)?;
                if !find_named(alloc, s, more, next.as_slice(), codes.as_slice(), found)? {
                    return Ok(false);
                }
            }
        }
    }
    Ok(true)
}
