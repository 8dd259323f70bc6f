//! The blocks that entities with codes make.
ghost use Rattle.std.specs.Prelude.{◌≡◌, ◌++◌, ◌+◌, ◌<◌, ◌≤◌, ◌∷◌, IfOk, OnOk, length};
ghost use Rattle.std.specs.Option.{option_map};
ghost use Rattle.cv_ppts.specs.Entities.{is_member as is_member_of, same_class as same_class_of};
ghost use Rattle.cv_ppts.specs.Walk.{after_code as after_code_of, at_block as at_block_of, joined as joined_of, meet as meet_of, opened as opened_of};

use crate::entities::{Block, Class, Entity};
use cv_core::List;
use std::alloc::{AllocError, Global};

pub(crate) fn same_class(a: Class, b: Class) -> bool
    ensures { result ≡ same_class_of a b }
{
    match a {
        Class::Buffer => matches!(b, Class::Buffer),
        Class::PointerCell => matches!(b, Class::PointerCell),
        Class::IntCell => matches!(b, Class::IntCell),
    }
}

pub(crate) fn is_member(site: u32, sites: &[u32]) -> bool
    ensures { result ≡ is_member_of site sites.now }
{
    sites.iter().any(|s| *s == site)
}

/// The sites that two sets have in common.
fn meet(alloc: Global, sites: &[u32], others: &[u32]) -> Result<List<u32>, AllocError>
    ensures { IfOk result (λ xs. xs ≡ meet_of sites.now others.now) }
{
    let mut common = Vec::new(alloc);
    let mut rest = sites;
    while let [site, tail @ ..] = rest {
        if is_member(*site, others) {
            common.push(*site)?;
        }
        rest = tail;
    }
    Ok(List::from_vec(common))
}

/// A block that an entity joins; None where it can't.
fn joined(alloc: Global, block: &Block, entity: &Entity) -> Result<Option<Block>, AllocError>
    ensures { IfOk result (λ b. b ≡ joined_of block.now entity.now) }
{
    if !same_class(block.class, entity.class) {
        return Ok(None);
    }
    let sites = meet(alloc, block.sites.as_slice(), entity.sites.as_slice())?;
    if sites.is_empty() {
        return Ok(None);
    }
    Ok(Some(Block {
        class: block.class,
        sites,
    }))
}

/// A new block of an entity; None where it has no site.
fn opened(alloc: Global, entity: &Entity) -> Result<Option<Block>, AllocError>
    ensures { IfOk result (λ b. b ≡ opened_of entity.now) }
{
    if entity.sites.is_empty() {
        return Ok(None);
    }
    let sites = List::from_slice(alloc, entity.sites.as_slice())?;
    Ok(Some(Block {
        class: entity.class,
        sites,
    }))
}

/// A copy of a block.
fn copied(alloc: Global, block: &Block) -> Result<Block, AllocError>
    ensures { IfOk result (λ b. b ≡ block.now) }
{
    let sites = List::from_slice(alloc, block.sites.as_slice())?;
    Ok(Block {
        class: block.class,
        sites,
    })
}

/// Puts copies of blocks behind others.
fn push_copies(blocks: &mut Vec<Block>, alloc: Global, others: &[Block]) -> Result<(), AllocError>
    ensures { OnOk result (blocks.new.items ≡ blocks.old.items ++ others.now) }
{
    let mut rest = others;
    while let [block, tail @ ..] = rest {
        blocks.push(copied(alloc, block)?)?;
        rest = tail;
    }
    Ok(())
}

/// So many first blocks, another one, and the blocks from a place on.
fn spliced(
    alloc: Global,
    before: &[Block],
    block: Block,
    behind: &[Block],
) -> Result<Vec<Block>, AllocError>
    ensures { IfOk result (λ v. v.items ≡ before.now ++ block ∷ behind.now) }
{
    let mut blocks = Vec::new(alloc);
    push_copies(&mut blocks, alloc, before)?;
    blocks.push(block)?;
    push_copies(&mut blocks, alloc, behind)?;
    Ok(blocks)
}

/// The blocks after an entity joins the one at a place; None where it can't.
fn with_joined(
    alloc: Global,
    blocks: &[Block],
    entity: &Entity,
    place: usize,
) -> Result<Option<Vec<Block>>, AllocError>
    requires { place < length blocks.now }
    ensures { IfOk result (λ v. option_map (λ w. w.items) v ≡ at_block_of blocks.now entity.now place) }
{
    match joined(alloc, &blocks[place], entity)? {
        None => Ok(None),
        Some(block) => {
            let all = spliced(alloc, &blocks[..place], block, &blocks[place + 1..])?;
            Ok(Some(all))
        }
    }
}

/// The blocks after an entity opens one behind them; None where it can't.
fn with_opened(
    alloc: Global,
    blocks: &[Block],
    entity: &Entity,
) -> Result<Option<Vec<Block>>, AllocError>
    ensures { IfOk result (λ v. option_map (λ w. w.items) v ≡ at_block_of blocks.now entity.now (length blocks.now)) }
{
    match opened(alloc, entity)? {
        None => Ok(None),
        Some(block) => {
            let all = spliced(alloc, blocks, block, &[])?;
            Ok(Some(all))
        }
    }
}

fn all_copied(alloc: Global, blocks: &[Block]) -> Result<Vec<Block>, AllocError>
    ensures { IfOk result (λ v. v.items ≡ blocks.now) }
{
    let mut all = Vec::new(alloc);
    push_copies(&mut all, alloc, blocks)?;
    Ok(all)
}

/// The blocks after an entity gets the code 0.
fn with_null(
    alloc: Global,
    blocks: &[Block],
    entity: &Entity,
) -> Result<Option<Vec<Block>>, AllocError>
    ensures { IfOk result (λ v. option_map (λ w. w.items) v ≡ after_code_of blocks.now entity.now 0) }
{
    if !entity.nullable {
        return Ok(None);
    }
    let all = all_copied(alloc, blocks)?;
    Ok(Some(all))
}

/// The blocks after an entity gets a code that is at most one more than the number of blocks; None where it can't
/// have it.
pub(crate) fn after_code(
    alloc: Global,
    blocks: &[Block],
    entity: &Entity,
    code: usize,
) -> Result<Option<Vec<Block>>, AllocError>
    requires { code ≤ length blocks.now + 1 }
    ensures { IfOk result (λ v. option_map (λ w. w.items) v ≡ after_code_of blocks.now entity.now code) }
{
    if code == 0 {
        let all = with_null(alloc, blocks, entity)?;
        Ok(all)
    } else if code <= blocks.len() {
        let all = with_joined(alloc, blocks, entity, code - 1)?;
        Ok(all)
    } else {
        let all = with_opened(alloc, blocks, entity)?;
        Ok(all)
    }
}
