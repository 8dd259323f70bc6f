//! A list of rules without those that it has again and again.
ghost use Rattle.std.specs.Prelude.{◌≡◌, Contains, IfOk, OnOk, true};
ghost use Rattle.cv_points.specs.Growing.{HaveSame, IsKeptIn};

use crate::rules::Rule;
use std::alloc::{AllocError, Global};

/// A number that tells most rules apart, by multiplication with an odd constant after Knuth.
fn mixed(rule: Rule) -> usize {
    let (kind, one, other) = match rule {
        Rule::Has { to, site } => (0, to, site),
        Rule::Includes { from, to } => (1, from, to),
        Rule::Reads { pointer, to } => (2, pointer, to),
        Rule::Writes { from, pointer } => (3, from, pointer),
    };
    let places = one.wrapping_mul(4294967291).wrapping_add(other);
    let all = places.wrapping_mul(4).wrapping_add(kind);
    all.wrapping_mul(11400714819323198485) >> 20
}

/// The place in `kept` of the rule that took a slot last.
fn last_at(slots: &[usize], slot: usize) -> usize {
    match slots.get(slot) {
        None => 0,
        Some(place) => *place,
    }
}

fn is_at(kept: &[Rule], place: usize, rule: Rule) -> bool
    ensures { result ≡ true → Contains kept.now rule }
{
    match kept.get(place) {
        None => false,
        Some(other) => *other == rule,
    }
}

/// Takes a slot for a place.
fn take_slot(slots: &mut [usize], slot: usize, place: usize) {
    if let Some(last) = slots.get_mut(slot) {
        *last = place;
    }
}

/// Puts a rule behind the others, where the one that took its slot last isn't the same.
fn keep(kept: &mut Vec<Rule>, slots: &mut [usize], rule: Rule) -> Result<(), AllocError>
    ensures { OnOk result (IsKeptIn kept.old.items kept.new.items rule) }
{
    let slot = mixed(rule) % slots.len().max(1);
    if is_at(kept.as_slice(), last_at(slots, slot), rule) {
        return Ok(());
    }
    take_slot(slots, slot, kept.len());
    kept.push(rule)?;
    Ok(())
}

/// The rules of a list, in their order, nearly all of them once: two that come to one slot drop no third. It takes as
/// many steps as the list has rules.
pub(crate) fn distinct(alloc: Global, rules: &[Rule]) -> Result<Vec<Rule>, AllocError>
    ensures { IfOk result (λ kept. HaveSame rules.now kept.items) }
{
    let mut slots = vec![in alloc; 0; rules.len().saturating_mul(2)]?;
    let mut kept = Vec::new(alloc);
    for rule in rules {
        keep(&mut kept, slots.as_mut_slice(), *rule)?;
    }
    Ok(kept)
}
