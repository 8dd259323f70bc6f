//! Which rules read which sets, so that a rule is visited again only where a set that it reads has grown. Nothing but
//! speed rests on it: a rule that isn't told in time is found by the passes over all rules.
use crate::agenda::Agenda;
use crate::growth::{cell_at, set_in};
use crate::rules::Rule;
use cv_core::List;
use std::alloc::{AllocError, Global};

/// Places and rules are given by their numbers, each from 0 on.
#[derive(Drop)]
pub(crate) struct Readers {
    /// For each place the rules that read its set.
    rules: Vec<Vec<usize>>,
    /// For each rule that reads cells the sites of its pointer whose cells have it among their readers, in ascending
    /// order; for the others none.
    linked: Vec<Vec<u32>>,
    /// For each place how many sites its set had when its readers were told last.
    told: Vec<usize>,
}

/// So many empty lists.
fn empty_lists<T: Drop>(alloc: Global, count: usize) -> Result<Vec<Vec<T>>, AllocError> {
    let mut lists = Vec::new(alloc);
    for _ in 0..count {
        lists.push(Vec::new(alloc))?;
    }
    Ok(lists)
}

/// Puts a rule behind the others that read the set at a place.
fn put(rules: &mut [Vec<usize>], place: usize, number: usize) -> Result<(), AllocError> {
    if let Some(numbers) = rules.get_mut(place) {
        numbers.push(number)?;
    }
    Ok(())
}

/// Puts a rule behind the others that read the sets at the places that it names.
fn put_named(rules: &mut [Vec<usize>], rule: Rule, number: usize) -> Result<(), AllocError> {
    match rule {
        Rule::Has { .. } => {}
        Rule::Includes { from, .. } => put(rules, from, number)?,
        Rule::Reads { pointer, .. } => put(rules, pointer, number)?,
        Rule::Writes { from, pointer } => {
            put(rules, from, number)?;
            put(rules, pointer, number)?;
        }
    }
    Ok(())
}

/// What stands behind a site in a set; None where the site isn't the first.
fn rest_behind(set: &[u32], site: u32) -> Option<&[u32]> {
    match set {
        [first, tail @ ..] => { if *first == site { Some(tail) } else { None } }
        [] => None,
    }
}

/// Puts a rule behind the others that read the cells at some sites, without the sites of `linked`, which are among
/// them. Both ascend, so that one walk over the two is enough.
fn put_cells(
    rules: &mut [Vec<usize>],
    cells: &[Option<usize>],
    linked: &[u32],
    pointed: &[u32],
    number: usize,
) -> Result<(), AllocError> {
    let mut rest = linked;
    for site in pointed {
        if let Some(tail) = rest_behind(rest, *site) {
            rest = tail;
        } else if let Some(cell) = cell_at(cells, *site) {
            put(rules, cell, number)?;
        }
    }
    Ok(())
}

/// Keeps the size of the set at a place, and says whether it is new.
fn is_new_size(told: &mut [usize], place: usize, size: usize) -> bool {
    match told.get_mut(place) {
        None => false,
        Some(last) => {
            let is_new = *last != size;
            *last = size;
            is_new
        }
    }
}

impl Readers {
    /// No readers, of so many rules, at so many places whose sets are empty.
    fn none(alloc: Global, rule_count: usize, place_count: usize) -> Result<Readers, AllocError> {
        Ok(Readers {
            rules: empty_lists(alloc, place_count)?,
            linked: empty_lists(alloc, rule_count)?,
            told: vec![in alloc; 0; place_count]?,
        })
    }

    /// The readers of so many places whose sets are empty.
    pub(crate) fn of(
        alloc: Global,
        rules: &[Rule],
        place_count: usize,
    ) -> Result<Readers, AllocError> {
        let mut readers = Readers::none(alloc, rules.len(), place_count)?;
        for (number, rule) in rules.iter().enumerate() {
            put_named(readers.rules.as_mut_slice(), *rule, number)?;
        }
        Ok(readers)
    }

    /// Puts a rule that reads cells among the readers of those at some sites, where it isn't.
    fn link_cells(
        &mut self,
        alloc: Global,
        cells: &[Option<usize>],
        pointed: &[u32],
        number: usize,
    ) -> Result<(), AllocError> {
        if let Some(linked) = self.linked.get_mut(number) {
            if linked.len() != pointed.len() {
                put_cells(
                    self.rules.as_mut_slice(),
                    cells,
                    linked.as_slice(),
                    pointed,
                    number,
                )?;
                *linked = Vec::from_slice(alloc, pointed)?;
            }
        }
        Ok(())
    }

    /// Puts a rule among the readers of the cells that it reads now.
    pub(crate) fn link(
        &mut self,
        alloc: Global,
        cells: &[Option<usize>],
        sets: &Vec<List<u32>>,
        rule: Rule,
        number: usize,
    ) -> Result<(), AllocError> {
        if let Rule::Reads { pointer, .. } = rule {
            self.link_cells(alloc, cells, set_in(sets, pointer), number)?;
        }
        Ok(())
    }

    /// Makes the readers of a place due where its set has grown since they were told last.
    fn tell_place(
        &mut self,
        sets: &Vec<List<u32>>,
        place: usize,
        agenda: &mut Agenda,
    ) -> Result<(), AllocError> {
        let size = set_in(sets, place).len();
        if is_new_size(self.told.as_mut_slice(), place, size) {
            if let Some(numbers) = self.rules.get(place) {
                agenda.add_all(numbers.as_slice())?;
            }
        }
        Ok(())
    }

    /// Makes the readers of the cells at some sites due where their sets have grown.
    fn tell_cells(
        &mut self,
        cells: &[Option<usize>],
        sets: &Vec<List<u32>>,
        pointed: &[u32],
        agenda: &mut Agenda,
    ) -> Result<(), AllocError> {
        for site in pointed {
            if let Some(cell) = cell_at(cells, *site) {
                self.tell_place(sets, cell, agenda)?;
            }
        }
        Ok(())
    }

    /// Makes the readers of the sets due that a rule made grow.
    pub(crate) fn tell(
        &mut self,
        cells: &[Option<usize>],
        sets: &Vec<List<u32>>,
        rule: Rule,
        agenda: &mut Agenda,
    ) -> Result<(), AllocError> {
        match rule {
            Rule::Has { to, .. } => self.tell_place(sets, to, agenda),
            Rule::Includes { to, .. } => self.tell_place(sets, to, agenda),
            Rule::Reads { to, .. } => self.tell_place(sets, to, agenda),
            Rule::Writes { pointer, .. } => {
                self.tell_cells(cells, sets, set_in(sets, pointer), agenda)
            }
        }
    }
}
