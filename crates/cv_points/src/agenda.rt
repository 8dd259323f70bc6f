//! The order in which rules are visited: a worklist, as Pearce, Kelly and Hankin solve inclusion constraints, in two
//! parts after Nielson, Nielson and Hankin: the rules that are at hand, and those for the next turn. Nothing but speed
//! rests on it: a rule that is left out is found by the passes over all rules.
use std::alloc::{AllocError, Global};
use std::collections::BinaryHeap;
use std::mem;

/// The rules that are due, by their numbers from 0 on. They are visited group by group, forward and backward by turns:
/// of a group the first rule that is due, until none of it is. So what a group lets grow has all come together before
/// the next group reads it, and a chain of calls takes few turns whatever its direction. A rule has the greater key the
/// sooner it is visited.
#[derive(Drop)]
pub(crate) struct Agenda {
    /// For each rule the number of its group.
    groups: Vec<usize>,
    /// The keys of the rules that this turn still comes to.
    ahead: BinaryHeap<(usize, usize)>,
    /// The keys of the others, as the next turn has them.
    behind: BinaryHeap<(usize, usize)>,
    /// For each rule whether it is in one of the two.
    is_waiting: Vec<bool>,
    /// Whether this turn goes from the last group to the first.
    is_back: bool,
    /// The rank of the group of the rule that was visited last.
    last: usize,
}

/// The rank of a group: the greater the sooner it is visited.
fn rank_of(group: usize, is_back: bool) -> usize {
    if is_back { group } else { usize::MAX - group }
}

/// The group of a rule; 0 where it has none.
fn group_of(groups: &[usize], number: usize) -> usize {
    match groups.get(number) {
        None => 0,
        Some(group) => *group,
    }
}

/// Sets whether a rule waits, and says whether that is new.
fn mark(is_waiting: &mut [bool], number: usize, waits: bool) -> bool {
    match is_waiting.get_mut(number) {
        None => false,
        Some(flag) => {
            let is_new = *flag != waits;
            *flag = waits;
            is_new
        }
    }
}

impl Agenda {
    /// The rules of these groups, all of them due.
    pub(crate) fn full(alloc: Global, groups: Vec<usize>) -> Result<Agenda, AllocError> {
        let count = groups.len();
        let mut ahead = BinaryHeap::with_capacity(alloc, count)?;
        for number in 0..count {
            ahead.push((
                rank_of(group_of(groups.as_slice(), number), false),
                usize::MAX - number,
            ))?;
        }
        Ok(Agenda {
            groups,
            ahead,
            behind: BinaryHeap::new(alloc),
            is_waiting: vec![in alloc; true; count]?,
            is_back: false,
            last: usize::MAX,
        })
    }

    /// Makes a rule due, where it isn't.
    fn add(&mut self, number: usize) -> Result<(), AllocError> {
        if !mark(self.is_waiting.as_mut_slice(), number, true) {
            return Ok(());
        }
        let group = group_of(self.groups.as_slice(), number);
        let rank = rank_of(group, self.is_back);
        if rank <= self.last {
            self.ahead.push((rank, usize::MAX - number))?;
        } else {
            self.behind.push((usize::MAX - rank, usize::MAX - number))?;
        }
        Ok(())
    }

    /// Makes rules due, those of them that aren't.
    pub(crate) fn add_all(&mut self, numbers: &[usize]) -> Result<(), AllocError> {
        for number in numbers {
            self.add(*number)?;
        }
        Ok(())
    }

    /// Begins the next turn, the other way.
    fn turn(&mut self) {
        mem::swap(&mut self.ahead, &mut self.behind);
        self.is_back = !self.is_back;
    }

    /// The rule to visit next, which is due no longer; None where no rule is due.
    pub(crate) fn pop(&mut self) -> Option<usize> {
        if self.ahead.is_empty() {
            self.turn();
        }
        match self.ahead.pop() {
            None => None,
            Some((rank, behind)) => {
                let number = usize::MAX - behind;
                self.last = rank;
                mark(self.is_waiting.as_mut_slice(), number, false);
                Some(number)
            }
        }
    }
}
