//! The calls of the forms in memory.
ghost use Rattle.std.specs.Prelude.{◌≡◌, ◌↔◌, IsTrue};
ghost use Rattle.cv_io.specs.Memory.{Numbers, IsDue, advanced};

use std::marker::Model;

/// The calls of an object in memory: the number of the next, from 0, and the numbers of those that are to fail.
/// The number stands still at 18446744073709551615.
#[derive(Debug, Drop)]
pub struct Calls {
    next: u64,
    fails: Vec<u64>,
}

impl Model for Calls {
    ghost Value = { Numbers };

    ghost view = { λ calls. record { next = calls.next; fails = calls.fails.items } };
}

impl Calls {
    /// No call yet.
    pub fn new(fails: Vec<u64>) -> Calls
        ensures { result ≡ record { next = 0; fails = fails.items } }
    {
        Calls { next: 0, fails }
    }

    /// Begins a call, and says whether it is to fail.
    pub fn begin(&mut self) -> bool
        ensures due { IsTrue result ↔ IsDue self.old }
        ensures next { self.new ≡ advanced self.old }
    {
        let is_due = self.fails.contains(&self.next);
        self.next = self.next.saturating_add(1);
        is_due
    }
}
