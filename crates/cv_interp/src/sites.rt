//! Sites of objects; None where a site would be no 32-bit number.
ghost use Rattle.std.specs.Prelude.{◌≡◌, ◌+◌, ◌≤◌, IfSome, length, map, sum, take};
ghost use Rattle.cv_core.specs.Names as spec;
ghost use Rattle.cv_interp.specs.Plans.{first_malloc};

use crate::store::Activation;
use cv_core::{Proc, Program, malloc_count, object_count, stmts_of};

/// The sum of two counts.
pub(crate) fn plus(a: u32, b: usize) -> Option<u32>
    ensures { IfSome result (λ s. s ≡ a + b) }
{
    match u32::try_from(b) {
        Err(_) => None,
        Ok(b) => a.checked_add(b),
    }
}

/// `start` and the local objects of so many procedures.
#[tactic(auto, using(crate::proofs::Sums::sum_step, crate::proofs::Sums::sum_none))]
fn past_objects(procs: &[Proc], count: usize, start: u32) -> Option<u32>
    ensures { IfSome result (λ s. s ≡ start + sum (map (λ g. length (spec.objects_of g)) (take count procs.now))) }
{
    match procs {
        [] => Some(start),
        [first, rest @ ..] => {
            if count == 0 {
                Some(start)
            } else {
                past_objects(rest, count - 1, plus(start, object_count(first))?)
            }
        }
    }
}

/// The site of the first local object of the procedure of a number.
pub(crate) fn local_site(p: &Program, number: usize) -> Option<u32>
    ensures { IfSome result (λ s. s ≡ spec.local_site p.now number) }
{
    let start = plus(plus(1, p.globals.len())?, p.literals.len())?;
    past_objects(p.procs.as_slice(), number, start)
}

/// The site of the call of malloc at statement `k` of the procedure that runs, where `first` is that of its first one.
#[tactic(auto, using(crate::proofs::Planned::malloc_is))]
pub(crate) fn malloc_site(_p: &Program, a: &Activation, first: u32, k: usize) -> Option<u32>
    requires first { first ≡ first_malloc _p.now a.now.number }
    requires stmts { spec.stmts_at _p.now.procs a.now.number ≡ spec.stmts_of a.now.proc.now.body }
    requires place { k ≤ length (spec.stmts_of a.now.proc.now.body) }
    ensures { IfSome result (λ s. s ≡ spec.malloc_site _p.now a.now.number k) }
{
    let stmts = stmts_of(a.proc);
    plus(first, malloc_count(&stmts[..k]))
}
