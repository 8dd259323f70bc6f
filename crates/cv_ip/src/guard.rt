//! Whether a transition may be taken.
ghost use Rattle.std.specs.Prelude.{◌≡◌, ◌↔◌, ◌+◌, ◌<◌, ◌≤◌, ◌^◌, All, IsTrue, length};
ghost use Rattle.std.specs.Int.RustNames.{unsigned_abs};
ghost use Rattle.cv_num.specs.Rows.{row_value};
ghost use Rattle.cv_ip.specs.Formed.{IsBelow};
ghost use Rattle.cv_ip.specs.Takes.{AreMet, IsMet, entries, with_fresh};

use crate::program::Transition;
use cv_num::{Row, plus_product};

/// The value of a variable.
fn entry(old: &[i64], fresh: &[i64], variable: u32) -> i64
    requires known { variable < length old.now + length fresh.now }
    requires small { All (λ y. unsigned_abs y ≤ 2 ^ 40) old.now }
    requires small_fresh { All (λ y. unsigned_abs y ≤ 2 ^ 40) fresh.now }
    ensures value { result ≡ with_fresh (length old.now) (entries old.now) (entries fresh.now) variable }
    ensures small { unsigned_abs result ≤ 2 ^ 40 }
{
    let index = variable as usize;
    if index < old.len() {
        old[index]
    } else {
        fresh[index - old.len()]
    }
}

/// What a row is worth.
fn worth(r: &Row, old: &[i64], fresh: &[i64]) -> i128
    requires below { IsBelow (length old.now + length fresh.now) r.now }
    requires few { length r.now.pairs ≤ 4096 }
    requires small { All (λ y. unsigned_abs y ≤ 2 ^ 40) old.now }
    requires small_fresh { All (λ y. unsigned_abs y ≤ 2 ^ 40) fresh.now }
    ensures { result ≡ row_value (with_fresh (length old.now) (entries old.now) (entries fresh.now)) r.now }
{
    let mut sum = i128::from(r.constant);
    for (variable, coefficient) in r.pairs.as_slice() {
        sum = plus_product(sum, *coefficient, entry(old, fresh, *variable));
    }
    sum
}

/// Whether a row is at least 0.
fn is_met(r: &Row, old: &[i64], fresh: &[i64]) -> bool
    requires below { IsBelow (length old.now + length fresh.now) r.now }
    requires few { length r.now.pairs ≤ 4096 }
    requires small { All (λ y. unsigned_abs y ≤ 2 ^ 40) old.now }
    requires small_fresh { All (λ y. unsigned_abs y ≤ 2 ^ 40) fresh.now }
    ensures { IsTrue result ↔ IsMet (with_fresh (length old.now) (entries old.now) (entries fresh.now)) r.now }
{
    worth(r, old, fresh) >= 0
}

/// Whether the guard of a transition holds where the variables have the values `old`, from variable 0 on, and its fresh
/// ones the values `fresh`. Each variable of the guard has one of these values, which are within 2 to the power 40 in
/// size, and a row has at most 4096 pairs. It takes no memory.
pub fn meets(t: &Transition, old: &[i64], fresh: &[i64]) -> bool
    requires below { All (IsBelow (length old.now + length fresh.now)) t.now.guard }
    requires few { All (λ r. length r.pairs ≤ 4096) t.now.guard }
    requires small { All (λ y. unsigned_abs y ≤ 2 ^ 40) old.now }
    requires small_fresh { All (λ y. unsigned_abs y ≤ 2 ^ 40) fresh.now }
    ensures { IsTrue result ↔ AreMet (with_fresh (length old.now) (entries old.now) (entries fresh.now)) t.now.guard }
{
    for row in t.guard.as_slice() {
        if !is_met(row, old, fresh) {
            return false;
        }
    }
    true
}
