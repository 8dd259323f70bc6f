ghost use Rattle.std.specs.Prelude.{◌≡◌, List, Option, ℕ};
ghost use Rattle.cv_list.specs.FirstSeen.{IsNumbering, first_seen};

/// The first-seen numbering of keys is one, and the only one: 0 where there is no key, equal numbers exactly where
/// the keys are equal, and new numbers in the order 1, 2, .. It does nothing.
pub fn first_seen_law()
    ensures numbers { (keys : List (Option ℕ)) → IsNumbering keys (first_seen keys) }
    ensures only { (keys : List (Option ℕ)) (numbers : List ℕ) → IsNumbering keys numbers → numbers ≡ first_seen keys }
{}
