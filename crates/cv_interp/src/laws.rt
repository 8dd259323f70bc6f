ghost use Rattle.cv_interp.specs.Start.{StartsAsDefined};

/// What a run of main starts with, in a memory of globals, literals and texts, is one of the start states over which a
/// clean program is defined.
#[tactic(auto, using(crate::proofs::Starts::starts_as_defined))]
pub fn start_law()
    ensures { StartsAsDefined }
{}
