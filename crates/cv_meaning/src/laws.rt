ghost use Rattle.cv_meaning.specs.Laws.{LargerBoundsAgree, RunsByStep, ErrorsStay, ReturnsStay};
ghost use Rattle.cv_meaning.specs.Worked.{RunsEnd, StoresPastItsBuffer};

/// A larger bound of the run's recursion changes nothing: only the number of steps counts.
#[tactic(auto, using(crate::proofs::Bounds::larger_bounds_agree))]
pub fn bound_law()
    ensures { LargerBoundsAgree }
{}

/// A run of some steps is one step, and then runs of fewer steps.
#[tactic(auto, using(crate::proofs::Bounds::runs_by_step))]
pub fn step_by_step_law()
    ensures { RunsByStep }
{}

/// A run that errs, errs likewise with more steps; one that returns, returns likewise and leaves
/// these steps too.
#[tactic(auto, using(crate::proofs::MoreSteps::errors_stay, crate::proofs::MoreSteps::returns_stay))]
pub fn end_law()
    ensures errors { ErrorsStay }
    ensures returns { ReturnsStay }
{}

/// Worked runs of small programs, each with its end.
#[tactic(auto, using(crate::proofs::Worked::runs_end))]
pub fn worked_runs()
    ensures { RunsEnd }
{}

/// A program that stores past the end of its buffer isn't clean.
#[tactic(auto, using(crate::proofs::Worked::not_clean))]
pub fn unclean_law()
    ensures { StoresPastItsBuffer }
{}
