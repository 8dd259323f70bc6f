//! Worked programs, as functions whose clauses are what is worked out.
ghost use Rattle.cv_core.specs.Worked.{ContractsFail, HeadingsFail, LimitsPass, OrderOfFaults, StatementsFail};

/// The first fault of small programs, each rule at each kind of place and the order of two faults, and the first
/// limit that is passed at its last value and one past it. It does nothing.
#[tactic(auto, using(crate::proofs::Worked::statements_fail, crate::proofs::Worked::contracts_fail, crate::proofs::Worked::headings_fail, crate::proofs::Worked::order_of_faults, crate::proofs::Worked::limits_pass))]
pub fn worked_faults()
    ensures statements { StatementsFail }
    ensures contracts { ContractsFail }
    ensures headings { HeadingsFail }
    ensures order { OrderOfFaults }
    ensures limits { LimitsPass }
{}
