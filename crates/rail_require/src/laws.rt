//! Laws of histories, each the contract of a function that does nothing.

ghost use Rattle.rail_base.specs.Admitted.{IsAdmitted};
ghost use Rattle.rail_require.specs.Ticks.{PathsAreShort, HistoriesHaveNumbers, FormedHaveNumbers};
ghost use Rattle.rail_laws.specs.Plans.{EachPlan};

/// The history of a run has numbers of 32 bits where its paths have so few commands, so also where the plan is well
/// formed and has so few steps.
pub fn histories_have_numbers()
    ensures paths { EachPlan (λ d routes plan. IsAdmitted d → PathsAreShort plan → HistoriesHaveNumbers d routes plan) }
    ensures plans { EachPlan (λ d routes plan. IsAdmitted d → FormedHaveNumbers d routes plan) }
{}
