//! What is read from bytes is what they spell, and nothing else is; and what plain lines ask for.

ghost use Rattle.rail_spelling.specs.Laws.{DesignsAreSpelled, SpelledDesignsAreOne};
ghost use Rattle.rail_spelling.specs.Laws.{PlansAreSpelled, SpelledPlansAreOne};
ghost use Rattle.rail_spelling.specs.Laws.{SimulateLinesAsk, VerifyLinesAsk, CheckLinesAsk, TrialLinesAsk};
ghost use Rattle.rail_spelling.specs.Laws.{TightestLinesAsk, CheckInTimeLinesAsk};

/// Bytes spell the design that is read from them.
pub fn designs_are_spelled()
    ensures { DesignsAreSpelled }
{}

/// Bytes in which nothing is refused spell no design but the one that is read from them.
pub fn spelled_designs_are_one()
    ensures { SpelledDesignsAreOne }
{}

/// Bytes spell the plan that is read from them.
pub fn plans_are_spelled()
    ensures { PlansAreSpelled }
{}

/// Bytes in which nothing is refused spell no plan of a design that was read but the one that is read from them.
pub fn spelled_plans_are_one()
    ensures { SpelledPlansAreOne }
{}

/// A plain line of `simulate` asks for the simulation of that plan over that design.
pub fn simulate_lines_ask()
    ensures { SimulateLinesAsk }
{}

/// A plain line of `verify` asks for a search for a plan of so many steps, with its budgets, and by bounds where the
/// flag is given.
pub fn verify_lines_ask()
    ensures { VerifyLinesAsk }
{}

/// A plain line of `tightest` asks for a search for the tightest time of that within, for plans of so many steps, with its
/// budgets, and by bounds where the flag is given.
pub fn tightest_lines_ask()
    ensures { TightestLinesAsk }
{}

/// A plain line of `check` asks for the check of that proof over that design, for so many steps.
pub fn check_lines_ask()
    ensures { CheckLinesAsk }
{}

/// One with a greatest time asks for that with this time put into that within.
pub fn check_in_time_lines_ask()
    ensures { CheckInTimeLinesAsk }
{}

/// A plain line of `trial` asks for a trial of that seed and size.
pub fn trial_lines_ask()
    ensures { TrialLinesAsk }
{}
