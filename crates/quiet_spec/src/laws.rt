//! Laws of quiet ticks, each the contract of a function that does nothing.

ghost use Rattle.std.specs.Prelude.{◌≡◌, ◌+◌, ◌≤◌};
ghost use Rattle.quiet_spec.specs.Histories.{history_at};
ghost use Rattle.quiet_spec.specs.Quiet.{WhileQuiet, TrainsDrift};

/// In quiet ticks each train that they concern goes on under the authority that it has, and any other stays.
pub fn trains_go_on()
    ensures { WhileQuiet TrainsDrift }
{}

/// In quiet ticks nothing is added to the history.
pub fn history_stays()
    ensures { WhileQuiet (λ d routes p k j. 1 ≤ k → history_at d routes p (k + j) ≡ history_at d routes p k) }
{}
