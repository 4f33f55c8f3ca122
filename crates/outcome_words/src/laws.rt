//! What the lines say of a plan, each law the contract of a function that does nothing.

ghost use Rattle.outcome_words.specs.Laws.{OutcomesAreSo, WaitsAreSo};

use run_drawing::endings_are_so;

/// Where so many ticks of a run decide a plan, the lines are those of what has happened up to the deciding tick: the
/// ticks of visits and of the ends of stands are those of the run, an order or a within that is said to be met is kept
/// by the horizon, and one that is said to be broken is not.
pub fn outcomes_are_so()
    ensures { OutcomesAreSo }
{
    endings_are_so();
}

/// Each wait begins with the run or where the train has passed the last node before, and lasts up to the grant or the
/// end; a release is named, and it is that of a section which the command shares with one that precedes it, and comes
/// in the last tick of the wait where the command is granted, and else not before it.
pub fn waits_are_so()
    ensures { WaitsAreSo }
{}
