//! What a search shows, finished or not.

ghost use Rattle.log_recorder.specs.Laws.{DenialsAreSo, EndedRunsAreAccepted};

use proof_log::lines_read_back;

/// A run log with its last line is a file that shows that there is no plan of n steps.
pub fn ended_runs_are_accepted()
    ensures { EndedRunsAreAccepted }
{
    lines_read_back();
}

/// A live clause of a run log that says that there is no plan of so many steps is right.
pub fn denials_are_so()
    ensures { DenialsAreSo }
{}
