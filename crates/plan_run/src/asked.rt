//! What is asked at the ticks of a run.

ghost use Rattle.std.specs.Prelude.{◌≡◌, ◌<◌, None};
ghost use Rattle.rail_require.specs.Ticks.{HasNumbers};
ghost use Rattle.rail_require.specs.Violations.{violation_in};
ghost use Rattle.plan_run.specs.Due.{IsDue, may_fail, StaysDue, HoldsElse};

use crate::due::next_due;
use dispatch_run::Progress;
use rail_base::design::Design;
use rail_base::plan::Violation;
use rail_require::violation_of_history;

/// The next tick, up to the last, at which a greatest time may end. It stays until it comes, or a visit is made.
pub(crate) fn due_after(design: &Design, progress: &Progress, due: u64, last: u64) -> u64
    requires now { progress.now.tick < last }
    requires stays { StaysDue design.now.station progress.now due last }
    ensures { IsDue design.now.station progress.now.histories.items progress.now.tick last result }
{
    if may_fail(progress, due) {
        next_due(design, progress.histories.as_slice(), progress.tick, last)
    } else {
        due
    }
}

/// The first violation that is certain at the tick of a run. It is looked for only where something may fail.
pub(crate) fn violation_now(design: &Design, progress: &Progress, due: u64) -> Option<Violation>
    requires numbers { HasNumbers progress.now.histories.items }
    requires else_none { HoldsElse design.now.station progress.now due }
    ensures { result ≡ violation_in design.now.station progress.now.histories.items progress.now.tick }
{
    if may_fail(progress, due) {
        violation_of_history(design, progress.histories.as_slice(), progress.tick)
    } else {
        None
    }
}

/// Whether something may fail at the tick of a run: a visit is made in it, or it is the one that is due.
fn may_fail(progress: &Progress, due: u64) -> bool
    ensures { result ≡ may_fail progress.now due }
{
    progress.visited || progress.tick == due
}
