//! The trains of a plan.

ghost use Rattle.std.specs.Prelude.{IfOk};
ghost use Rattle.dispatch_run.specs.FollowedTrains.{AreFollowedTrains};
ghost use Rattle.interlocking.specs.Plans.{on};
ghost use Rattle.rail_course.specs.Dispatched.{dispatch_of};

use dispatch_run::FollowedTrain;
use rail_course::PlannedJourneys;
use std::alloc::{AllocError, Global};

/// The trains of a plan, in file order, each of which is followed for ever.
pub(crate) fn followed_trains(
    planned: PlannedJourneys<'_>,
    alloc: Global,
) -> Result<Vec<FollowedTrain>, AllocError>
    ensures { IfOk result
        (λ f. on planned.entry.interlocking.now AreFollowedTrains (dispatch_of planned.entry) f.items) }
{
    let PlannedJourneys { journeys, .. } = planned;
    let mut left = journeys;
    let mut followed_trains = Vec::new(alloc);
    for _number in 0..left.len() {
        let journey = left.remove(0);
        followed_trains.push(FollowedTrain {
            journey,
            until: None,
        })?;
    }
    Ok(followed_trains)
}
