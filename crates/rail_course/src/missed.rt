//! The first visit that no path makes.

ghost use Rattle.std.specs.Prelude.{◌≡◌, ◌<◌, ◌^◌, is_none, length};
ghost use Rattle.std.specs.List.{position_from};
ghost use Rattle.rail_spec.specs.Requirements.{path_violation};
ghost use Rattle.interlocking.specs.Plans.{on};

use crate::journeys::PlannedJourneys;
use rail_base::plan::Violation;
use rail_base::state::PathNode;

impl PlannedJourneys<'_> {
    /// The first visit, by train, that no path makes.
    pub fn path_violation(&self) -> Option<Violation>
        ensures { result ≡ on self.now.interlocking.now path_violation self.now.plan.now.steps }
    {
        for journey in self.journeys.as_slice() {
            if let Some(visit) = first_missed(journey.train_path.visits.as_slice()) {
                return Some(Violation::Path {
                    train: journey.train_path.train,
                    visit,
                });
            }
        }
        None
    }
}

/// The number of the first visit that is made nowhere.
fn first_missed(visits: &[Option<PathNode>]) -> Option<u32>
    requires { length visits.now < 2 ^ 32 }
    ensures { result ≡ position_from is_none 1 visits.now }
{
    visits
        .iter()
        .position(|place| place.is_none())
        .map(|place| place as u32 + 1)
}
