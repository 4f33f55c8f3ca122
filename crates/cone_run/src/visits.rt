//! Visits in the history of a cone.

ghost use Rattle.std.specs.Prelude.{◌≡◌, ◌≤◌, None};
ghost use Rattle.rail_base.specs.Numbering.{entry};
ghost use Rattle.rail_base.specs.Stations.{IsTrain};
ghost use Rattle.cone_run.specs.Runs.{last_tick};
ghost use Rattle.cone_run.specs.Layouts.{station_of, visit_in};

use crate::asked::up_to;
use crate::checked::ConeRun;
use rail_base::state::PathNode;
use rail_base::station::TrainNo;
use rail_require::visit_tick;

/// The entry of a number, counted from 1.
pub(crate) fn place_of(visits: &[Option<PathNode>], visit: u32) -> Option<PathNode>
    ensures { result ≡ entry None visits.now visit }
{
    if visit == 0 || visits.len() < visit as usize {
        return None;
    }
    visits[visit as usize - 1]
}

impl ConeRun<'_> {
    /// The tick, up to the last one, of a train's visit.
    pub(crate) fn visit_tick(&self, last: u64, train: TrainNo, visit: u32) -> Option<u64>
        requires within { last ≤ last_tick self.now.layout.cone.now }
        requires train { IsTrain (station_of self.now.layout) train }
        ensures { result ≡ visit_in self.now.layout last train visit }
    {
        up_to(visit_tick(self.history, train, visit), last)
    }
}
