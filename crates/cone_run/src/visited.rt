//! The ticks of visits in the runs of cones.

ghost use Rattle.std.specs.Prelude.{◌≡◌, true, IfOk};
ghost use Rattle.rail_base.specs.Stations.{IsTrain};
ghost use Rattle.cone_form.specs.Fits.{fits};
ghost use Rattle.cone_run.specs.Layouts.{visit_in_layout, station_of};
ghost use Rattle.cone_run.specs.Runs.{visit_in_run};

use crate::checked::ConeRun;
use crate::layout::ConeLayout;
use crate::waits::horizon_of;
use cone_spec::Cone;
use interlocking::Interlocking;
use rail_base::station::TrainNo;
use std::alloc::{AllocError, Global};

/// The tick at which a train makes a visit in the run of a cone, up to the train's horizon. None where it is not made,
/// or where some free command is not granted or some holder is not valid.
///
/// # Errors
///
/// Want of memory alone.
pub fn visit_in_run(
    alloc: Global,
    interlocking: &Interlocking,
    cone: &Cone,
    train: TrainNo,
    visit: u32,
) -> Result<Option<u64>, AllocError>
    requires known { fits interlocking.now cone.now ≡ true }
    requires train { IsTrain interlocking.now.design.station train }
    ensures { IfOk result (λ tick. tick ≡ visit_in_run interlocking.now cone.now train visit) }
{
    let layout = ConeLayout { interlocking, cone };
    layout.visit_made(alloc, train, visit)
}

impl ConeRun<'_> {
    /// The tick, up to the train's horizon, of a visit, where the cone's commands are granted or held up as it says.
    fn visit_made(&self, train: TrainNo, visit: u32) -> Option<u64>
        requires train { IsTrain (station_of self.now.layout) train }
        ensures { result ≡ visit_in_layout self.now.layout train visit }
    {
        if !self.all_granted() || !self.all_holders_fit() {
            return None;
        }
        self.visit_tick(horizon_of(self.layout.cone, train), train, visit)
    }
}

impl ConeLayout<'_> {
    /// The tick, up to the train's horizon, of a visit, where the cone's commands are granted or held up as it says.
    fn visit_made(
        &self,
        alloc: Global,
        train: TrainNo,
        visit: u32,
    ) -> Result<Option<u64>, AllocError>
        requires train { IsTrain (station_of self.now) train }
        ensures { IfOk result (λ tick. tick ≡ visit_in_layout self.now train visit) }
    {
        let history = self.history(alloc)?;
        let run = ConeRun {
            layout: *self,
            history: history.as_slice(),
        };
        Ok(run.visit_made(train, visit))
    }
}
