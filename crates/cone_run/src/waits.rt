//! What the free commands of a cone wait for.

ghost use Rattle.std.specs.Prelude.{◌≡◌, IfOk, map};
ghost use Rattle.rail_base.specs.Routes.{IsRoute};
ghost use Rattle.rail_base.specs.Stations.{IsTrain};
ghost use Rattle.cone_spec.specs.Cones.{named};
ghost use Rattle.cone_run.specs.Layouts.{AreFollowedTrainsOf, AreJourneysOf};
ghost use Rattle.cone_run.specs.Paths.{AllGiveInCone, AreTrainWaitsInCone, AreWaitsInCone};

use crate::layout::ConeLayout;
use crate::paths::ConePaths;
use cone_spec::Cone;
use dispatch_run::FollowedTrain;
use rail_base::list::List;
use rail_base::plan::Command;
use rail_base::station::TrainNo;
use rail_course::{Journey, Wait};
use std::alloc::{AllocError, Global};

/// The horizon of a train; of one that is not named it is 0.
pub(crate) fn horizon_of(cone: &Cone, train: TrainNo) -> u64
    ensures { result ≡ (named cone.now train).horizon }
{
    for entry in cone.trains.as_slice() {
        if entry.train == train {
            return entry.horizon;
        }
    }
    0
}

/// How many commands of a train are free; of one that is not named none is.
pub(crate) fn free_of(cone: &Cone, train: TrainNo) -> u32
    ensures { result ≡ (named cone.now train).free }
{
    for entry in cone.trains.as_slice() {
        if entry.train == train {
            return entry.free;
        }
    }
    0
}

impl ConeLayout<'_> {
    /// The followed trains of all trains, in file order, each up to the horizon of its train.
    pub(crate) fn followed_trains(
        &self,
        alloc: Global,
        journeys: Vec<Journey>,
    ) -> Result<Vec<FollowedTrain>, AllocError>
        requires { AreJourneysOf self.now journeys.items }
        ensures { IfOk result (λ f. AreFollowedTrainsOf self.now f.items) }
    {
        let mut left = journeys;
        let mut followed_trains = Vec::new(alloc);
        for _number in 0..left.len() {
            let journey = left.remove(0);
            let until = Some(horizon_of(self.cone, journey.train_path.train));
            followed_trains.push(FollowedTrain { journey, until })?;
        }
        Ok(followed_trains)
    }
}

impl ConePaths<'_> {
    /// The journeys of all trains, in file order.
    pub(crate) fn into_journeys(self, alloc: Global) -> Result<Vec<Journey>, AllocError>
        ensures { IfOk result (λ journeys. AreJourneysOf self.entry.layout journeys.items) }
    {
        let waits = self.waits_of_all(alloc)?;
        let ConePaths { train_paths, .. } = self;
        let journeys = train_paths.into_journeys(alloc, waits)?;
        Ok(journeys)
    }

    /// The waits of a command for those that are listed before it.
    fn waits_of(&self, alloc: Global, command: Command) -> Result<Vec<Wait>, AllocError>
        requires { IsRoute self.now.train_paths.given.interlocking.now.routes command.route }
        ensures { IfOk result (λ w. AreWaitsInCone self.now command w.items) }
    {
        let mut waits = Vec::new(alloc);
        for (first, second) in self.layout.cone.pairs.as_slice() {
            if *second == command {
                self.train_paths
                    .push_waits(alloc, &mut waits, command, *first)?;
            }
        }
        Ok(waits)
    }

    /// The waits of each free command of a train.
    fn waits_of_train(&self, alloc: Global, train: TrainNo) -> Result<Vec<Vec<Wait>>, AllocError>
        requires { IsTrain self.now.train_paths.given.interlocking.now.design.station train }
        ensures { IfOk result (λ w. AreTrainWaitsInCone self.now train (map (λ v. v.items) w.items)) }
    {
        let mut waits = Vec::new(alloc);
        let train_path = self.train_paths.train_path(train);
        for route in &train_path.path {
            let command = Command {
                train,
                route: *route,
            };
            let own = self.waits_of(alloc, command)?;
            waits.push(own)?;
        }
        Ok(waits)
    }

    /// For each train, in file order, the waits of each of its free commands.
    fn waits_of_all(&self, alloc: Global) -> Result<Vec<List<Vec<Wait>>>, AllocError>
        ensures { IfOk result (λ waits. AllGiveInCone self.now waits.items) }
    {
        let mut all = Vec::new(alloc);
        let station = &self.train_paths.given.interlocking.design.station;
        for number in 1..station.trains.len() as u32 + 1 {
            let waits = self.waits_of_train(alloc, TrainNo(number))?;
            all.push(List::from_vec(waits))?;
        }
        Ok(all)
    }
}
