//! The train paths of all trains.

ghost use Rattle.std.specs.Prelude.{◌≡◌, IfOk};
ghost use Rattle.rail_base.specs.Stations.{IsTrain};
ghost use Rattle.rail_course.specs.Itineraries.{AreTrainPathsIn, IsTrainPathIn};

use crate::itineraries::Itineraries;
use crate::train_path::TrainPath;
use rail_base::station::TrainNo;
use std::alloc::{AllocError, Global};

/// The train paths that itineraries give the trains, in file order.
#[derive(Drop)]
pub struct TrainPaths<'a> {
    pub given: Itineraries<'a>,
    pub train_paths: Vec<TrainPath>,
    pub ghost are_train_paths: { AreTrainPathsIn given train_paths.items },
}

impl<'a> TrainPaths<'a> {
    /// The train paths on these paths.
    pub fn of(alloc: Global, given: Itineraries<'a>) -> Result<TrainPaths<'a>, AllocError>
        ensures { IfOk result (λ t. t.given ≡ given.entry) }
    {
        let train_paths = given.train_paths(alloc)?;
        Ok(TrainPaths { given, train_paths })
    }

    /// The train path of a train.
    pub fn train_path(&self, train: TrainNo) -> &TrainPath
        requires { IsTrain self.now.given.interlocking.now.design.station train }
        ensures train_path { IsTrainPathIn self.now.given result.now }
        ensures train { result.now.train ≡ train }
    {
        &self.train_paths.as_slice()[train.0 as usize - 1]
    }
}
