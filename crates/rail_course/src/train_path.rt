//! The paths of trains, and what is worked out of them.

ghost use Rattle.std.specs.Prelude.{◌≡◌, IfOk};
ghost use Rattle.rail_base.specs.Stations.{IsTrain};
ghost use Rattle.rail_course.specs.Itineraries.{AreTrainPathsIn, IsTrainPathIn, path_in};
ghost use Rattle.rail_course.specs.Tracks.{IsPathInRange};

use crate::dwells::{Dwell, dwells_of};
use crate::itineraries::Itineraries;
use crate::milestones::{Milestone, node_milestones};
use crate::motor::motor_of;
use crate::path_nodes::{path_nodes_of, visits_of};
use crate::prefixes::{PathPrefix, prefixes_of};
use crate::spans::spans_of;
use rail_base::route::RouteNo;
use rail_base::state::PathNode;
use rail_base::station::TrainNo;
use rail_motion::{Motor, Span};
use std::alloc::{AllocError, Global};

/// A train with its path, and what is worked out of them once.
#[derive(Drop)]
pub struct TrainPath {
    pub train: TrainNo,
    /// The length of the train, in mm.
    pub length: u64,
    pub motor: Motor,
    /// The routes of the train's path, in order.
    pub path: Vec<RouteNo>,
    /// The prefixes of the path, by how many routes they have.
    pub prefixes: Vec<PathPrefix>,
    /// The spans of the whole path.
    pub spans: Vec<Span>,
    /// The nodes of the path, in order.
    pub path_nodes: Vec<PathNode>,
    /// The same by their places, the nearest first.
    pub node_milestones: Vec<Milestone>,
    /// Where each visit is made, if the path makes it.
    pub visits: Vec<Option<PathNode>>,
    /// How long the train stands at each visit.
    pub dwells: Vec<Dwell>,
}

impl Itineraries<'_> {
    /// The train paths of all trains, in file order.
    pub(crate) fn train_paths(&self, alloc: Global) -> Result<Vec<TrainPath>, AllocError>
        ensures { IfOk result (λ cs. AreTrainPathsIn self.now cs.items) }
    {
        let mut train_paths = Vec::new(alloc);
        for number in 1..self.interlocking.design.station.trains.len() as u32 + 1 {
            train_paths.push(self.train_path_of(alloc, TrainNo(number))?)?;
        }
        Ok(train_paths)
    }

    /// The path of a train.
    fn path(&self, train: TrainNo) -> &[RouteNo]
        requires { IsTrain self.now.interlocking.now.design.station train }
        ensures path { result.now ≡ path_in self.now train }
        ensures range { IsPathInRange self.now.interlocking.now.routes result.now }
    {
        self.paths.as_slice()[train.0 as usize - 1].as_slice()
    }

    /// The train path of a train.
    fn train_path_of(&self, alloc: Global, train: TrainNo) -> Result<TrainPath, AllocError>
        requires train { IsTrain self.now.interlocking.now.design.station train }
        ensures train_path { IfOk result (IsTrainPathIn self.now) }
        ensures train { IfOk result (λ c. c.train ≡ train) }
    {
        let design = &self.interlocking.design;
        let path = self.path(train);
        let prefixes = prefixes_of(alloc, &self.interlocking.routes, path)?;
        let spans = spans_of(alloc, self.interlocking, path)?;
        let path_nodes = path_nodes_of(alloc, self.interlocking, path)?;
        let node_milestones = node_milestones(alloc, &path_nodes)?;
        let visits = visits_of(alloc, design.train(train).visits.as_slice(), &path_nodes)?;
        let dwells = dwells_of(alloc, design, design.train(train).dwell_ms.as_slice())?;
        Ok(TrainPath {
            train,
            length: u64::from(design.vehicle_of(train).length_mm),
            motor: motor_of(design, train),
            path: path.to_vec(alloc)?,
            prefixes,
            spans,
            path_nodes,
            node_milestones,
            visits,
            dwells,
        })
    }
}
