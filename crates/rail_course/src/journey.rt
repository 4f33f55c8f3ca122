//! The journeys of trains.

ghost use Rattle.std.specs.Prelude.{◌≡◌, IfOk, OnOk, length, map, nat_abs};
ghost use Rattle.rail_base.specs.Routes.{IsRoute};
ghost use Rattle.rail_spec.specs.Dispatches.{Dispatch};
ghost use Rattle.rail_course.specs.Itineraries.{AllGiveIn, AreJourneysIn, IsCommandIn, IsTrainPathIn, IsJourneyIn};
ghost use Rattle.rail_course.specs.Itineraries.{path_in, releases_in};
ghost use Rattle.rail_course.specs.Itineraries.{holds_in, route_holds_in, route_releases_in};
ghost use Rattle.rail_course.specs.Holds.{AddsHolds};
ghost use Rattle.rail_course.specs.Milestones.{ComeInTurn};
ghost use Rattle.rail_course.specs.Releases.{AddsReleases};

use crate::dwells::whole_ticks;
use crate::itineraries::Itineraries;
use crate::milestones::{Milestone, release_milestones};
use crate::train_path::TrainPath;
use crate::train_paths::TrainPaths;
use crate::waits::Wait;
use rail_base::list::List;
use rail_base::plan::Command;
use rail_base::route::{RouteNo, route_at};
use rail_base::state::{Event, TrainEvent};
use rail_base::station::SectionNo;
use std::alloc::{AllocError, Global};

/// How a train releases a section that one of its routes goes over.
#[derive(Clone, Copy, Debug)]
pub struct Release {
    pub route: RouteNo,
    pub section: SectionNo,
    pub event: Event,
}

/// How a train holds a section of the overlap at the end of one of its routes: until so many ticks after it has come
/// there.
#[derive(Clone, Copy, Debug)]
pub struct Hold {
    pub route: RouteNo,
    pub section: SectionNo,
    pub event: TrainEvent,
    /// Which of the nodes of its path is the end of that route, counted from 0.
    pub node: usize,
}

/// A train path with what its commands wait for and how its sections are released.
#[derive(Drop)]
pub struct Journey {
    pub train_path: TrainPath,
    /// For each command of the path, what it waits for.
    pub waits: Vec<Vec<Wait>>,
    /// The sections that each route of the path goes over.
    pub releases: Vec<Release>,
    /// The same by their places, the nearest first.
    pub release_milestones: Vec<Milestone>,
    /// Those of the overlap at the end of each route of the path.
    pub holds: Vec<Hold>,
}

impl TrainPaths<'_> {
    /// The releases of a command's own sections.
    pub(crate) fn releases_of(
        &self,
        alloc: Global,
        command: Command,
    ) -> Result<Vec<Release>, AllocError>
        requires { IsCommandIn self.now.given command }
        ensures { IfOk result (λ r. r.items ≡ route_releases_in self.now.given command.train command.route) }
    {
        let mut releases = Vec::new(alloc);
        let train_path = self.train_path(command.train);
        self.given
            .push_releases(&mut releases, train_path, command.route)?;
        Ok(releases)
    }

    /// The holds of a command.
    pub(crate) fn holds_of(&self, alloc: Global, command: Command) -> Result<Vec<Hold>, AllocError>
        requires { IsCommandIn self.now.given command }
        ensures { IfOk result (λ h. h.items ≡ route_holds_in self.now.given command.train command.route) }
    {
        let mut holds = Vec::new(alloc);
        let train_path = self.train_path(command.train);
        self.given
            .push_holds(&mut holds, train_path, command.route)?;
        Ok(holds)
    }

    /// The journeys of all trains, in file order, where the commands of each wait so.
    pub fn into_journeys(
        self,
        alloc: Global,
        waits: Vec<List<Vec<Wait>>>,
    ) -> Result<Vec<Journey>, AllocError>
        requires { length waits.items ≡ length self.given.interlocking.now.design.station.trains }
        ensures { IfOk result (λ js. (p : Dispatch) → path_in self.entry.given ≡ p.path
            → AllGiveIn self.entry.given p waits.items → AreJourneysIn self.entry.given p js.items) }
    {
        let TrainPaths {
            given,
            train_paths,
            ..
        } = self;
        let mut left = train_paths;
        let mut all_waits = waits;
        let mut journeys = Vec::new(alloc);
        for _number in 0..given.interlocking.design.station.trains.len() {
            let train_path = left.remove(0);
            let own = all_waits.remove(0).into_vec();
            journeys.push(given.journey(alloc, train_path, own)?)?;
        }
        Ok(journeys)
    }
}

impl Itineraries<'_> {
    /// The journey of a train on its path, where its commands wait so.
    fn journey(
        &self,
        alloc: Global,
        train_path: TrainPath,
        waits: Vec<Vec<Wait>>,
    ) -> Result<Journey, AllocError>
        requires { IsTrainPathIn self.now train_path }
        ensures train_path { IfOk result (λ j. j.train_path ≡ train_path) }
        ensures journey { IfOk result (IsJourneyIn self.now train_path (map (λ w. w.items) waits.items)) }
    {
        let releases = self.releases_of_train(alloc, &train_path)?;
        let release_milestones = release_milestones(alloc, &releases)?;
        let holds = self.holds_of_train(alloc, &train_path)?;
        Ok(Journey {
            train_path,
            waits,
            releases,
            release_milestones,
            holds,
        })
    }

    /// Adds the releases of one route of a train's path.
    fn push_releases(
        &self,
        releases: &mut Vec<Release>,
        train_path: &TrainPath,
        number: RouteNo,
    ) -> Result<(), AllocError>
        requires train_path { IsTrainPathIn self.now train_path.now }
        requires number { IsRoute self.now.interlocking.now.routes number }
        ensures { OnOk result (AddsReleases releases.old releases.new
            (route_releases_in self.now train_path.now.train number)) }
    {
        let before = self.place_of(train_path, number);
        let route = route_at(&self.interlocking.routes, number);
        for part in route.sections.as_slice() {
            let event = Event {
                granted: before.granted,
                place: before.prefix.length + offset_of(part) + train_path.length,
            };
            releases.push(Release {
                route: number,
                section: part.0,
                event,
            })?;
        }
        Ok(())
    }

    /// The releases of a train's path.
    fn releases_of_train(
        &self,
        alloc: Global,
        train_path: &TrainPath,
    ) -> Result<Vec<Release>, AllocError>
        requires { IsTrainPathIn self.now train_path.now }
        ensures releases { IfOk result (λ r. r.items ≡ releases_in self.now train_path.now.train) }
        ensures in_turn { IfOk result (λ r. ComeInTurn (λ r. r.event.place) (λ r. r.event.granted) r.items) }
    {
        let mut releases = Vec::new(alloc);
        for number in &train_path.path {
            self.push_releases(&mut releases, train_path, *number)?;
        }
        Ok(releases)
    }

    /// Adds the holds of one route of a train's path.
    fn push_holds(
        &self,
        holds: &mut Vec<Hold>,
        train_path: &TrainPath,
        number: RouteNo,
    ) -> Result<(), AllocError>
        requires train_path { IsTrainPathIn self.now train_path.now }
        requires number { IsRoute self.now.interlocking.now.routes number }
        ensures { OnOk result (AddsHolds holds.old holds.new
            (route_holds_in self.now train_path.now.train number)) }
    {
        let before = self.place_of(train_path, number);
        let route = route_at(&self.interlocking.routes, number);
        let arrival = Event {
            granted: before.granted,
            place: before.prefix.length + route.length_mm(),
        };
        let node = before.prefix.spans + route.edges.len();
        for part in route.overlaps.as_slice() {
            let event = TrainEvent {
                train: train_path.train,
                event: arrival,
                ticks: whole_ticks(&self.interlocking.design, route.hold_ms(part.section)),
            };
            holds.push(Hold {
                route: number,
                section: part.section,
                event,
                node,
            })?;
        }
        Ok(())
    }

    /// The holds of a train's path.
    fn holds_of_train(&self, alloc: Global, train_path: &TrainPath) -> Result<Vec<Hold>, AllocError>
        requires { IsTrainPathIn self.now train_path.now }
        ensures { IfOk result (λ h. h.items ≡ holds_in self.now train_path.now.train) }
    {
        let mut holds = Vec::new(alloc);
        for number in &train_path.path {
            self.push_holds(&mut holds, train_path, *number)?;
        }
        Ok(holds)
    }
}

/// Where a section of a route is released, in mm from the start of the route.
fn offset_of(part: &(SectionNo, i64)) -> u64
    ensures { result ≡ nat_abs part.now.1 }
{
    part.1.unsigned_abs()
}
