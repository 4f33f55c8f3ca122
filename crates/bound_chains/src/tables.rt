//! What is looked up of a design: on which routes visits can be made, and which routes lead to which.

ghost use Rattle.std.specs.Prelude.{◌≡◌};
ghost use Rattle.rail_base.specs.Stations.{IsTrain};
ghost use Rattle.bound_chains.specs.Tables.{list_of};

use crate::known::{count_routes, count_trains};
use bound_design::visit_of;
use interlocking::Interlocking;
use rail_base::route::{Finish, Route, RouteNo, Start};
use rail_base::station::TrainNo;
use std::alloc::{AllocError, Global};

/// The lists of a design, each of routes in increasing order.
#[derive(Drop)]
pub struct Tables {
    /// For each train and each visit of it the routes on which it can be made.
    visits: Vec<Vec<Vec<RouteNo>>>,
    /// For each signal the routes that end there, and those that start there.
    ending: Vec<Vec<RouteNo>>,
    starting: Vec<Vec<RouteNo>>,
}

impl Tables {
    ghost use Rattle.bound_chains.specs.Tables.{lists_of_visits, routes_after, routes_before, routes_of_visit};

    /// The lists of a design.
    ///
    /// # Errors
    ///
    /// Want of memory alone.
    pub fn of(alloc: Global, interlocking: &Interlocking) -> Result<Tables, AllocError> {
        let mut tables = Tables {
            visits: visits_of_trains(alloc, interlocking)?,
            ending: signal_lists(alloc, interlocking)?,
            starting: signal_lists(alloc, interlocking)?,
        };
        for number in 1..count_routes(interlocking) + 1 {
            let route = RouteNo(number);
            tables.add(route, interlocking.route(route))?;
        }
        Ok(tables)
    }

    /// For each visit of a train the routes on which it can be made; nothing for a train that the design does not have.
    pub fn visits(&self, train: TrainNo) -> &[Vec<RouteNo>]
        ensures { result.now ≡ lists_of_visits self.now train }
    {
        if train.0 == 0 {
            return &[];
        }
        match self.visits.get(train.0 as usize - 1) {
            Some(visits) => visits.as_slice(),
            None => &[],
        }
    }

    /// The routes on which a visit can be made, counted from 1.
    pub fn visit(&self, train: TrainNo, number: u32) -> &[RouteNo]
        ensures { result.now ≡ routes_of_visit self.now train number }
    {
        if number == 0 {
            return &[];
        }
        match self.visits(train).get(number as usize - 1) {
            Some(routes) => routes.as_slice(),
            None => &[],
        }
    }

    /// The routes that end where one starts.
    pub fn before(&self, start: Start) -> &[RouteNo]
        ensures { result.now ≡ routes_before self.now start }
    {
        match start {
            Start::Signal(signal) => list_at(&self.ending, signal.0),
            Start::Boundary(_) => &[],
        }
    }

    /// The routes that start where one ends.
    pub fn after(&self, finish: Finish) -> &[RouteNo]
        ensures { result.now ≡ routes_after self.now finish }
    {
        match finish {
            Finish::Signal(signal) => list_at(&self.starting, signal.0),
            Finish::Exit(_) | Finish::DeadEnd(_) => &[],
        }
    }

    /// Adds a route to the lists of the signals where it starts and ends.
    fn add(&mut self, number: RouteNo, route: &Route) -> Result<(), AllocError> {
        if let Finish::Signal(signal) = route.finish {
            add_at(&mut self.ending, signal.0, number)?;
        }
        if let Start::Signal(signal) = route.start {
            add_at(&mut self.starting, signal.0, number)?;
        }
        Ok(())
    }
}

/// The routes on which a visit can be made.
fn routes_of_visit(
    alloc: Global,
    interlocking: &Interlocking,
    train: TrainNo,
    number: usize,
) -> Result<Vec<RouteNo>, AllocError> {
    let visit = visit_of(alloc, &interlocking.design.station, train, number)?;
    let mut routes = Vec::new(alloc);
    for number in 1..count_routes(interlocking) + 1 {
        let route = RouteNo(number);
        if visit.may_visit(interlocking.route(route)) {
            routes.push(route)?;
        }
    }
    Ok(routes)
}

/// The same for each visit of a train.
fn visits_of_train(
    alloc: Global,
    interlocking: &Interlocking,
    train: TrainNo,
) -> Result<Vec<Vec<RouteNo>>, AllocError>
    requires { IsTrain interlocking.now.design.station train }
{
    let mut visits = Vec::new(alloc);
    for index in 0..interlocking.design.train(train).visits.len() {
        visits.push(routes_of_visit(alloc, interlocking, train, index + 1)?)?;
    }
    Ok(visits)
}

/// The same for each train.
fn visits_of_trains(
    alloc: Global,
    interlocking: &Interlocking,
) -> Result<Vec<Vec<Vec<RouteNo>>>, AllocError> {
    let mut all = Vec::new(alloc);
    for number in 1..count_trains(interlocking) + 1 {
        all.push(visits_of_train(alloc, interlocking, TrainNo(number))?)?;
    }
    Ok(all)
}

/// An empty list for each signal.
fn signal_lists(
    alloc: Global,
    interlocking: &Interlocking,
) -> Result<Vec<Vec<RouteNo>>, AllocError> {
    let mut lists = Vec::new(alloc);
    for _signal in 0..interlocking.design.station.signals.len() {
        lists.push(Vec::new(alloc))?;
    }
    Ok(lists)
}

/// Adds a route to the list of a signal.
fn add_at(lists: &mut Vec<Vec<RouteNo>>, signal: u32, route: RouteNo) -> Result<(), AllocError> {
    if signal == 0 {
        return Ok(());
    }
    match lists.get_mut(signal as usize - 1) {
        Some(list) => {
            list.push(route)?;
            Ok(())
        }
        None => Ok(()),
    }
}

/// The list of a signal.
fn list_at(lists: &[Vec<RouteNo>], signal: u32) -> &[RouteNo]
    ensures { result.now ≡ list_of lists.now signal }
{
    if signal == 0 {
        return &[];
    }
    match lists.get(signal as usize - 1) {
        Some(list) => list.as_slice(),
        None => &[],
    }
}
