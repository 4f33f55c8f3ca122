//! Cones over a station with a boundary, from which an edge leads to a dead end, and one train.

ghost use Rattle.std.specs.Prelude.{◌≡◌, [], ◌∷◌, false, true, pos, IfOk};
ghost use Rattle.rail_base.specs.Admission.{is_admitted};
ghost use Rattle.rail_base.specs.declared.route.Finish.TheVariants as finish;
ghost use Rattle.rail_base.specs.declared.route.Start.TheVariants as start;
ghost use Rattle.rail_spec.specs.Track.{routes_of};

use crate::stations::{edge, name, node, one, train, two, vehicle};
use cone_form::{SortedPairs, is_free, is_in_design};
use cone_spec::{Cone, ConeTrain};
use interlocking::Interlocking;
use rail_base::design::Design;
use rail_base::list::List;
use rail_base::plan::{Command, Violation};
use rail_base::route::{Finish, Route, RouteNo, RouteTable, Start};
use rail_base::station::{EdgeNo, NodeNo, SectionNo, Station, TrainNo};
use std::alloc::{AllocError, Global};

/// A section of 10 m.
fn dead_end(alloc: Global) -> Result<Station, AllocError>
    ensures admitted { IfOk result (λ d. is_admitted d ≡ true) }
    ensures routes { IfOk result (λ d. routes_of d ≡ record {
      start = start.Boundary (record { 0 = 1 });
      finish = finish.DeadEnd (record { 0 = 2 });
      length = pos 10000;
      edges = record { 0 = 1 } ∷ [];
      nodes = (record { 0 = 1 }, pos 0) ∷ (record { 0 = 2 }, pos 10000) ∷ [];
      sections = (record { 0 = 1 }, pos 10000) ∷ [];
      overlaps = [];
    } ∷ []) }
{
    let west = node(alloc, b'w', true)?;
    let east = node(alloc, b'e', false)?;
    let nodes = two(alloc, west, east)?;
    let edge = edge(alloc, b'f', 1, 2, 10_000)?;
    let edges = one(alloc, edge)?;
    let section = name(alloc, b'y')?;
    let sections = one(alloc, section)?;
    let vehicle = vehicle(alloc, b'v')?;
    let vehicles = one(alloc, vehicle)?;
    let train = train(alloc, b'A', 1, 2, 0)?;
    let trains = one(alloc, train)?;
    Ok(Station {
        version: 1,
        tick_ms: 1000,
        horizon_ms: 600_000,
        nodes,
        edges,
        sections,
        signals: List::new(alloc),
        vehicles,
        trains,
        orders: List::new(alloc),
        withins: List::new(alloc),
        overlaps: List::new(alloc),
    })
}

/// Its one route, to the dead end.
fn table(alloc: Global) -> Result<RouteTable, AllocError>
    ensures { IfOk result (λ rs. rs ≡ record {
      start = start.Boundary (record { 0 = 1 });
      finish = finish.DeadEnd (record { 0 = 2 });
      length = pos 10000;
      edges = record { 0 = 1 } ∷ [];
      nodes = (record { 0 = 1 }, pos 0) ∷ (record { 0 = 2 }, pos 10000) ∷ [];
      sections = (record { 0 = 1 }, pos 10000) ∷ [];
      overlaps = [];
    } ∷ []) }
{
    let nodes = two(alloc, (NodeNo(1), 0), (NodeNo(2), 10_000))?;
    let route = Route {
        start: Start::Boundary(NodeNo(1)),
        finish: Finish::DeadEnd(NodeNo(2)),
        length: 10_000,
        edges: one(alloc, EdgeNo(1))?,
        nodes,
        sections: one(alloc, (SectionNo(1), 10_000))?,
        overlaps: List::new(alloc),
    };
    one(alloc, route)
}

/// Its interlocking.
fn one_route(alloc: Global) -> Result<Interlocking, AllocError> {
    let station = dead_end(alloc)?;
    let routes = table(alloc)?;
    Interlocking::new(alloc, Design { station }, routes)
}

/// A command for the first route.
fn first_route(train: u32) -> Command {
    Command {
        train: TrainNo(train),
        route: RouteNo(1),
    }
}

/// Train A has a path of one route by tick 9, and so many of its commands are free.
fn cone_of(alloc: Global, free: u32) -> Result<Cone, AllocError> {
    let entry = ConeTrain {
        train: TrainNo(1),
        horizon: 9,
        free,
        path: one(alloc, RouteNo(1))?,
        holder: None,
    };
    Ok(Cone {
        trains: one(alloc, entry)?,
        pairs: List::new(alloc),
        violation: Violation::Grant {
            train: TrainNo(1),
            command: 1,
        },
    })
}

/// A cone of no train, which says that train A does not make a visit.
fn no_trains(alloc: Global, visit: u32) -> Cone {
    Cone {
        trains: List::new(alloc),
        pairs: List::new(alloc),
        violation: Violation::Visit {
            train: TrainNo(1),
            visit,
        },
    }
}

/// Whether the design has what a cone names of which so many commands are free.
fn is_there(alloc: Global, interlocking: &Interlocking, free: u32) -> Result<bool, AllocError> {
    let cone = cone_of(alloc, free)?;
    is_in_design(alloc, interlocking, &cone)
}

/// Whether the first route is free in a cone of which so many commands are.
fn is_first_free(alloc: Global, free: u32) -> Result<bool, AllocError> {
    let cone = cone_of(alloc, free)?;
    Ok(is_free(&cone, first_route(1)))
}

/// Whether the design has the visit that a cone of no train names.
fn is_visit(alloc: Global, interlocking: &Interlocking, visit: u32) -> Result<bool, AllocError> {
    let cone = no_trains(alloc, visit);
    is_in_design(alloc, interlocking, &cone)
}

#[test]
fn cones_of_a_design(rt: HostRuntime) -> Result<(), AllocError> {
    let alloc = rt.alloc();
    let interlocking = one_route(alloc)?;
    for (free, fits) in [(0, true), (1, true), (2, false)] {
        assert_eq!(rt; is_there(alloc, &interlocking, free)?, fits, "{free}");
    }
    for (visit, fits) in [(2, true), (3, false)] {
        assert_eq!(rt; is_visit(alloc, &interlocking, visit)?, fits, "{visit}");
    }
    Ok(())
}

#[test]
fn free_commands_of_a_cone(rt: HostRuntime) -> Result<(), AllocError> {
    let alloc = rt.alloc();
    for free in 0..3 {
        assert_eq!(rt; is_first_free(alloc, free)?, free > 0, "{free}");
    }
    Ok(())
}

#[test]
fn pairs_by_halves(rt: HostRuntime) {
    let one = first_route(1);
    let two = first_route(2);
    let pairs = SortedPairs {
        items: &[(one, two)],
    };
    assert!(rt; pairs.is_among(one, two));
    assert!(rt; !pairs.is_among(two, one));
}
