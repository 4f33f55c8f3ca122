//! The trains that stand last on sections.

ghost use Rattle.std.specs.Prelude.{◌≡◌, ◌≤◌, ◌==◌, if◌then◌else◌, length, map, nat_abs};
ghost use Rattle.rail_base.specs.declared.station.SectionNo.{SectionNo};
ghost use Rattle.rail_base.specs.Routes.{IsRoute, route_at};
ghost use Rattle.rail_base.specs.Stations.{IsTrain};
ghost use Rattle.rail_spec.specs.Plans.{routes_given};
ghost use Rattle.rail_plan.specs.Named.{HaveRoutes, HaveTrains};
ghost use Rattle.rail_plan.specs.Holds.{given_step, hold_at, keeps_out, no_hold, rest_after, taken};
ghost use Rattle.rail_plan.specs.Interlocked.{lack_after, taken_by, taken_by_step, turned};

use interlocking::Interlocking;
use rail_base::list::List;
use rail_base::plan::Command;
use rail_base::route::{RouteTable, route_at};
use rail_base::station::{SectionNo, TrainNo};

/// How many sections a design may have: as many as edges.
const MOST_SECTIONS: usize = 4000;

/// The train whose command stands last on a section.
#[derive(Clone, Copy)]
pub struct Hold {
    pub train: TrainNo,
    /// How much track the train is still to be given before it can leave the section, in mm.
    pub left: u128,
}

/// The holds before any step.
pub(crate) fn no_holds() -> [Hold; MOST_SECTIONS]
    ensures count { length result ≡ 4000 }
    ensures none { (z : SectionNo) → hold_at result z ≡ no_hold }
{
    [Hold {
        train: TrainNo(0),
        left: 0,
    }; MOST_SECTIONS]
}

/// Whether another train stands on a section that can't leave it.
pub(crate) fn is_kept_out(holds: &[Hold], train: TrainNo, section: SectionNo) -> bool
    requires at_least_one { 1 ≤ section.0 }
    requires within { section.0 ≤ length holds.now }
    ensures { result ≡ keeps_out (hold_at holds.now section) train }
{
    let hold = holds[section.0 as usize - 1];
    hold.train != train && hold.left != 0
}

/// Turns holds into those after one step more.
pub(crate) fn turn(interlocking: &Interlocking, step: &List<Command>, holds: &mut [Hold])
    requires every_section { length interlocking.now.design.station.sections ≤ length holds.old }
    requires trains { HaveTrains interlocking.now.design.station step.now }
    requires routes { HaveRoutes interlocking.now.routes step.now }
    ensures same_length { length holds.new ≡ length holds.old }
    ensures turned { (z : SectionNo) → hold_at holds.new z
        ≡ turned interlocking.now z step.now (hold_at holds.old z) }
{
    give_step(&interlocking.routes, step, holds);
    take_step(interlocking, holds, step);
}

#[tactic(auto, using(crate::proofs::Resting::rest_none))]
/// How much of a length is left after the routes that a step gives to a train: nothing where one of them exits.
fn rest_after(routes: &RouteTable, step: &List<Command>, train: TrainNo, mut left: u128) -> u128
    requires { HaveRoutes routes.now step.now }
    ensures { result ≡ rest_after left (map (route_at routes.now) (routes_given train step.now)) }
{
    if left == 0 {
        return 0;
    }
    for command in step.as_slice() {
        if command.train == train {
            let route = route_at(routes, command.route);
            if route.exits() {
                return 0;
            }
            left = left.saturating_sub(u128::from(route.length_mm()));
        }
    }
    left
}

/// A hold after its train was given the routes that a step has for it.
fn given_step(routes: &RouteTable, step: &List<Command>, hold: Hold) -> Hold
    requires { HaveRoutes routes.now step.now }
    ensures { result ≡ given_step routes.now step.now hold }
{
    Hold {
        train: hold.train,
        left: rest_after(routes, step, hold.train, hold.left),
    }
}

/// Gives the trains of holds the routes that a step has for them.
fn give_step(routes: &RouteTable, step: &List<Command>, holds: &mut [Hold])
    requires { HaveRoutes routes.now step.now }
    ensures same_length { length holds.new ≡ length holds.old }
    ensures given { (z : SectionNo) → hold_at holds.new z ≡ given_step routes.now step.now (hold_at holds.old z) }
{
    for index in 0..holds.len() {
        let hold = holds[index];
        holds[index] = given_step(routes, step, hold);
    }
}

/// A hold after a train that lacks so much track took the section.
fn hold_after(hold: Hold, train: TrainNo, left: u128) -> Hold
    ensures { result ≡ taken hold train left }
{
    if hold.train == train {
        Hold {
            train,
            left: hold.left.max(left),
        }
    } else {
        Hold { train, left }
    }
}

/// A train that lacks so much track takes a section.
fn take(holds: &mut [Hold], section: SectionNo, train: TrainNo, left: u128)
    requires at_least_one { 1 ≤ section.0 }
    requires within { section.0 ≤ length holds.old }
    ensures same_length { length holds.new ≡ length holds.old }
    ensures taken { (z : SectionNo) → hold_at holds.new z
        ≡ (if section.0 == z.0 then taken (hold_at holds.old z) train left else hold_at holds.old z) }
{
    let place = section.0 as usize - 1;
    let hold = holds[place];
    holds[place] = hold_after(hold, train, left);
}

/// How much track the train of a command lacks after the command's route, for a release at this offset of the route.
fn lack_after(interlocking: &Interlocking, command: Command, offset: u64) -> u128
    requires train { IsTrain interlocking.now.design.station command.train }
    requires route { IsRoute interlocking.now.routes command.route }
    ensures { result ≡ lack_after interlocking.now command offset }
{
    let route = route_at(&interlocking.routes, command.route);
    let length = interlocking.design.vehicle_of(command.train).length_mm;
    if route.exits() {
        return 0;
    }
    let far = u128::from(offset) + u128::from(length);
    far.saturating_sub(u128::from(route.length_mm()))
}

/// Where a route releases the section of this part of it, in mm from its start.
fn offset_of(part: &(SectionNo, i64)) -> u64
    ensures { result ≡ nat_abs part.now.1 }
{
    part.1.unsigned_abs()
}

/// The train of a command takes the sections that the command's route goes over.
fn take_route(interlocking: &Interlocking, holds: &mut [Hold], command: Command)
    requires every_section { length interlocking.now.design.station.sections ≤ length holds.old }
    requires train { IsTrain interlocking.now.design.station command.train }
    requires route { IsRoute interlocking.now.routes command.route }
    ensures same_length { length holds.new ≡ length holds.old }
    ensures taken { (z : SectionNo) → hold_at holds.new z
        ≡ taken_by interlocking.now z command (hold_at holds.old z) }
{
    for part in route_at(&interlocking.routes, command.route)
        .sections
        .as_slice()
    {
        let left = lack_after(interlocking, command, offset_of(part));
        take(holds, part.0, command.train, left);
    }
}

/// The trains of a step's commands take the sections of the commands' routes.
fn take_step(interlocking: &Interlocking, holds: &mut [Hold], step: &List<Command>)
    requires every_section { length interlocking.now.design.station.sections ≤ length holds.old }
    requires trains { HaveTrains interlocking.now.design.station step.now }
    requires routes { HaveRoutes interlocking.now.routes step.now }
    ensures same_length { length holds.new ≡ length holds.old }
    ensures taken { (z : SectionNo) → hold_at holds.new z
        ≡ taken_by_step interlocking.now z step.now (hold_at holds.old z) }
{
    for command in step.as_slice() {
        take_route(interlocking, holds, *command);
    }
}
