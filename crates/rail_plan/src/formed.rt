//! Whether a plan is well formed.

ghost use Rattle.std.specs.Prelude.{◌≡◌, ◌↔◌, true, ◌<◌, ◌^◌, All, IsNone, length};
ghost use Rattle.std.specs.Option.{option_or};
ghost use Rattle.std.specs.List.{list_all};
ghost use Rattle.rail_base.specs.Numbering.{first_of_list};
ghost use Rattle.rail_base.specs.Stations.{IsTrain, first_visit, train_of};
ghost use Rattle.rail_spec.specs.Plans.{path, routes_given, starts_in};
ghost use Rattle.rail_plan.specs.Named.{HasRoute, HaveRoutes};
ghost use Rattle.rail_plan.specs.WellFormed.{is_apart, are_apart, last_of_list};
ghost use Rattle.interlocking.specs.Plans.{names_only, is_well_formed};
ghost use Rattle.rail_plan.specs.Interlocked.{begins_after, is_placed, may_follow_after, misplaced, misplaced_after};
ghost use Rattle.rail_plan.specs.Interlocked.{placed_badly};

use crate::place::PlanPlace;
use interlocking::{Interlocking, end_at_one_signal, goes_on, has_node};
use rail_base::design::Design;
use rail_base::list::List;
use rail_base::plan::{Command, Plan};
use rail_base::route::{Route, RouteNo, RouteTable, Start, route_at};
use rail_base::station::TrainNo;

/// Where a plan isn't well formed for `n`, or None where it is: first that it has more than `n` steps, then by step
/// and by train in file order.
pub fn well_formed(interlocking: &Interlocking, plan: &Plan, n: u32) -> Option<PlanPlace>
    requires { names_only interlocking.now plan.now.steps ≡ true }
    ensures formed { IsNone result ↔ (is_well_formed interlocking.now n plan.now.steps ≡ true) }
    ensures place { result ≡ first_of_list (misplaced interlocking.now n plan.now.steps) }
{
    first_place(interlocking, plan.steps.as_slice(), n as usize)
}

/// The first route that a step gives to a train.
pub(crate) fn first_given(step: &List<Command>, train: TrainNo) -> Option<RouteNo>
    ensures { result ≡ first_of_list (routes_given train step.now) }
{
    for command in step.as_slice() {
        if command.train == train {
            return Some(command.route);
        }
    }
    None
}

/// Whether two routes start at different places, and don't end at one signal.
fn are_apart(one: &Route, other: &Route) -> bool
    ensures { result ≡ are_apart one.now other.now }
{
    one.start != other.start && !end_at_one_signal(one.finish, other.finish)
}

/// Whether a start is a boundary of the train's first visit.
fn starts_there(design: &Design, train: TrainNo, start: Start) -> bool
    requires { IsTrain design.now.station train }
    ensures { result ≡ starts_in (first_visit (train_of design.now.station train)) start }
{
    match (start, design.train(train).visits.as_slice().first()) {
        (Start::Boundary(node), Some(nodes)) => has_node(nodes.as_slice(), node),
        _ => false,
    }
}

/// How many commands a step has for a train.
fn count_given(step: &List<Command>, train: TrainNo) -> usize
    ensures { result ≡ length (routes_given train step.now) }
{
    let mut count = 0;
    for command in step.as_slice() {
        if command.train == train {
            count += 1;
        }
    }
    count
}

#[tactic(auto, using(crate::proofs::Firsts::lasts))]
/// The last route that a step gives to a train, or else the last before it.
fn last_in_step(step: &List<Command>, train: TrainNo, mut last: Option<RouteNo>) -> Option<RouteNo>
    ensures { result ≡ option_or (last_of_list (routes_given train step.now)) last }
{
    for command in step.as_slice() {
        if command.train == train {
            last = Some(command.route);
        }
    }
    last
}

#[tactic(auto, using(crate::proofs::Firsts::lasts))]
/// The last route that steps give to a train.
fn last_given(steps: &[List<Command>], train: TrainNo) -> Option<RouteNo>
    ensures { result ≡ last_of_list (path steps.now train) }
{
    let mut last = None;
    for step in steps {
        last = last_in_step(step, train, last);
    }
    last
}

#[tactic(auto, using(crate::proofs::Firsts::lasts))]
/// Whether the route starts where the train is after these steps.
fn begins_well(
    interlocking: &Interlocking,
    before: &[List<Command>],
    train: TrainNo,
    route: &Route,
) -> bool
    requires train { IsTrain interlocking.now.design.station train }
    requires named { All (HaveRoutes interlocking.now.routes) before.now }
    ensures { result ≡ begins_after interlocking.now before.now train route.now }
{
    match last_given(before, train) {
        Some(last) => goes_on(route_at(&interlocking.routes, last).finish, route.start),
        None => starts_there(&interlocking.design, train, route.start),
    }
}

/// Whether a command is for another train, or gives it a route apart from this one.
fn is_apart(routes: &RouteTable, command: Command, train: TrainNo, route: &Route) -> bool
    requires { HasRoute routes.now command }
    ensures { result ≡ is_apart routes.now train route.now command }
{
    command.train != train || are_apart(route_at(routes, command.route), route)
}

/// Whether all commands of a step are.
fn are_apart_in_step(
    routes: &RouteTable,
    step: &List<Command>,
    train: TrainNo,
    route: &Route,
) -> bool
    requires { HaveRoutes routes.now step.now }
    ensures { result ≡ list_all (is_apart routes.now train route.now) step.now }
{
    for command in step.as_slice() {
        if !is_apart(routes, *command, train, route) {
            return false;
        }
    }
    true
}

/// Whether all commands of these steps are.
fn are_all_apart(
    routes: &RouteTable,
    steps: &[List<Command>],
    train: TrainNo,
    route: &Route,
) -> bool
    requires { All (HaveRoutes routes.now) steps.now }
    ensures { result ≡ list_all (λ step. list_all (is_apart routes.now train route.now) step) steps.now }
{
    for step in steps {
        if !are_apart_in_step(routes, step, train, route) {
            return false;
        }
    }
    true
}

#[tactic(auto, using(crate::proofs::Placed::all_apart))]
/// Whether a train's path may go on with a route after these steps.
fn may_follow(
    interlocking: &Interlocking,
    before: &[List<Command>],
    train: TrainNo,
    route: &Route,
) -> bool
    requires train { IsTrain interlocking.now.design.station train }
    requires named { All (HaveRoutes interlocking.now.routes) before.now }
    ensures { result ≡ may_follow_after interlocking.now before.now train route.now }
{
    begins_well(interlocking, before, train, route)
        && are_all_apart(&interlocking.routes, before, train, route)
}

/// Whether a train's command in a step is right after the steps before it.
fn is_placed(
    interlocking: &Interlocking,
    before: &[List<Command>],
    step: &List<Command>,
    train: TrainNo,
) -> bool
    requires train { IsTrain interlocking.now.design.station train }
    requires before { All (HaveRoutes interlocking.now.routes) before.now }
    requires step { HaveRoutes interlocking.now.routes step.now }
    ensures { result ≡ is_placed interlocking.now before.now step.now train }
{
    match first_given(step, train) {
        Some(route) => {
            count_given(step, train) == 1
                && may_follow(
                    interlocking,
                    before,
                    train,
                    route_at(&interlocking.routes, route),
                )
        }
        None => true,
    }
}

/// The first train, in file order, whose command in a step isn't right after the steps before it.
#[tactic(auto, using(crate::proofs::Firsts::counting))]
fn misplaced_train(
    interlocking: &Interlocking,
    before: &[List<Command>],
    step: &List<Command>,
) -> Option<TrainNo>
    requires before { All (HaveRoutes interlocking.now.routes) before.now }
    requires step { HaveRoutes interlocking.now.routes step.now }
    ensures { result ≡ first_of_list (misplaced_after interlocking.now before.now step.now) }
{
    for index in 0..interlocking.design.station.trains.len() {
        let train = TrainNo(index as u32 + 1);
        if !is_placed(interlocking, before, step, train) {
            return Some(train);
        }
    }
    None
}

/// The first step and train of the plan whose command isn't right after the steps before it.
fn first_misplaced(interlocking: &Interlocking, steps: &[List<Command>]) -> Option<PlanPlace>
    requires { All (HaveRoutes interlocking.now.routes) steps.now }
    ensures { result ≡ first_of_list (placed_badly interlocking.now steps.now) }
{
    for (index, step) in steps.iter().enumerate() {
        if let Some(train) = misplaced_train(interlocking, &steps[..index], step) {
            return Some(PlanPlace::Train {
                step: index + 1,
                train,
            });
        }
    }
    None
}

/// The first place at which these steps aren't well formed for `n`.
fn first_place(interlocking: &Interlocking, steps: &[List<Command>], n: usize) -> Option<PlanPlace>
    requires named { All (HaveRoutes interlocking.now.routes) steps.now }
    requires below_2_32 { n < 2 ^ 32 }
    ensures { result ≡ first_of_list (misplaced interlocking.now n steps.now) }
{
    if steps.len() > n {
        return Some(PlanPlace::Step { step: n + 1 });
    }
    first_misplaced(interlocking, steps)
}
