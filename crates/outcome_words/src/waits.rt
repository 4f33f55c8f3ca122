//! Where trains wait in a run, and for what. Nothing here takes memory.

ghost use Rattle.std.specs.Prelude.{◌≡◌, ◌+◌, ◌<◌, ◌-◌, ◌++◌, drop, filter, find, flat_map, length, map};
ghost use Rattle.std.specs.Prelude.{option_and_then, if◌then◌else◌, None};
ghost use Rattle.std.specs.List.{list_any};
ghost use Rattle.rail_base.specs.Routes.{has_section, held_sections, own_shared, route_at, share};
ghost use Rattle.rail_spec.specs.Plans.{precedes};
ghost use Rattle.timing_refuter.specs.Clearings.{is_entry};
ghost use Rattle.outcome_words.specs.Waits.{arrival, comes_late, edges_given, last_waiting, release_tick, releases_by};
ghost use Rattle.outcome_words.specs.Waits.{releases_before, releases_for, wait_after, wait_from};
ghost use Rattle.outcome_words.specs.Runs.{of_run};

use crate::run::ShownRun;
use rail_base::history::TrainHistory;
use rail_base::names::entry;
use rail_base::plan::Command;
use rail_base::route::{OverlapSection, RouteNo, RouteTable, Start};
use rail_base::station::{NodeNo, SectionNo, TrainNo};
use rail_plan::paths::step_of;

/// A train waits for a command.
#[derive(Clone, Copy, Debug)]
pub struct Wait {
    /// Where the command's route begins.
    pub start: Start,
    /// The tick at whose end the train is there.
    pub from: u64,
    /// The last tick in which it waits.
    pub until: u64,
    /// Whether the command is granted in the next one.
    pub granted: bool,
    /// Of the releases that the command waits for the first that had not come before the last tick of the wait.
    pub release: Option<(Command, SectionNo)>,
}

/// The first entry of a route and a section.
fn entry_of(
    entries: &[(RouteNo, SectionNo, Option<u64>)],
    route: RouteNo,
    section: SectionNo,
) -> Option<(RouteNo, SectionNo, Option<u64>)>
    ensures { result ≡ find (is_entry route section) entries.now }
{
    entries
        .iter()
        .copied()
        .find(|entry| entry.0 == route && entry.1 == section)
}

/// The tick at which a train has released a section of one of its routes, an own one or one of its overlap.
fn released_at(train: &TrainHistory, route: RouteNo, section: SectionNo) -> Option<u64>
    ensures { result ≡ option_and_then (λ p. p.2)
        (find (is_entry route section) (train.now.releases ++ train.now.holds)) }
{
    match entry_of(train.releases.as_slice(), route, section) {
        Some(release) => release.2,
        None => entry_of(train.holds.as_slice(), route, section)?.2,
    }
}

/// The tick at which a command has released a section. None where that has not come, or the history does not have it.
fn release_tick(history: &[TrainHistory], command: Command, section: SectionNo) -> Option<u64>
    ensures { result ≡ release_tick history.now command section }
{
    match entry(history, command.train.0 as usize) {
        Some(train) => released_at(train, command.route, section),
        None => None,
    }
}

/// Whether a command has not released a section before a tick.
fn comes_late(history: &[TrainHistory], tick: u64, command: Command, section: SectionNo) -> bool
    ensures { result ≡ comes_late history.now tick (command, section) }
{
    match release_tick(history, command, section) {
        Some(released) => tick <= released,
        None => true,
    }
}

/// The sections that a route goes over, with their release offsets.
fn sections_of(routes: &RouteTable, route: RouteNo) -> &[(SectionNo, i64)]
    ensures { result.now ≡ (route_at routes.now route).sections }
{
    match entry(routes.as_slice(), route.0 as usize) {
        Some(route) => route.sections.as_slice(),
        None => &[],
    }
}

/// Those of the overlap at its end.
fn overlaps_of(routes: &RouteTable, route: RouteNo) -> &[OverlapSection]
    ensures { result.now ≡ (route_at routes.now route).overlaps }
{
    match entry(routes.as_slice(), route.0 as usize) {
        Some(route) => route.overlaps.as_slice(),
        None => &[],
    }
}

/// Whether a route has a section.
fn has_section(routes: &RouteTable, route: RouteNo, section: SectionNo) -> bool
    ensures { result ≡ has_section (route_at routes.now route) section }
{
    match entry(routes.as_slice(), route.0 as usize) {
        Some(route) => route.has_section(section),
        None => false,
    }
}

/// Whether a route has one of the sections that another goes over.
fn shares_own(routes: &RouteTable, route: RouteNo, other: RouteNo) -> bool
    ensures { result ≡ list_any (λ p. has_section (route_at routes.now other) p.0)
        (route_at routes.now route).sections }
{
    sections_of(routes, route)
        .iter()
        .any(|part| has_section(routes, other, part.0))
}

/// Whether it has one of those of the overlap at the other's end.
fn shares_overlap(routes: &RouteTable, route: RouteNo, other: RouteNo) -> bool
    ensures { result ≡ list_any (λ p. has_section (route_at routes.now other) p.section)
        (route_at routes.now route).overlaps }
{
    overlaps_of(routes, route)
        .iter()
        .any(|part| has_section(routes, other, part.section))
}

/// Whether two routes have a section in common.
fn share(routes: &RouteTable, route: RouteNo, other: RouteNo) -> bool
    ensures { result ≡ share (route_at routes.now route) (route_at routes.now other) }
{
    shares_own(routes, route, other) || shares_overlap(routes, route, other)
}

/// Where a route starts.
fn start_of(routes: &RouteTable, route: RouteNo) -> Start
    ensures { result ≡ (route_at routes.now route).start }
{
    match entry(routes.as_slice(), route.0 as usize) {
        Some(route) => route.start,
        None => Start::Boundary(NodeNo(0)),
    }
}

/// How many edges a route has.
fn edge_count(routes: &RouteTable, route: RouteNo) -> usize
    ensures { result ≡ length (route_at routes.now route).edges }
{
    match entry(routes.as_slice(), route.0 as usize) {
        Some(route) => route.edges.len(),
        None => 0,
    }
}

/// The nodes of a path from the end of these commands of it on.
fn nodes_after<'a>(
    routes: &RouteTable,
    passes: &'a [(NodeNo, Option<u64>)],
    grants: &[(RouteNo, Option<u64>)],
) -> &'a [(NodeNo, Option<u64>)]
    ensures { result.now ≡ drop (edges_given routes.now grants.now) passes.now }
{
    let mut rest = passes;
    for (route, _) in grants {
        rest = nodes_from(rest, edge_count(routes, *route));
    }
    rest
}

/// The nodes from the one of an index on, counted from 0; none where there are fewer.
fn nodes_from(passes: &[(NodeNo, Option<u64>)], index: usize) -> &[(NodeNo, Option<u64>)]
    ensures { result.now ≡ drop index passes.now }
{
    match passes.get(index..) {
        Some(rest) => rest,
        None => &[],
    }
}

/// The tick at which a train is where the command of an index, counted from 0, begins.
fn arrival(routes: &RouteTable, train: &TrainHistory, index: usize) -> Option<u64>
    requires { index < length train.now.grants }
    ensures { result ≡ arrival routes.now train.now (index + 1) }
{
    if index == 0 {
        return Some(0);
    }
    let before = &train.grants.as_slice()[..index];
    match nodes_after(routes, train.passes.as_slice(), before) {
        [] => None,
        [first, ..] => first.1,
    }
}

/// The tick before a grant, or the last.
fn last_waiting(last: u64, granted: Option<u64>) -> u64
    ensures { result ≡ last_waiting last granted }
{
    match granted {
        Some(granted) => granted.saturating_sub(1),
        None => last,
    }
}

/// Whether a command precedes another in the plan.
fn is_earlier(run: &ShownRun, first: Command, second: Command) -> bool
    ensures { result ≡ precedes run.now.interlocking.now.routes run.now.plan.now.steps first second }
{
    first.train != second.train
        && share(&run.interlocking.routes, first.route, second.route)
        && step_of(run.plan, first) < step_of(run.plan, second)
}

/// Of the sections that a command goes over and another has the first that the one has not released before a tick.
fn late_own_release(
    run: &ShownRun,
    tick: u64,
    first: Command,
    second: Command,
) -> Option<(Command, SectionNo)>
    ensures { let routes = run.now.interlocking.now.routes in result ≡ find (comes_late run.now.history.now tick)
        (map (λ z. (first, z)) (own_shared (route_at routes first.route) (route_at routes second.route))) }
{
    let routes = &run.interlocking.routes;
    for part in sections_of(routes, first.route) {
        if has_section(routes, second.route, part.0)
            && comes_late(run.history, tick, first, part.0)
        {
            return Some((first, part.0));
        }
    }
    None
}

/// The same of those of its overlap.
fn late_hold_release(
    run: &ShownRun,
    tick: u64,
    first: Command,
    second: Command,
) -> Option<(Command, SectionNo)>
    ensures { let routes = run.now.interlocking.now.routes in result ≡ find (comes_late run.now.history.now tick)
        (map (λ z. (first, z)) (filter (has_section (route_at routes second.route))
        (held_sections (route_at routes first.route)))) }
{
    let routes = &run.interlocking.routes;
    for held in overlaps_of(routes, first.route) {
        if has_section(routes, second.route, held.section)
            && comes_late(run.history, tick, first, held.section)
        {
            return Some((first, held.section));
        }
    }
    None
}

/// Of the sections that two commands share the first that the one has not released before a tick.
fn late_release_by(
    run: &ShownRun,
    tick: u64,
    first: Command,
    second: Command,
) -> Option<(Command, SectionNo)>
    ensures { result ≡ find (comes_late run.now.history.now tick)
        (releases_by run.now.interlocking.now.routes second first) }
{
    match late_own_release(run, tick, first, second) {
        Some(release) => Some(release),
        None => late_hold_release(run, tick, first, second),
    }
}

/// The same, where the one command precedes the other.
fn late_release_before(
    run: &ShownRun,
    tick: u64,
    first: Command,
    second: Command,
) -> Option<(Command, SectionNo)>
    ensures { result ≡ find (comes_late run.now.history.now tick)
        (releases_before run.now.interlocking.now.routes run.now.plan.now.steps second first) }
{
    match late_release_by(run, tick, first, second) {
        Some(release) => {
            if is_earlier(run, first, second) {
                Some(release)
            } else {
                None
            }
        }
        None => None,
    }
}

/// The first of those of a step.
fn late_release_in(
    run: &ShownRun,
    tick: u64,
    command: Command,
    step: &[Command],
) -> Option<(Command, SectionNo)>
    ensures { result ≡ find (comes_late run.now.history.now tick)
        (flat_map (releases_before run.now.interlocking.now.routes run.now.plan.now.steps command) step.now) }
{
    for first in step {
        if let Some(release) = late_release_before(run, tick, *first, command) {
            return Some(release);
        }
    }
    None
}

/// Of the releases that a command waits for the first that had not come before a tick.
fn late_release(run: &ShownRun, tick: u64, command: Command) -> Option<(Command, SectionNo)>
    ensures { result ≡ find (comes_late run.now.history.now tick)
        (releases_for run.now.interlocking.now.routes run.now.plan.now.steps command) }
{
    for step in run.plan.steps.as_slice() {
        if let Some(release) = late_release_in(run, tick, command, step.as_slice()) {
            return Some(release);
        }
    }
    None
}

/// The wait of a train that is there at the end of a tick.
fn wait_from(run: &ShownRun, train: TrainNo, grant: (RouteNo, Option<u64>), from: u64) -> Wait
    ensures { result ≡ of_run run.now wait_from train grant from }
{
    let route = grant.0;
    let until = last_waiting(run.last, grant.1);
    Wait {
        start: start_of(&run.interlocking.routes, route),
        from,
        until,
        granted: grant.1.is_some(),
        release: late_release(run, until, Command { train, route }),
    }
}

/// The wait of a train for the command of an index of its path, counted from 0, where there is one.
pub(crate) fn wait_of(
    run: &ShownRun,
    train: TrainNo,
    history: &TrainHistory,
    index: usize,
    grant: (RouteNo, Option<u64>),
) -> Option<Wait>
    requires { index < length history.now.grants }
    ensures { result ≡ of_run run.now wait_after train grant
        (arrival run.now.interlocking.now.routes history.now (index + 1)) }
{
    match arrival(&run.interlocking.routes, history, index) {
        Some(from) => {
            if from < last_waiting(run.last, grant.1) {
                Some(wait_from(run, train, grant, from))
            } else {
                None
            }
        }
        None => None,
    }
}
