//! What commands wait for.

ghost use Rattle.std.specs.Prelude.{◌≡◌, ◌⊎◌, ◌&&◌, ◌||◌, not, ◌<◌, ◌≤◌, ◌^◌};
ghost use Rattle.std.specs.Prelude.{suc, true, List, IfOk, IfSome, OnOk, length, map};
ghost use Rattle.std.specs.List.{list_all};
ghost use Rattle.rail_base.specs.declared.state.TrainState.{TrainState};
ghost use Rattle.rail_base.specs.Members.{In};
ghost use Rattle.rail_base.specs.Routes.{IsRoute, has_section, route_at};
ghost use Rattle.rail_base.specs.Numbering.{before_first};
ghost use Rattle.rail_spec.specs.Plans.{is_route};
ghost use Rattle.rail_course.specs.Itineraries.{IsCommandIn, IsTrainPathIn, IsWaitIn, before_in, command_of};
ghost use Rattle.rail_course.specs.Itineraries.{has_cleared_in, hold_waits_in, own_waits_in};
ghost use Rattle.rail_course.specs.Prefixes.{prefix_of};
ghost use Rattle.rail_course.specs.Waits.{AddsWaits, is_over};

use crate::itineraries::Itineraries;
use crate::prefixes::PathPrefix;
use crate::train_path::TrainPath;
use crate::train_paths::TrainPaths;
use interlocking::Interlocking;
use rail_base::plan::Command;
use rail_base::route::RouteNo;
use rail_base::state::TrainEvent;
use rail_base::station::SectionNo;
use std::alloc::{AllocError, Global};

/// What a command waits for: that another train has released a section.
#[derive(Clone, Copy, Debug)]
pub struct Wait {
    pub event: TrainEvent,
    /// Of a section behind a route's end, which of its train's holds ends then, counted from 0.
    pub hold: Option<usize>,
}

impl TrainPaths<'_> {
    /// Adds what a command waits for of another: that it has released all that the two share.
    pub fn push_waits(
        &self,
        alloc: Global,
        waits: &mut Vec<Wait>,
        command: Command,
        other: Command,
    ) -> Result<(), AllocError>
        requires command { IsRoute self.now.given.interlocking.now.routes command.route }
        requires other { IsCommandIn self.now.given other }
        ensures { OnOk result (AddsWaits waits.old.items waits.new.items
            (λ ps. has_cleared_in self.now.given ps command other) (IsWaitIn self.now.given)) }
    {
        let own = self.own_waits(alloc, other)?;
        let held = self.hold_waits(alloc, other)?;
        push_shared(
            waits,
            self.given.interlocking,
            command.route,
            own.as_slice(),
        )?;
        push_shared(
            waits,
            self.given.interlocking,
            command.route,
            held.as_slice(),
        )?;
        Ok(())
    }

    /// For each section that a command's route goes over, the wait for the command to release it.
    pub fn own_waits(
        &self,
        alloc: Global,
        command: Command,
    ) -> Result<Vec<(SectionNo, Wait)>, AllocError>
        requires { IsCommandIn self.now.given command }
        ensures { IfOk result (λ ws. ws.items ≡ own_waits_in self.now.given command) }
    {
        let releases = self.releases_of(alloc, command)?;
        let mut waits = Vec::new(alloc);
        for release in &releases {
            let event = TrainEvent {
                train: command.train,
                event: release.event,
                ticks: 0,
            };
            waits.push((release.section, Wait { event, hold: None }))?;
        }
        Ok(waits)
    }

    /// For each section of the overlap at its end, the wait for the command to release it.
    pub fn hold_waits(
        &self,
        alloc: Global,
        command: Command,
    ) -> Result<Vec<(SectionNo, Wait)>, AllocError>
        requires { IsCommandIn self.now.given command }
        ensures { IfOk result (λ ws. ws.items ≡ hold_waits_in self.now.given command) }
    {
        let holds = self.holds_of(alloc, command)?;
        let train_path = self.train_path(command.train);
        let mut number = self.given.place_of(train_path, command.route).prefix.holds;
        let mut waits = Vec::new(alloc);
        for hold in &holds {
            let wait = Wait {
                event: hold.event,
                hold: Some(number),
            };
            waits.push((hold.section, wait))?;
            number += 1;
        }
        Ok(waits)
    }
}

impl Itineraries<'_> {
    /// Where the command of a route stands in a train's path.
    pub(crate) fn place_of(&self, train_path: &TrainPath, route: RouteNo) -> Before
        requires { IsTrainPathIn self.now train_path.now }
        ensures granted { result.granted ≡ suc (length (before_in self.now (command_of train_path.now.train route))) }
        ensures prefix { result.prefix ≡ prefix_of (before_in self.now (command_of train_path.now.train route)) }
        ensures below_2_47 { result.prefix.length < 2 ^ 47 }
        ensures spans { result.prefix.spans < 2 ^ 47 }
        ensures holds { result.prefix.holds < 2 ^ 52 }
    {
        let number = number_of(train_path.path.as_slice(), route);
        let prefixes = train_path.prefixes.as_slice();
        Before {
            granted: number + 1,
            prefix: prefixes[number],
        }
    }
}

/// Where a command stands in its train's path.
#[derive(Clone, Copy, Debug)]
pub(crate) struct Before {
    /// How many commands there are up to it.
    pub granted: usize,
    /// The routes before it.
    pub prefix: PathPrefix,
}

/// How many routes stand before one in a path.
fn number_of(path: &[RouteNo], route: RouteNo) -> usize
    ensures value { result ≡ length (before_first (λ r. is_route r route) path.now) }
    ensures bound { result ≤ length path.now }
    ensures fits { result < 2 ^ 63 }
{
    let mut number = 0;
    for other in path {
        if *other == route {
            return number;
        }
        number += 1;
    }
    number
}

/// Adds those of the waits that are for sections that a route has.
fn push_shared(
    waits: &mut Vec<Wait>,
    interlocking: &Interlocking,
    route: RouteNo,
    more: &[(SectionNo, Wait)],
) -> Result<(), AllocError>
    requires { IsRoute interlocking.now.routes route }
    ensures { OnOk result (AddsWaits waits.old.items waits.new.items
        (λ ps. list_all (λ w. not (has_section (route_at interlocking.now.routes route) w.0) || is_over ps w.1)
        more.now)
        (λ w. In w (map (λ x. x.1) more.now))) }
{
    for (section, wait) in more {
        push_if_shared(waits, interlocking, route, *section, *wait)?;
    }
    Ok(())
}

/// Adds a wait, if it is for a section that a route has.
fn push_if_shared(
    waits: &mut Vec<Wait>,
    interlocking: &Interlocking,
    route: RouteNo,
    section: SectionNo,
    wait: Wait,
) -> Result<(), AllocError>
    requires { IsRoute interlocking.now.routes route }
    ensures { OnOk result (AddsWaits waits.old.items waits.new.items
        (λ ps. not (has_section (route_at interlocking.now.routes route) section) || is_over ps wait) (λ w. w ≡ wait)) }
{
    if !interlocking.has_section(route, section) {
        return Ok(());
    }
    push_wait(waits, wait)?;
    Ok(())
}

/// Adds a wait; one for the same command as the last one is merged with it.
pub fn push_wait(waits: &mut Vec<Wait>, wait: Wait) -> Result<(), AllocError>
    ensures { OnOk result (AddsWaits waits.old.items waits.new.items (λ ps. is_over ps wait) (λ w. w ≡ wait)) }
{
    let Some(last) = waits.pop() else {
        waits.push(wait)?;
        return Ok(());
    };
    push_two(waits, last, wait)?;
    Ok(())
}

/// Adds two waits, or one in place of them where they are for the same command.
fn push_two(waits: &mut Vec<Wait>, first: Wait, second: Wait) -> Result<(), AllocError>
    ensures { OnOk result (AddsWaits waits.old.items waits.new.items
        (λ ps. is_over ps first && is_over ps second) (λ w. (w ≡ first) ⊎ (w ≡ second))) }
{
    let Some(both) = merge(first, second) else {
        waits.push(first)?;
        waits.push(second)?;
        return Ok(());
    };
    waits.push(both)?;
    Ok(())
}

/// The later of two waits for the same command.
fn merge(first: Wait, second: Wait) -> Option<Wait>
    ensures over { IfSome result (λ w. (ps : List (List TrainState))
        → is_over ps w ≡ (is_over ps first && is_over ps second)) }
    ensures one { IfSome result (λ w. (w ≡ first) ⊎ (w ≡ second)) }
{
    if !may_merge(first.event, second.event) {
        return None;
    }
    if first.event.event.place <= second.event.event.place {
        Some(second)
    } else {
        Some(first)
    }
}

/// Whether two events differ at most in their places.
fn may_merge(first: TrainEvent, second: TrainEvent) -> bool
    ensures train { result ≡ true → first.train ≡ second.train }
    ensures granted { result ≡ true → first.event.granted ≡ second.event.granted }
    ensures ticks { result ≡ true → first.ticks ≡ second.ticks }
{
    first.train == second.train
        && first.event.granted == second.event.granted
        && first.ticks == second.ticks
}
