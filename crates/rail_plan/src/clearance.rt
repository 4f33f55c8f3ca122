//! Whether a plan can be carried out.

ghost use Rattle.std.specs.Prelude.{◌≡◌, ◌↔◌, ℕ, ◌≤◌, true, false, IsNone, filter, length, map};
ghost use Rattle.std.specs.List.{list_any};
ghost use Rattle.rail_base.specs.Numbering.{first_of_list};
ghost use Rattle.rail_base.specs.Routes.{IsRoute, own_sections, route_at};
ghost use Rattle.rail_spec.specs.Plans.{contend, one_each};
ghost use Rattle.rail_plan.specs.Named.{HaveRoutes};
ghost use Rattle.interlocking.specs.Plans.{is_executable, IsWellFormed};
ghost use Rattle.rail_plan.specs.Interlocked.{AreHolds, blocked, kept_sections, is_kept_from, stopped, stopped_in};
ghost use Rattle.rail_plan.specs.Interlocked.{takes};

use crate::formed::first_given;
use crate::holds::{Hold, is_kept_out, no_holds, turn};
use crate::place::PlanPlace;
use interlocking::Interlocking;
use rail_base::list::List;
use rail_base::plan::{Command, Plan};
use rail_base::route::route_at;
use rail_base::station::{SectionNo, TrainNo};

/// Where a well-formed plan can't be carried out, or None where it can: by step, by train in file order and by
/// section in the order of the route.
pub fn executable(interlocking: &Interlocking, plan: &Plan) -> Option<PlanPlace>
    requires { (n : ℕ) × IsWellFormed interlocking.now n plan.now.steps }
    ensures executable { IsNone result ↔ (is_executable interlocking.now plan.now.steps ≡ true) }
    ensures place { result ≡ first_of_list (blocked interlocking.now plan.now.steps) }
{
    first_blocked(interlocking, plan.steps.as_slice())
}

/// Whether a step gives another train a route that has a section in common with a command's.
fn is_contended(interlocking: &Interlocking, step: &List<Command>, command: Command) -> bool
    requires step { HaveRoutes interlocking.now.routes step.now }
    requires route { IsRoute interlocking.now.routes command.route }
    ensures { result ≡ list_any (λ other. contend interlocking.now.routes other command) step.now }
{
    for other in step.as_slice() {
        if other.train != command.train && interlocking.share(other.route, command.route) {
            return true;
        }
    }
    false
}

/// Whether a step gives another train a route that has a section.
fn is_taken(
    interlocking: &Interlocking,
    step: &List<Command>,
    train: TrainNo,
    section: SectionNo,
) -> bool
    requires { HaveRoutes interlocking.now.routes step.now }
    ensures { result ≡ list_any (takes interlocking.now train section) step.now }
{
    for command in step.as_slice() {
        if command.train != train && interlocking.has_section(command.route, section) {
            return true;
        }
    }
    false
}

/// Whether the holds or the commands of its step keep a command from a section. Those of the step are looked at only
/// where the command is contended.
fn is_kept_from(
    interlocking: &Interlocking,
    holds: &[Hold],
    step: &List<Command>,
    contended: bool,
    train: TrainNo,
    section: SectionNo,
) -> bool
    requires at_least_one { 1 ≤ section.0 }
    requires within { section.0 ≤ length holds.now }
    requires step { HaveRoutes interlocking.now.routes step.now }
    requires contended { contended ≡ false → list_any (takes interlocking.now train section) step.now ≡ false }
    ensures { result ≡ is_kept_from interlocking.now holds.now step.now train section }
{
    if is_kept_out(holds, train, section) {
        return true;
    }
    if !contended {
        return false;
    }
    is_taken(interlocking, step, train, section)
}

/// The first section that its route goes over from which the holds or the commands of its step keep a command.
fn kept_own_section(
    interlocking: &Interlocking,
    holds: &[Hold],
    step: &List<Command>,
    contended: bool,
    command: Command,
) -> Option<SectionNo>
    requires every_section { length interlocking.now.design.station.sections ≤ length holds.now }
    requires step { HaveRoutes interlocking.now.routes step.now }
    requires contended { contended ≡ list_any (λ other. contend interlocking.now.routes other command) step.now }
    requires route { IsRoute interlocking.now.routes command.route }
    ensures { result ≡ first_of_list (filter (is_kept_from interlocking.now holds.now step.now command.train)
        (own_sections (route_at interlocking.now.routes command.route))) }
{
    for part in route_at(&interlocking.routes, command.route)
        .sections
        .as_slice()
    {
        if is_kept_from(interlocking, holds, step, contended, command.train, part.0) {
            return Some(part.0);
        }
    }
    None
}

/// The first section of the overlap at its route's end from which they keep it.
fn kept_overlap_section(
    interlocking: &Interlocking,
    holds: &[Hold],
    step: &List<Command>,
    contended: bool,
    command: Command,
) -> Option<SectionNo>
    requires every_section { length interlocking.now.design.station.sections ≤ length holds.now }
    requires step { HaveRoutes interlocking.now.routes step.now }
    requires contended { contended ≡ list_any (λ other. contend interlocking.now.routes other command) step.now }
    requires route { IsRoute interlocking.now.routes command.route }
    ensures { result ≡ first_of_list (filter (is_kept_from interlocking.now holds.now step.now command.train)
        (map (λ p. p.section) (route_at interlocking.now.routes command.route).overlaps)) }
{
    for part in route_at(&interlocking.routes, command.route)
        .overlaps
        .as_slice()
    {
        let section = part.section;
        if is_kept_from(interlocking, holds, step, contended, command.train, section) {
            return Some(section);
        }
    }
    None
}

/// The first section, in the order of its route, from which the holds or the commands of its step keep a command.
pub(crate) fn kept_section(
    interlocking: &Interlocking,
    holds: &[Hold],
    step: &List<Command>,
    command: Command,
) -> Option<SectionNo>
    requires every_section { length interlocking.now.design.station.sections ≤ length holds.now }
    requires step { HaveRoutes interlocking.now.routes step.now }
    requires route { IsRoute interlocking.now.routes command.route }
    ensures { result ≡ first_of_list (kept_sections interlocking.now holds.now step.now command) }
{
    let contended = is_contended(interlocking, step, command);
    let own = kept_own_section(interlocking, holds, step, contended, command);
    if own.is_some() {
        return own;
    }
    kept_overlap_section(interlocking, holds, step, contended, command)
}

/// The first section over which the command that a step has for a train is stopped.
fn stopped_train(
    interlocking: &Interlocking,
    holds: &[Hold],
    before: &[List<Command>],
    step: &List<Command>,
    train: TrainNo,
) -> Option<PlanPlace>
    requires holds { AreHolds interlocking.now before.now holds.now }
    requires routes { HaveRoutes interlocking.now.routes step.now }
    requires each_once { one_each step.now ≡ true }
    ensures { result ≡ first_of_list (stopped_in interlocking.now before.now step.now train) }
{
    let route = first_given(step, train)?;
    let section = kept_section(interlocking, holds, step, Command { train, route })?;
    Some(PlanPlace::Section {
        step: before.len() + 1,
        train,
        section,
    })
}

/// The first place of a step: by train in file order, and by section.
fn stopped_step(
    interlocking: &Interlocking,
    holds: &[Hold],
    before: &[List<Command>],
    step: &List<Command>,
) -> Option<PlanPlace>
    requires holds { AreHolds interlocking.now before.now holds.now }
    requires routes { HaveRoutes interlocking.now.routes step.now }
    requires each_once { one_each step.now ≡ true }
    ensures { result ≡ first_of_list (stopped interlocking.now before.now step.now) }
{
    for index in 0..interlocking.design.station.trains.len() {
        let place = stopped_train(interlocking, holds, before, step, TrainNo(index as u32 + 1));
        if place.is_some() {
            return place;
        }
    }
    None
}

/// The first place at which steps can't be carried out after those before them.
fn first_blocked(interlocking: &Interlocking, steps: &[List<Command>]) -> Option<PlanPlace>
    requires { (n : ℕ) × IsWellFormed interlocking.now n steps.now }
    ensures { result ≡ first_of_list (blocked interlocking.now steps.now) }
{
    let mut holds = no_holds();
    for (index, step) in steps.iter().enumerate() {
        let place = stopped_step(interlocking, &holds, &steps[..index], step);
        if place.is_some() {
            return place;
        }
        turn(interlocking, step, &mut holds);
    }
    None
}
